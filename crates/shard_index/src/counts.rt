use fan_base::Numbers;

/// How many documents have words.
#[derive(Debug, Drop)]
pub struct Counts {
    /// For each word how many documents have it.
    pub with: Numbers,
    /// How many documents have one of the words, or several.
    pub any: u64,
}
