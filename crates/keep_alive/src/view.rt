// What a seat at the count knows.
/// What a seat at the count knows. No value of it is made.
pub enum View {
    /// The owner's 1 and the first token, which has room for so many more tokens.
    Making(u64),
    /// The owner's 1.
    Owner,
    /// A token with room for so many more, and the room with which the count began.
    Token(u64, u64),
    /// A token about to be copied: the room that it will keep, the room of the copy, and that of the count.
    Offering(u64, u64, u64),
    /// A token and its copy: the room of each, and that of the count.
    Copying(u64, u64, u64),
    /// A token was released, and this is the count that its release found.
    Released(u64),
    /// The owner took its 1 off.
    Left,
    /// The owner has found the count 0 after that.
    Closed,
    /// What two seats that exclude each other would be together. There is none.
    Clash,
    /// Nothing.
    Spent,
}
