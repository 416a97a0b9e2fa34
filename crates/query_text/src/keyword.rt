ghost use Rattle.std.specs.Prelude.{◌≡◌};
ghost use Rattle.query_model.specs.Keywords.{keyword_of, text_of};

use query_model::Keyword;

/// All keywords.
const KEYWORDS: [Keyword; 11] = [
    Keyword::Doc,
    Keyword::Tick,
    Keyword::Cancel,
    Keyword::After,
    Keyword::Lo,
    Keyword::Mid,
    Keyword::Hi,
    Keyword::Find,
    Keyword::Count,
    Keyword::Exists,
    Keyword::Top,
];

/// The keyword that a field is.
pub fn keyword_of(field: &[u8]) -> Option<Keyword>
    ensures { result ≡ keyword_of field.now }
{
    KEYWORDS
        .iter()
        .copied()
        .find(|keyword| field == text_of(*keyword).as_bytes())
}

/// How a keyword is written.
pub fn text_of(keyword: Keyword) -> &'static str
    ensures { result.now ≡ text_of keyword }
{
    match keyword {
        Keyword::Doc => "doc",
        Keyword::Tick => "tick",
        Keyword::Cancel => "cancel",
        Keyword::After => "after",
        Keyword::Lo => "lo",
        Keyword::Mid => "mid",
        Keyword::Hi => "hi",
        Keyword::Find => "find",
        Keyword::Count => "count",
        Keyword::Exists => "exists",
        Keyword::Top => "top",
    }
}
