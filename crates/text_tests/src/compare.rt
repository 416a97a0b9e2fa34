// Comparisons, and what is put behind a list. A test compares by these, since each assertion that a body makes of its own makes that body dearer to prove.
use std::fmt::Debug;
use std::process::Abort;

pub(crate) fn same<T: PartialEq + Debug + Drop, R: Abort>(rt: &R, found: T, expected: T) {
    assert_eq!(rt; found, expected);
}

// Two values of this line of words.
pub(crate) fn same_of<T: PartialEq + Debug + Drop, R: Abort>(
    rt: &R,
    of: &str,
    found: T,
    expected: T,
) {
    assert_eq!(rt; found, expected, "{of}");
}

// What was written, and what had to be.
pub(crate) fn same_text<R: Abort>(rt: &R, found: &[u8], wanted: &str) {
    assert_eq!(rt; found, wanted.as_bytes(), "{wanted}");
}

pub(crate) fn push<X, R: Abort>(rt: &R, list: &mut Vec<X>, item: X) {
    match list.push(item) {
        Ok(()) => {}
        Err(_) => rt.panic("memory"),
    }
}

pub(crate) fn append<R: Abort>(rt: &R, text: &mut Vec<u8>, more: &[u8]) {
    text.extend_from_slice(more).expect(rt, "memory");
}
