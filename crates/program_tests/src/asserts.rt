//! What a test says of a value, in functions of their own: an `assert_eq!` makes the function that it stands in longer
//! to prove, by more the longer that is.
use std::alloc::Global;
use std::fmt;
use std::process::Abort;

/// What was found is what is wanted.
pub(crate) fn is<R: Abort, T: PartialEq + fmt::Debug + Drop>(rt: &R, found: T, want: T) {
    assert_eq!(rt; found, want);
}

/// The same of one case of several, which is shown where it fails.
pub(crate) fn is_at<R: Abort, C: fmt::Debug, T: PartialEq + fmt::Debug + Drop>(
    rt: &R,
    case: &C,
    found: T,
    want: T,
) {
    assert_eq!(rt; found, want, "at {case:?}");
}

/// The text that was found is the one that is wanted.
pub(crate) fn is_text<R: Abort>(rt: &R, found: &[u8], want: &[u8]) {
    assert_eq!(rt; found, want);
}

/// The same of one case of several.
pub(crate) fn is_text_at<R: Abort, C: fmt::Debug>(rt: &R, case: &C, found: &[u8], want: &[u8]) {
    assert_eq!(rt; found, want, "at {case:?}");
}

/// The pairs that were found are those that are wanted.
pub(crate) fn are_pairs<R: Abort>(rt: &R, found: &[(u64, u64)], want: &[(u64, u64)]) {
    assert_eq!(rt; found, want);
}

/// What is said holds.
pub(crate) fn holds<R: Abort>(rt: &R, said: bool) {
    assert!(rt; said);
}

/// A byte many times.
pub(crate) fn times<R: Abort>(rt: &R, alloc: Global, byte: u8, count: usize) -> Vec<u8> {
    vec![in alloc; byte; count].expect(rt, "no memory")
}
