//! What a test says of a value, in functions of their own: an `assert_eq!` makes the function that it stands in longer
//! to prove, by more the longer that is.
use std::fmt;
use std::process::Abort;

/// What was found is what is wanted.
pub(crate) fn is<R: Abort, T: PartialEq + fmt::Debug + Drop>(rt: &R, found: T, want: T) {
    assert_eq!(rt; found, want);
}

/// What was said is true.
pub(crate) fn holds<R: Abort>(rt: &R, said: bool) {
    assert!(rt; said);
}
