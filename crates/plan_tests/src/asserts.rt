use std::alloc::{AllocError, Global};
use std::process::Abort;

pub(crate) fn is<R: Abort>(rt: &R, found: usize, want: usize) {
    assert_eq!(rt; found, want);
}

pub(crate) fn is_text_at<R: Abort>(rt: &R, found: &str, want: &str, at: &str) {
    assert_eq!(rt; found, want, "at {at}");
}

/// The words of a text, each ended by `;`.
pub(crate) fn words_in(alloc: Global, text: &str) -> Result<Vec<String>, AllocError> {
    let mut list = Vec::new(alloc);
    for word in text.split_inclusive(';') {
        list.push(String::from_str(alloc, word.strip_suffix(';').unwrap_or(word))?)?;
    }
    Ok(list)
}
