//! Lines of words.
use mon_words::{Words, WordsFault, read_words};
use std::alloc::{AllocError, Global};

/// The words of a line, divided by one space each, so that a space at its end stands before an empty word.
pub(crate) fn words_in(alloc: Global, line: &str) -> Result<Vec<String>, AllocError> {
    let mut words = Vec::new(alloc);
    for word in line.split(' ') {
        words.push(String::from_str(alloc, word)?)?;
    }
    Ok(words)
}

/// Reads a line, where all commands are known.
pub(crate) fn read(alloc: Global, line: &str) -> Result<Result<Words, WordsFault>, AllocError> {
    let words = words_in(alloc, line)?;
    Ok(read_words(alloc, &words, true))
}
