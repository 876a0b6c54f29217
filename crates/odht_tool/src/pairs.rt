//! The pairs that `put` has as words.
use odht_tool_core::arguments::{Command, Misuse, Request};
use odht_tool_core::failure::Failure;
use std::alloc::{AllocError, Global};

/// A line of each pair that is given as words: the key, a tab and the value. No byte of these ends
/// one of them.
pub fn lines_of_words(
    alloc: Global,
    request: &Result<Request, Misuse>,
) -> Result<Vec<u8>, AllocError> {
    let mut lines = Vec::new(alloc);
    if let Ok(
        Request::Run {
            command: Command::Put { words, .. },
            ..
        },
    ) = request
    {
        let mut end = b'\t';
        for word in words {
            lines.extend_from_slice(word.as_bytes())?;
            lines.push(end)?;
            end = if end == b'\t' { b'\n' } else { b'\t' };
        }
    }
    Ok(lines)
}

/// The failure of a pair of words, by that of its line.
pub fn of_words(alloc: Global, failure: Failure) -> Failure {
    let Failure::Misread(message) = failure else {
        return failure;
    };
    let Some(told) = message.as_str().strip_prefix("standard input, line ") else {
        return Failure::Misread(message);
    };
    match format!(in alloc; "pair {told}") {
        Ok(message) => Failure::Misread(message),
        Err(_) => Failure::Memory,
    }
}
