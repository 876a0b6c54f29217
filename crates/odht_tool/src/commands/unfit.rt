//! Large files whose first slots fit no hash function: a command that needs one rejects them before
//! it reads them whole.
use odht_tool_core::arguments::{Command, Keys, MergeOptions, Reading};
use odht_tool_core::failure::Failure;
use odht_tool_core::forms::Kinds;
use odht_tool_core::shapes::Hash;
use odht_tool_core::status::Status;
use odht_tool_reads::positions::check_hash;
use odht_tool_tables::files::finish;
use std::io::Write;
use std::os::unix::fs::FileExt;
use std::rt::Files;

/// The types of a file of which nothing is said.
const NO_KINDS: Kinds = Kinds {
    key: None,
    value: None,
    hash: None,
};

/// Fails if a command that writes reads this large file, and it fits no hash function. Reports it
/// if that is so of an input of `merge`, and returns the status.
pub(super) fn check_command<R: Files + AllocGlobal, E: Write>(
    rt: &R,
    file: &str,
    command: &Command,
    errors: &mut E,
) -> Result<Option<Status>, Failure>
where
    R::File: FileExt,
{
    match command {
        Command::Put { options, .. } => check_hash(rt, file, None, options.hash, options.kinds)?,
        Command::Delete(options) => check_hash(rt, file, None, options.hash, options.kinds)?,
        Command::Rebuild(_) => check_hash(rt, file, None, None, NO_KINDS)?,
        Command::Merge(options) => return Ok(check_inputs(rt, options, errors)),
        Command::Read { .. } | Command::Build(_) | Command::Diff(_) => {}
    }
    Ok(None)
}

// Reports the first large input of `merge` that fits no hash function, and returns the status.
fn check_inputs<R: Files + AllocGlobal, E: Write>(
    rt: &R,
    options: &MergeOptions,
    errors: &mut E,
) -> Option<Status>
where
    R::File: FileExt,
{
    let first = options.first.as_str();
    if let Err(failure) = check_hash(rt, first, None, options.hash, options.kinds) {
        return Some(finish(first, Err(failure), errors));
    }
    for other in options.others.as_slice() {
        let other = other.as_str();
        if let Err(failure) = check_hash(rt, other, None, options.hash, NO_KINDS) {
            return Some(finish(other, Err(failure), errors));
        }
    }
    None
}

/// Fails if a command that only reads needs a hash function, and the large file fits none.
pub(super) fn check_reading<R: Files + AllocGlobal>(
    rt: &R,
    file: &str,
    at: Option<usize>,
    reading: &Reading,
) -> Result<(), Failure>
where
    R::File: FileExt,
{
    match reading {
        Reading::Dump { hash, kinds, .. }
        | Reading::Keys { hash, kinds, .. }
        | Reading::Order { hash, kinds, .. }
        | Reading::Get {
            hash,
            kinds,
            keys: Keys::Lines,
            ..
        } => check_hash(rt, file, at, *hash, *kinds),
        Reading::Count {
            hash,
            is_checked: true,
            ..
        } => check_hash(rt, file, at, *hash, NO_KINDS),
        _ => Ok(()),
    }
}
