//! The calls that open or check bytes and tell where the first error is, for lengths that are types
//! or numbers.
ghost use Rattle.std.specs.Prelude.{◌≡◌, Some};
ghost use Rattle.odht_raw.specs.Words.{check_refusal_by, format_of, view_refusal};
ghost use Rattle.odht_raw.specs.PartLengths.{ArePairLengths};
ghost use Rattle.odht_calls.specs.Places.{slot_of, PlaceAnswers};

use crate::read::whole;
use crate::status::{OK, status_of};
use odht::error::Error;
use odht::hash::HashFn;
use odht::layout::Lengths;
use odht::memory_layout::check_opening_in;

/// What is written for no slot: where there is no error, and where the error names none.
pub const NO_SLOT: usize = usize::MAX;

// The slot that an error names, the index of a mirror byte, or the home of searches that are too
// long; else NO_SLOT.
fn slot_of(error: &Error) -> usize
    ensures { result ≡ slot_of error.now }
{
    match *error {
        // begin slot_of: generated from lists/errors.txt by make generate
        Error::NonZeroEmpty { slot }
        | Error::BadFreeControl { slot, .. }
        | Error::ControlMismatch { slot, .. }
        | Error::Unreachable { slot } => slot,
        Error::MirrorMismatch { index } => index,
        Error::SearchTooLong { home, .. } => home,
        // end slot_of
        _ => NO_SLOT,
    }
}

// Writes to `slot` where an error is. Returns the error's number.
fn refused_at(error: &Error, slot: &mut usize) -> u32
    ensures { PlaceAnswers (Some error.now) result slot.new }
{
    *slot = slot_of(error);
    status_of(error)
}

/// OK where the header, the length and the first ten slots are accepted, else the number of the
/// first error; and writes to `slot` where that is: the slot of `NonZeroEmpty` and
/// `ControlMismatch`, and NO_SLOT of all other errors and with OK.
#[inline(always)]
pub fn open_at<L: Lengths, H: HashFn>(lengths: L, bytes: &[u8], slot: &mut usize) -> u32
    requires { ArePairLengths H.MIN_LEN (L.key_len lengths) (L.value_len lengths) }
    ensures { let F = format_of (L.key_len lengths) (L.value_len lengths) H.hash
        in PlaceAnswers (view_refusal F bytes.now) result slot.new }
{
    match check_opening_in::<L, H>(bytes, lengths) {
        Ok(()) => {
            *slot = NO_SLOT;
            OK
        }
        Err(refused) => refused_at(&refused, slot),
    }
}

/// What [`check`](crate::read::check) returns; and writes to `slot` where the first error is: the
/// slot that the error names, the index of the mirror's byte, of `SearchTooLong` the slot where the
/// searches begin, or NO_SLOT of all other errors and with OK.
#[inline(always)]
pub fn check_at<L: Lengths, H: HashFn>(
    lengths: L,
    bytes: &[u8],
    groups: Option<usize>,
    slot: &mut usize,
) -> u32
    requires { ArePairLengths H.MIN_LEN (L.key_len lengths) (L.value_len lengths) }
    ensures { let F = format_of (L.key_len lengths) (L.value_len lengths) H.hash
        in PlaceAnswers (check_refusal_by F groups bytes.now) result slot.new }
{
    match whole::<L, H>(lengths, bytes, groups) {
        Ok(()) => {
            *slot = NO_SLOT;
            OK
        }
        Err(refused) => refused_at(&refused, slot),
    }
}
