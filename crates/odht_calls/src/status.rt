//! The statuses that the calls return, as numbers. `include/odht.h` names them all, errors
//! included; so does docs/FORMAT.md, "Numbers for C".
ghost use Rattle.std.specs.Prelude.{◌≡◌};
ghost use Rattle.odht_calls.specs.Statuses.{status_of};

use odht::error::Error;

/// Success.
pub const OK: u32 = 0;

/// The load factor in the header is below one percent.
pub const LOAD_FACTOR_TOO_SMALL: u32 = 10;

/// The bytes for a new table are more or fewer than it needs.
pub const INIT_LENGTH: u32 = 17;

/// The allocator gives no memory, or no table is large enough.
pub(crate) const MEMORY: u32 = 19;

/// No slot count is enough, or the length in bytes does not fit `usize`.
pub const CAPACITY: u32 = 20;

/// The key is not in the table.
pub const ABSENT: u32 = 32;

/// Success, and the key had a value before.
pub const REPLACED: u32 = 33;

/// The load factor is not from 1 to 100 percent of slots.
pub const BAD_PERCENT: u32 = 34;

/// Arrays that belong together have different lengths.
pub const BAD_LENGTHS: u32 = 35;

/// An output buffer is too short for the result.
pub const TOO_SMALL: u32 = 36;

/// No list of inserts makes the table.
pub const UNMADE: u32 = 37;

/// No hash function has the number of a layout, or its keys are too short for the one that has.
pub const BAD_LAYOUT: u32 = 38;

/// The status of an error.
pub(crate) fn status_of(error: &Error) -> u32
    ensures { result ≡ status_of error.now }
{
    match error {
        // begin status_of: generated from lists/errors.txt by make generate
        Error::TooShort { .. } => 1,
        Error::WrongTag { .. } => 2,
        Error::WrongVersion { .. } => 3,
        Error::WrongSizeOf { .. } => 4,
        Error::SlotCountNotPowerOfTwo { .. } => 5,
        Error::SlotCountTooSmall { .. } => 6,
        Error::WrongLength { .. } => 7,
        Error::NonZeroEmpty { .. } => 8,
        Error::ControlMismatch { .. } => 9,
        Error::LoadFactorTooSmall { .. } => 10,
        Error::NonZeroPadding { .. } => 11,
        Error::BadFreeControl { .. } => 12,
        Error::MirrorMismatch { .. } => 13,
        Error::WrongItemCount { .. } => 14,
        Error::TooManyItems { .. } => 15,
        Error::Unreachable { .. } => 16,
        Error::InitLength { .. } => 17,
        Error::Full => 18,
        Error::Memory => 19,
        Error::Capacity => 20,
        Error::SearchTooLong { .. } => 21,
        // end status_of
    }
}
