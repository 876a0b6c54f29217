//! The bound of searches that `get` and `dump --slots` test before they search.
ghost use Rattle.std.specs.Prelude.{◌≡◌};
ghost use Rattle.odht_header.specs.Refusals.{checked};
ghost use Rattle.odht_tool_reads.specs.Bounds.{bound_refusal};

use odht::error::Error;
use odht_tool_core::stored::StoredTable;

/// The error of control bytes by which a search may read more groups than the bound. Where header
/// or length do not fit, none: opening tells what is wrong.
pub fn check_bound(bytes: &[u8], bound: Option<usize>) -> Result<(), Error>
    ensures { result ≡ checked (bound_refusal bytes.now bound) }
{
    let Ok(table) = StoredTable::open(bytes) else {
        return Ok(());
    };
    match table.longer_refusal(bound) {
        Some(error) => Err(error),
        None => Ok(()),
    }
}
