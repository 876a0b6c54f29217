//! The load factor of a table that is made of another.
ghost use Rattle.std.specs.Prelude.{◌≡◌, ◌≤◌, length};
ghost use Rattle.odht_tool_core.specs.Percents.{kept_percent, new_percent};

use crate::numbers::nearest_percent;
use odht_base::load::Percent;
use odht_header::header::Header;

/// The load factor of a table that is made of the table of these bytes: the one that is named, or
/// else that of the table.
pub fn new_percent(bytes: &[u8], named: Option<Percent>) -> Percent
    requires { 32 ≤ length bytes.now }
    ensures { result ≡ new_percent bytes.now named }
{
    match named {
        Some(percent) => percent,
        None => kept_percent(bytes),
    }
}

/// The percentage that the load factor of a table is nearest to, and at least 1.
pub fn kept_percent(bytes: &[u8]) -> Percent
    requires { 32 ≤ length bytes.now }
    ensures { result ≡ kept_percent bytes.now }
{
    let nearest = nearest_percent(Header::of(bytes).max_load_factor());
    Percent::new(nearest.max(1) as u8).unwrap()
}
