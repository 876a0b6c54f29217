//! Words that one slip makes of each other.
ghost use Rattle.std.specs.Prelude.{◌≡◌};
ghost use Rattle.odht_tool_core.specs.Near.{is_near, is_replaced, is_slip, is_swapped, is_without};

/// Whether one slip makes one word of the other: a byte left out or too many, another byte in the
/// place of one, or two neighbours that have changed places.
pub fn is_near(one: &[u8], other: &[u8]) -> bool
    ensures { result ≡ is_near one.now other.now }
{
    for at in 0..one.len() + 1 {
        if is_slip(one, other, at) {
            return true;
        }
    }
    false
}

// Whether a slip at this byte makes one word of the other.
fn is_slip(one: &[u8], other: &[u8], at: usize) -> bool
    ensures { result ≡ is_slip one.now other.now at }
{
    is_without(at, one, other)
        || is_without(at, other, one)
        || is_replaced(at, one, other)
        || is_swapped(at, one, other)
}

// Whether one word without this byte is the other.
fn is_without(at: usize, one: &[u8], other: &[u8]) -> bool
    ensures { result ≡ is_without at one.now other.now }
{
    at < one.len() && at <= other.len() && one[..at] == other[..at] && one[at + 1..] == other[at..]
}

// Whether both are the same but for this byte.
fn is_replaced(at: usize, one: &[u8], other: &[u8]) -> bool
    ensures { result ≡ is_replaced at one.now other.now }
{
    at < one.len()
        && at < other.len()
        && one[..at] == other[..at]
        && one[at + 1..] == other[at + 1..]
}

// Whether both are the same but for this byte and the next one, which have changed places.
fn is_swapped(at: usize, one: &[u8], other: &[u8]) -> bool
    ensures { result ≡ is_swapped at one.now other.now }
{
    at < one.len()
        && at < other.len()
        && at + 1 < one.len()
        && at + 1 < other.len()
        && one[..at] == other[..at]
        && one[at] == other[at + 1]
        && one[at + 1] == other[at]
        && one[at + 2..] == other[at + 2..]
}
