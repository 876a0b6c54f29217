//! The byte between key and value on a line, as it is named.
ghost use Rattle.std.specs.Prelude.{◌≡◌};
ghost use Rattle.odht_tool_core.specs.PairLines.{delimiter_named, is_delimiter};

/// The byte that the word names: its own, where that is a printable character of ASCII and no
/// quote; of `\t` a tab.
pub(super) fn delimiter_named(word: &str) -> Option<u8>
    ensures { result ≡ delimiter_named word.now }
{
    match word.as_bytes() {
        [byte] if is_delimiter(*byte) => Some(*byte),
        b"\\t" => Some(b'\t'),
        _ => None,
    }
}

fn is_delimiter(byte: u8) -> bool
    ensures { result ≡ is_delimiter byte }
{
    b' ' <= byte && byte <= b'~' && byte != b'"' && byte != b'\''
}
