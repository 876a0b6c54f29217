//! Bytes as plain text, without NUL, tab and line end: they are stored with zeros behind the text.
ghost use Rattle.std.specs.Prelude.{◌≡◌, ◌↔◌, ◌-◌, length, replicate};
ghost use Rattle.std.specs.Prelude.{IfSome, IsSome, IsTrue, OnOk};
ghost use Rattle.std.specs.List.{AllPass, suffix_len};
ghost use Rattle.std.specs.Io.KnownBytes.{Appends};
ghost use Rattle.odht_tool_core.specs.PlainTexts.{IsPlainText, PadsText, is_plain, is_zero};
ghost use Rattle.odht_tool_core.specs.PlainTexts.{plain_text};

use std::io::{self, Write};

/// The bytes of the word, and zeros behind them. None where it is longer, or has a byte that no
/// plain text has.
pub(crate) fn parse_plain<const N: usize>(word: &[u8]) -> Option<[u8; N]>
    ensures value { IfSome result (PadsText word.now) }
    ensures some { IsSome result ↔ IsPlainText N word.now }
{
    let mut bytes = [0; N];
    if read_plain(word, &mut bytes) {
        Some(bytes)
    } else {
        None
    }
}

/// Whether the word is a plain text of at most that many bytes as there are in `bytes`, all zeros;
/// these then become the text and zeros behind it.
pub(crate) fn read_plain(word: &[u8], bytes: &mut [u8]) -> bool
    requires { bytes.old ≡ replicate (length bytes.old) 0 }
    ensures value { IsTrue result → PadsText word.now bytes.new }
    ensures word { IsTrue result ↔ IsPlainText (length bytes.old) word.now }
    ensures len { length bytes.new ≡ length bytes.old }
{
    if word.len() > bytes.len() || !are_plain(word) {
        return false;
    }
    bytes[..word.len()].copy_from_slice(word);
    true
}

/// Whether each byte may be in a plain text.
pub(crate) fn are_plain(word: &[u8]) -> bool
    ensures { IsTrue result ↔ AllPass is_plain word.now }
{
    word.iter().all(|byte| is_plain(*byte))
}

/// Whether a byte may be in a plain text.
pub(crate) fn is_plain(byte: u8) -> bool
    ensures { result ≡ is_plain byte }
{
    byte != 0 && byte != b'\t' && byte != b'\n' && byte != b'\r'
}

/// Writes the bytes without the zeros at their end, whatever they are.
pub(crate) fn write_plain<W: Write>(bytes: &[u8], output: &mut W) -> io::Result<()>
    ensures { OnOk result (Appends (W.contents output.old) (W.contents output.new)
        (plain_text bytes.now)) }
{
    output.write_all(&bytes[..text_len(bytes)])
}

/// The bytes without the zeros at their end.
pub(crate) fn plain_of(bytes: &[u8]) -> &[u8]
    ensures { result.now ≡ plain_text bytes.now }
{
    &bytes[..text_len(bytes)]
}

// How many bytes there are without the zeros at the end.
fn text_len(bytes: &[u8]) -> usize
    ensures { result ≡ length bytes.now - suffix_len is_zero bytes.now }
{
    let mut count = bytes.len();
    while count > 0 && bytes[count - 1] == 0 {
        count -= 1;
    }
    count
}
