//! Words of a line: numbers, percentages, bytes, arrays and pairs.
ghost use Rattle.std.specs.Prelude.{◌≤◌, IfOk};

use super::Fault;
use odht::bytes::ByteArray;
use std::alloc::Global;

/// Reads the words of a file, in which some bytes have names.
#[derive(Clone, Copy)]
pub struct Words<'a> {
    pub alloc: Global,
    pub names: &'a [(String, Vec<u8>)],
}

/// A call and its arguments, and what reads these.
#[derive(Clone, Copy)]
pub struct Case<'a> {
    pub words: Words<'a>,
    pub call: &'a str,
    pub args: &'a [&'a str],
}

impl<'a> Case<'a> {
    /// The call with other arguments.
    pub fn with(&self, args: &'a [&'a str]) -> Case<'a> {
        Case { args, ..*self }
    }
}

/// The number that a word writes in decimal digits.
pub fn number(word: &str) -> Result<usize, Fault> {
    if word.starts_with('+') {
        return Err(Fault::Unread);
    }
    word.parse().ok().ok_or(Fault::Unread)
}

/// A percentage up to 100.
pub fn percent(word: &str) -> Result<u8, Fault>
    ensures { IfOk result (λ percent. percent ≤ 100) }
{
    match number(word)? {
        percent if percent <= 100 => Ok(percent as u8),
        _ => Err(Fault::Unread),
    }
}

impl<'a> Words<'a> {
    /// The bytes that a word writes: pieces between commas. The first is the name of bytes, or
    /// hexadecimal digits, or `-` for no bytes. Each further one changes them: `AT:HEX` writes
    /// these bytes from offset `AT` on, `..N` keeps the first `N`, and `+HEX` appends these.
    pub fn bytes(&self, word: &str) -> Result<Vec<u8>, Fault> {
        let (first, changes) = match word.split_once(',') {
            None => return self.named(word),
            Some(pieces) => pieces,
        };
        let mut bytes = self.named(first)?;
        for piece in changes.split(',') {
            self.change(&mut bytes, piece)?;
        }
        Ok(bytes)
    }

    // The bytes of a name, as the last line that defines it says, or of digits.
    fn named(&self, word: &str) -> Result<Vec<u8>, Fault> {
        for (name, bytes) in self.names.iter().rev() {
            if name.as_str() == word {
                return Ok(bytes.as_slice().to_vec(self.alloc)?);
            }
        }
        hex(self.alloc, word)
    }

    fn change(&self, bytes: &mut Vec<u8>, piece: &str) -> Result<(), Fault> {
        if let Some(len) = piece.strip_prefix("..") {
            bytes.truncate(number(len)?);
            return Ok(());
        }
        if let Some(digits) = piece.strip_prefix("+") {
            return append(bytes, digits);
        }
        let (at, digits) = piece.split_once(':').ok_or(Fault::Unread)?;
        write_at(
            bytes.as_mut_slice(),
            number(at)?,
            hex(self.alloc, digits)?.as_slice(),
        )
    }

    /// The array that a word writes.
    pub fn array<A: ByteArray>(&self, word: &str) -> Result<A, Fault> {
        array(self.bytes(word)?.as_slice())
    }

    /// A key and a value, `KEY:VALUE`.
    pub fn pair<K: ByteArray, V: ByteArray>(&self, word: &str) -> Result<(K, V), Fault> {
        let (key, value) = word.split_once(':').ok_or(Fault::Unread)?;
        Ok((self.array(key)?, self.array(value)?))
    }
}

fn array<A: ByteArray>(bytes: &[u8]) -> Result<A, Fault> {
    if bytes.len() != A::LEN {
        return Err(Fault::Unread);
    }
    Ok(A::from_slice(bytes))
}

// The bytes that hexadecimal digits write, two digits a byte. `-` means no bytes.
fn hex(alloc: Global, digits: &str) -> Result<Vec<u8>, Fault> {
    let mut bytes = Vec::new(alloc);
    append(&mut bytes, digits)?;
    Ok(bytes)
}

fn append(bytes: &mut Vec<u8>, digits: &str) -> Result<(), Fault> {
    if digits == "-" {
        return Ok(());
    }
    let (pairs, rest) = digits.as_bytes().as_chunks::<2>();
    if pairs.is_empty() || !rest.is_empty() {
        return Err(Fault::Unread);
    }
    for [high, low] in pairs {
        bytes.push(digit(*high)? << 4 | digit(*low)?)?;
    }
    Ok(())
}

fn digit(digit: u8) -> Result<u8, Fault> {
    match digit {
        b'0'..=b'9' => Ok(digit.wrapping_sub(b'0')),
        b'a'..=b'f' => Ok(digit.wrapping_sub(b'a' - 10)),
        _ => Err(Fault::Unread),
    }
}

fn write_at(bytes: &mut [u8], at: usize, piece: &[u8]) -> Result<(), Fault> {
    let place = bytes.get_mut(at..).ok_or(Fault::Unread)?;
    if place.len() < piece.len() {
        return Err(Fault::Unread);
    }
    place[..piece.len()].copy_from_slice(piece);
    Ok(())
}
