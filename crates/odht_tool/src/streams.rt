//! Standard input and standard output, whose lines may end in NUL. The commands read and write `\n`
//! instead of NUL, and NUL instead of `\n`.
use std::io::{self, Read, Write};

/// How many bytes are changed and written at once.
const PART: usize = 4096;

/// A reader of lines, or given lines instead.
#[derive(Drop)]
pub struct Source<'a, R: Drop> {
    pub reader: R,
    pub given: &'a [u8],
    pub is_given: bool,
    /// Whether the lines of the reader end in NUL.
    pub has_null: bool,
}

impl<R: Read + Drop> Read for Source<'_, R> {
    fn read(&mut self, buf: &mut [u8]) -> io::Result<usize> {
        if self.is_given {
            return self.given.read(buf);
        }
        let count = self.reader.read(buf)?;
        if self.has_null {
            for at in 0..count {
                buf[at] = read_byte(buf[at]);
            }
        }
        Ok(count)
    }
}

// What a byte is read as. A carriage return is no part of a line's end, and as little as NUL a part
// of a text.
fn read_byte(byte: u8) -> u8 {
    match byte {
        0 => b'\n',
        b'\n' | b'\r' => 0,
        _ => byte,
    }
}

/// A writer of lines.
#[derive(Drop)]
pub struct Sink<W: Drop> {
    pub writer: W,
    /// Whether the lines end in NUL.
    pub has_null: bool,
}

impl<W: Write + Drop> Write for Sink<W> {
    fn write(&mut self, buf: &[u8]) -> io::Result<usize> {
        if !self.has_null {
            return self.writer.write(buf);
        }
        let mut part = [0; PART];
        let count = buf.len().min(PART);
        for at in 0..count {
            part[at] = written_byte(buf[at]);
        }
        self.writer.write(&part[..count])
    }

    fn flush(&mut self) -> io::Result<()> {
        self.writer.flush()
    }
}

// What a byte is written as.
fn written_byte(byte: u8) -> u8 {
    match byte {
        0 => b'\n',
        b'\n' => 0,
        _ => byte,
    }
}
