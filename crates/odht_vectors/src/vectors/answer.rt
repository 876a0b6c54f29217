//! The answer to a case: words, and for some calls the bytes of a table after them.
use super::Fault;
use super::words::Words;
use odht::bytes::ByteArray;
use odht::error::Error;
use std::alloc::Global;
use std::fmt::{self, Display, Write};

/// The answer to a case, to which a call adds its words.
#[derive(Drop)]
pub struct Answer {
    alloc: Global,
    text: String,
    table: Option<Vec<u8>>,
}

impl Answer {
    /// No words so far.
    pub fn new(alloc: Global) -> Answer {
        Answer {
            alloc,
            text: String::new(alloc),
            table: None,
        }
    }

    /// Adds a word.
    pub fn word(&mut self, word: &impl Display) -> Result<(), Fault> {
        let space = if self.text.is_empty() { "" } else { " " };
        write!(self.text, "{space}{word}").or(Err(Fault::Memory))
    }

    /// Adds a number, or `none`.
    pub fn number(&mut self, number: Option<usize>) -> Result<(), Fault> {
        match number {
            Some(number) => self.word(&number),
            None => self.word(&"none"),
        }
    }

    /// Adds numbers.
    pub fn numbers(&mut self, numbers: &[usize]) -> Result<(), Fault> {
        for number in numbers {
            self.word(number)?;
        }
        Ok(())
    }

    /// Adds `none` where there is no word so far.
    pub fn or_none(&mut self) -> Result<(), Fault> {
        if self.text.is_empty() {
            return self.word(&"none");
        }
        Ok(())
    }

    /// Adds the bytes of a value, or `none`.
    pub fn value<V: ByteArray>(&mut self, value: Option<V>) -> Result<(), Fault> {
        match value {
            Some(value) => self.word(&Hex(value.as_slice())),
            None => self.word(&"none"),
        }
    }

    /// Adds a key and a value as one word.
    pub fn pair<K: ByteArray, V: ByteArray>(&mut self, key: &K, value: &V) -> Result<(), Fault> {
        self.word(&format_args!("{}:{}", Hex(key.as_slice()), Hex(value.as_slice())))
    }

    /// Adds the result of an insert: the former value, `none`, `full`, or another error's text.
    pub fn former<V: ByteArray>(&mut self, former: Result<Option<V>, Error>) -> Result<(), Fault> {
        match former {
            Ok(value) => self.value(value),
            Err(Error::Full) => self.word(&"full"),
            Err(refused) => self.word(&refused),
        }
    }

    /// Adds the text of an error, or `ok`.
    pub fn refusal(&mut self, checked: Result<(), Error>) -> Result<(), Fault> {
        match checked {
            Ok(()) => self.word(&"ok"),
            Err(refused) => self.word(&refused),
        }
    }

    /// Adds how many items of a list were accepted and what stopped it, and ends with the bytes of
    /// the table.
    pub fn list(
        &mut self,
        (accepted, refused): (usize, Result<(), Error>),
        bytes: &[u8],
    ) -> Result<(), Fault> {
        self.word(&accepted)?;
        self.refusal(refused)?;
        self.table(bytes)
    }

    /// Ends with the bytes of a table.
    pub fn table(&mut self, bytes: &[u8]) -> Result<(), Fault> {
        self.table = Some(bytes.to_vec(self.alloc)?);
        Ok(())
    }

    /// Whether the words are those of another answer.
    pub fn has_words_of(&self, other: &Answer) -> bool {
        self.text.as_str() == other.text.as_str()
    }

    /// Whether the words of a line say the same.
    pub fn is_as(&self, words: &Words<'_>, expected: &str) -> Result<bool, Fault> {
        let Some(table) = &self.table else {
            return Ok(self.text.as_str() == expected);
        };
        let (text, bytes) = expected.rsplit_once(' ').unwrap_or(("", expected));
        let bytes = words.bytes(bytes)?;
        Ok(self.text.as_str() == text && table.as_slice() == bytes.as_slice())
    }
}

// As a line writes it.
impl Display for Answer {
    fn fmt<W: Write>(&self, f: &mut fmt::Formatter<W>) -> fmt::Result {
        let text = self.text.as_str();
        match &self.table {
            None => write!(f, "{text}"),
            Some(table) if text.is_empty() => write!(f, "{}", Hex(table.as_slice())),
            Some(table) => write!(f, "{text} {}", Hex(table.as_slice())),
        }
    }
}

/// Bytes as they are written: in hexadecimal digits, and `-` for no bytes.
#[derive(Clone, Copy)]
pub struct Hex<'a>(pub &'a [u8]);

impl<'a> Display for Hex<'a> {
    fn fmt<W: Write>(&self, f: &mut fmt::Formatter<W>) -> fmt::Result {
        let Hex(bytes) = self;
        if bytes.is_empty() {
            return write!(f, "-");
        }
        for byte in *bytes {
            write!(f, "{byte:02x}")?;
        }
        Ok(())
    }
}
