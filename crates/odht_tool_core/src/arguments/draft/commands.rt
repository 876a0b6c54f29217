//! Commands with options of their own, or with words that are no files.
use super::{Draft, bound_of};
use crate::any::AnyShape;
use crate::arguments::{
    BuildOptions, Command, CommandMisuse, DeleteOptions, DiffOptions, Keys, MergeOptions,
    PutOptions, Reading, RebuildOptions, is_stream,
};
use crate::forms::GivenForms;
use crate::plain::is_plain;
use crate::progress::Watch;
use odht_base::load::Percent;

impl Draft {
    /// `delete`, of which the words are keys.
    pub(super) fn delete(self) -> Result<Command, CommandMisuse> {
        if self.words.is_empty() {
            return Err(CommandMisuse::Missing("KEY"));
        }
        Ok(Command::Delete(DeleteOptions {
            keys: Keys::of_words(self.words),
            hash: self.hash,
            kinds: self.kinds,
            bound: bound_of(self.is_whole),
            breaks_links: self.allowed.breaks_links,
            has_progress: self.has_progress,
        }))
    }

    /// `put`, of which the words are keys and values by turns. None has a byte that ends a key or a
    /// line, so they are the lines of an input.
    pub(super) fn put(mut self) -> Result<Command, CommandMisuse> {
        for at in 0..self.words.len() {
            if !is_in_line(self.words[at].as_str()) {
                return Err(CommandMisuse::NotInLine(self.words.remove(at)));
            }
        }
        if self.words.len() % 2 == 1 {
            let last = self.words.len() - 1;
            return Err(CommandMisuse::KeyAlone(self.words.remove(last)));
        }
        let delimiter = if self.words.is_empty() {
            self.delimiter
        } else {
            b'\t'
        };
        let options = PutOptions {
            hash: self.hash,
            kinds: self.kinds,
            duplicates: self.duplicates,
            delimiter,
            bound: bound_of(self.is_whole),
            breaks_links: self.allowed.breaks_links,
            watch: Watch::of(self.has_progress),
        };
        Ok(Command::Put {
            options,
            words: self.words,
        })
    }

    /// The options of `rebuild`.
    pub(super) fn rebuilding(&self) -> RebuildOptions {
        RebuildOptions {
            percent: self.percent,
            hash: self.hash,
            bound: bound_of(self.is_whole),
            breaks_links: self.allowed.breaks_links,
            has_progress: self.has_progress,
        }
    }

    /// `get`, of which the words are keys.
    pub(super) fn get(self, is_stream: bool) -> Result<Command, CommandMisuse> {
        if self.words.is_empty() {
            return Err(CommandMisuse::Missing("KEY"));
        }
        let keys = Keys::of_words(self.words);
        if is_stream && keys.are_lines() {
            return Err(CommandMisuse::BothInput);
        }
        Ok(Command::Read {
            others: Vec::new(self.alloc),
            at: self.at,
            reading: Reading::Get {
                hash: self.hash,
                kinds: self.kinds,
                bound: bound_of(self.is_whole),
                keys,
                is_values: self.is_values,
                is_json: self.is_json,
            },
        })
    }

    /// `diff`, of which the one word is the other file.
    pub(super) fn diff(mut self, is_stream_first: bool) -> Result<Command, CommandMisuse> {
        if self.words.is_empty() {
            return Err(CommandMisuse::Missing("OTHER"));
        }
        let other = self.words.remove(0);
        if !self.words.is_empty() {
            return Err(CommandMisuse::ExtraWord(self.words.remove(0)));
        }
        if is_stream_first && is_stream(other.as_str()) {
            return Err(CommandMisuse::TwiceInput);
        }
        Ok(Command::Diff(DiffOptions {
            other,
            hash: self.hash,
            kinds: self.kinds,
            bound: bound_of(self.is_whole),
        }))
    }

    /// `merge`, of which the words are the files whose pairs it takes. One of them may be standard
    /// input.
    pub(super) fn merge(mut self) -> Result<Command, CommandMisuse> {
        if self.words.is_empty() {
            return Err(CommandMisuse::Missing("INPUT"));
        }
        if self.has_second_stream(false) {
            return Err(CommandMisuse::TwiceInput);
        }
        Ok(Command::Merge(MergeOptions {
            first: self.words.remove(0),
            others: self.words,
            duplicates: self.duplicates,
            hash: self.hash,
            kinds: self.kinds,
            percent: self.percent,
            bound: bound_of(self.is_whole),
            allowed: self.allowed,
            has_progress: self.has_progress,
        }))
    }

    /// `build`, which needs the types of keys and values.
    pub(super) fn build(self) -> Result<Command, CommandMisuse> {
        let Some(key) = self.kinds.key else {
            return Err(CommandMisuse::Missing("--key"));
        };
        let Some(value) = self.kinds.value else {
            return Err(CommandMisuse::Missing("--value"));
        };
        let hash = self.hash.or(self.kinds.hash);
        let Some(shape) = AnyShape::of_kinds(key, value, hash) else {
            return Err(CommandMisuse::NoShape);
        };
        Ok(Command::Build(BuildOptions {
            shape,
            forms: GivenForms {
                key: key.form,
                value: value.form,
            },
            duplicates: self.duplicates,
            delimiter: self.delimiter,
            is_check: self.is_check,
            capacity: self.capacity,
            percent: self.percent.unwrap_or(Percent::new(87).unwrap()),
            allowed: self.allowed,
            watch: Watch::of(self.has_progress),
        }))
    }
}

// Whether a word has no byte that ends a key or a line.
fn is_in_line(word: &str) -> bool {
    word.as_bytes().iter().all(|byte| is_plain(*byte))
}
