//! The commands and their options. Generated from lists/commands.txt by make generate.
ghost use Rattle.std.specs.Prelude.{◌≡◌, bytes_eq, find};
ghost use Rattle.odht_tool_core.specs.generated.Commands.{command_name, commands};
ghost use Rattle.odht_tool_core.specs.generated.Commands.{option_name, options_of};
ghost use Rattle.odht_tool_core.specs.Near.{is_near};

use crate::near::is_near;
use std::fmt;

/// A command.
#[derive(Clone, Copy, Debug, PartialEq, Eq)]
pub enum Topic {
    Info,
    Check,
    Count,
    Get,
    Dump,
    Keys,
    Find,
    Order,
    Diff,
    Build,
    Put,
    Delete,
    Rebuild,
    Merge,
}

/// All commands, in the order of the help text.
pub(crate) const TOPICS: [Topic; 14] = [
    Topic::Info,
    Topic::Check,
    Topic::Count,
    Topic::Get,
    Topic::Dump,
    Topic::Keys,
    Topic::Find,
    Topic::Order,
    Topic::Diff,
    Topic::Build,
    Topic::Put,
    Topic::Delete,
    Topic::Rebuild,
    Topic::Merge,
];

impl Topic {
    /// The command of this name.
    pub(crate) fn named(name: &str) -> Option<Topic>
        ensures { result ≡ find (λ topic. bytes_eq (command_name topic) name.now) commands }
    {
        TOPICS
            .iter()
            .copied()
            .find(|topic| topic.name().as_bytes() == name.as_bytes())
    }

    /// The first command whose name one slip makes of the word.
    pub(crate) fn nearest(word: &str) -> Option<Topic>
        ensures { result ≡ find (λ topic. is_near (command_name topic) word.now) commands }
    {
        TOPICS
            .iter()
            .copied()
            .find(|topic| is_near(topic.name().as_bytes(), word.as_bytes()))
    }

    /// Its name.
    pub fn name(self) -> &'static str
        ensures { result.now ≡ command_name self }
    {
        match self {
            Topic::Info => "info",
            Topic::Check => "check",
            Topic::Count => "count",
            Topic::Get => "get",
            Topic::Dump => "dump",
            Topic::Keys => "keys",
            Topic::Find => "find",
            Topic::Order => "order",
            Topic::Diff => "diff",
            Topic::Build => "build",
            Topic::Put => "put",
            Topic::Delete => "delete",
            Topic::Rebuild => "rebuild",
            Topic::Merge => "merge",
        }
    }

    /// Whether words may come after the file: more files, or keys.
    pub(crate) fn takes_words(self) -> bool {
        match self {
            Topic::Info
            | Topic::Check
            | Topic::Count
            | Topic::Get
            | Topic::Find
            | Topic::Diff
            | Topic::Put
            | Topic::Delete
            | Topic::Merge => true,
            _ => false,
        }
    }

    /// Its options.
    pub(crate) fn options(self) -> &'static [Setting]
        ensures { result.now ≡ options_of self }
    {
        match self {
            Topic::Info => &[Setting::Help, Setting::Whole, Setting::Json, Setting::At],
            Topic::Check => &[
                Setting::Help,
                Setting::Whole,
                Setting::Json,
                Setting::Hash,
                Setting::At,
            ],
            Topic::Count => &[
                Setting::Help,
                Setting::Check,
                Setting::Whole,
                Setting::Hash,
                Setting::At,
            ],
            Topic::Get => &[
                Setting::Help,
                Setting::Values,
                Setting::Json,
                Setting::Null,
                Setting::Key,
                Setting::Value,
                Setting::Whole,
                Setting::Hash,
                Setting::At,
            ],
            Topic::Dump => &[
                Setting::Help,
                Setting::Slots,
                Setting::Values,
                Setting::Json,
                Setting::Null,
                Setting::Key,
                Setting::Value,
                Setting::Whole,
                Setting::Hash,
                Setting::At,
            ],
            Topic::Keys => &[
                Setting::Help,
                Setting::Json,
                Setting::Null,
                Setting::Key,
                Setting::Hash,
                Setting::At,
            ],
            Topic::Find => &[Setting::Help, Setting::Whole, Setting::Json],
            Topic::Order => &[
                Setting::Help,
                Setting::Whole,
                Setting::Key,
                Setting::Value,
                Setting::Hash,
                Setting::At,
            ],
            Topic::Diff => &[
                Setting::Help,
                Setting::Whole,
                Setting::Key,
                Setting::Value,
                Setting::Hash,
            ],
            Topic::Build => &[
                Setting::Help,
                Setting::Key,
                Setting::Value,
                Setting::Duplicates,
                Setting::Delimiter,
                Setting::Null,
                Setting::CheckOnly,
                Setting::Hash,
                Setting::Percent,
                Setting::Capacity,
                Setting::Progress,
                Setting::BreakLinks,
                Setting::Force,
            ],
            Topic::Put => &[
                Setting::Help,
                Setting::Duplicates,
                Setting::Delimiter,
                Setting::Null,
                Setting::Key,
                Setting::Value,
                Setting::Whole,
                Setting::Hash,
                Setting::Progress,
                Setting::BreakLinks,
            ],
            Topic::Delete => &[
                Setting::Help,
                Setting::Null,
                Setting::Key,
                Setting::Whole,
                Setting::Hash,
                Setting::Progress,
                Setting::BreakLinks,
            ],
            Topic::Rebuild => &[
                Setting::Help,
                Setting::Percent,
                Setting::Whole,
                Setting::Hash,
                Setting::Progress,
                Setting::BreakLinks,
            ],
            Topic::Merge => &[
                Setting::Help,
                Setting::Duplicates,
                Setting::Key,
                Setting::Value,
                Setting::Whole,
                Setting::Hash,
                Setting::Percent,
                Setting::Progress,
                Setting::BreakLinks,
                Setting::Force,
            ],
        }
    }
}

impl fmt::Display for Topic {
    fn fmt<W: fmt::Write>(&self, f: &mut fmt::Formatter<W>) -> fmt::Result {
        f.write_str(self.name())
    }
}

/// An option of a command.
#[derive(Clone, Copy, Debug)]
pub enum Setting {
    Help,
    Slots,
    Values,
    Json,
    Null,
    Check,
    Whole,
    Progress,
    BreakLinks,
    Force,
    CheckOnly,
    At,
    Hash,
    Key,
    Value,
    Duplicates,
    Delimiter,
    Percent,
    Capacity,
}

impl Setting {
    /// The option of this name that the command has.
    pub(crate) fn named(topic: Topic, name: &str) -> Option<Setting>
        ensures { result ≡ find (λ option. bytes_eq (option_name option) name.now)
            (options_of topic) }
    {
        topic
            .options()
            .iter()
            .copied()
            .find(|option| option.name().as_bytes() == name.as_bytes())
    }

    /// The first option of the command whose name one slip makes of the word.
    pub(crate) fn nearest(topic: Topic, word: &str) -> Option<Setting>
        ensures { result ≡ find (λ option. is_near (option_name option) word.now)
            (options_of topic) }
    {
        topic.options().iter().copied().find(|option| is_near(
            option.name().as_bytes(),
            word.as_bytes(),
        ))
    }

    /// Its name.
    pub(crate) fn name(self) -> &'static str
        ensures { result.now ≡ option_name self }
    {
        match self {
            Setting::Help => "--help",
            Setting::Slots => "--slots",
            Setting::Values => "--values",
            Setting::Json => "--json",
            Setting::Null => "--null",
            Setting::Check => "--check",
            Setting::Whole => "--whole",
            Setting::Progress => "--progress",
            Setting::BreakLinks => "--break-links",
            Setting::Force => "--force",
            Setting::CheckOnly => "--check-only",
            Setting::At => "--at",
            Setting::Hash => "--hash",
            Setting::Key => "--key",
            Setting::Value => "--value",
            Setting::Duplicates => "--duplicates",
            Setting::Delimiter => "--delimiter",
            Setting::Percent => "--percent",
            Setting::Capacity => "--capacity",
        }
    }

    /// What its value is, in words, where it takes one.
    pub(crate) fn wanted(self) -> Option<&'static str> {
        match self {
            Setting::Help
            | Setting::Slots
            | Setting::Values
            | Setting::Json
            | Setting::Null
            | Setting::Check
            | Setting::Whole
            | Setting::Progress
            | Setting::BreakLinks
            | Setting::Force
            | Setting::CheckOnly => None,
            Setting::At | Setting::Capacity => Some("a number below 2^64"),
            Setting::Hash => Some("fx, unhash or xxh64"),
            Setting::Key => Some("u32, u64, i32, i64, u32be, u64be, hexN, bytes:N or text:N"),
            Setting::Value => Some(
                "u32, u64, i32, i64, u32be, u64be, none, hexN, bytes:N or text:N",
            ),
            Setting::Duplicates => Some("last, first or error"),
            Setting::Delimiter => Some("a printable character of ASCII that is no quote"),
            Setting::Percent => Some("a number from 1 to 100"),
        }
    }
}
