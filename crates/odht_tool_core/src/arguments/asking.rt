//! The words that ask for a text of the program where a command may stand.
ghost use Rattle.std.specs.Prelude.{◌≡◌, find};
ghost use Rattle.odht_tool_core.specs.Asking.{asking_name, asking_words, meant};
ghost use Rattle.odht_tool_core.specs.Near.{is_near};

use crate::near::is_near;

/// A word that asks for a text of the program; or `version`, which somebody takes for one.
#[derive(Clone, Copy)]
pub(super) enum Asking {
    Help,
    LongHelp,
    LongVersion,
    Version,
}

const ASKING: [Asking; 4] = [
    Asking::Help,
    Asking::LongHelp,
    Asking::LongVersion,
    Asking::Version,
];

impl Asking {
    /// The first of these that one slip makes of the word.
    pub(super) fn nearest(word: &str) -> Option<Asking>
        ensures { result ≡ find (λ asking. is_near (asking_name asking) word.now) asking_words }
    {
        ASKING.iter().copied().find(|asking| is_near(asking.name().as_bytes(), word.as_bytes()))
    }

    // The word.
    fn name(self) -> &'static str
        ensures { result.now ≡ asking_name self }
    {
        match self {
            Asking::Help => "help",
            Asking::LongHelp => "--help",
            Asking::LongVersion => "--version",
            Asking::Version => "version",
        }
    }

    /// The word that the program takes.
    pub(super) fn meant(self) -> &'static str
        ensures { result.now ≡ meant self }
    {
        match self {
            Asking::Version => "--version",
            _ => self.name(),
        }
    }
}
