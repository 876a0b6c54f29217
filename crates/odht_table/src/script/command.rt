//! The lines of a script, and what they ask for.
ghost use Rattle.std.specs.Prelude.{◌≡◌, ℕ, ◌<◌, ◌^◌, SomeIff, IfSome};
ghost use Rattle.std.specs.Str.Parse.{IsNumeral, digits_value};
ghost use Rattle.odht_table.specs.Commands.{IsCommandText, IsPairText, IsWordText};
ghost use Rattle.odht_table.specs.Verbs.{IsVerbText};

use odht_tool_core::forms::Form;
use odht_tool_core::places::cut_at;
use odht_tool_core::text::Text;

/// What one line of a script asks for.
#[derive(Clone, Copy, Debug, PartialEq, Eq)]
pub enum Command {
    /// `new N P`: a fresh table for `max_item_count` items at a load factor of `percent` percent.
    New { max_item_count: usize, percent: u64 },
    /// A request of the table, which has to exist.
    OnTable(Request),
}

/// What a line asks of the table.
#[derive(Clone, Copy, Debug, PartialEq, Eq)]
pub enum Request {
    /// `put K V`: insert a pair.
    Put { key: u64, value: u32 },
    /// `get K`: look a key up.
    Get { key: u64 },
    /// `len`: print the item count.
    Len,
    /// `walk`: print all pairs.
    Walk,
    /// `hex`: print all bytes.
    Hex,
    /// `dump`: print all slots.
    Dump,
}

/// The command of a line, which is passed without its end. None where the line is no command.
///
/// Words are separated by exactly one space, so a further space is an empty word, which is no
/// command and no number.
pub fn parse(line: &[u8]) -> Option<Command>
    ensures reads { IfSome result (λ command. IsCommandText line.now command) }
    ensures misses_none { (command : Command) → IsCommandText line.now command
        → result ≡ Some command }
{
    let Some((name, numbers)) = cut_at(line, b' ') else {
        let request = parse_word(line)?;
        return Some(Command::OnTable(request));
    };
    match parse_verb(name)? {
        Verb::Make => {
            let (max_item_count, percent) = parse_two_numbers(numbers)?;
            Some(Command::New {
                max_item_count: max_item_count as usize,
                percent,
            })
        }
        Verb::Insert => {
            let (key, value) = parse_two_numbers(numbers)?;
            let value = u32::try_from(value).ok()?;
            Some(Command::OnTable(Request::Put { key, value }))
        }
        Verb::Find => {
            let key = parse_numeral(numbers)?;
            Some(Command::OnTable(Request::Get { key }))
        }
    }
}

// The first word of a command with numbers.
#[derive(Clone, Copy)]
enum Verb {
    Make,
    Insert,
    Find,
}

fn parse_verb(word: &[u8]) -> Option<Verb>
    ensures reads { IfSome result (λ verb. IsVerbText word.now verb) }
    ensures misses_none { (verb : Verb) → IsVerbText word.now verb → result ≡ Some verb }
{
    match word {
        b"new" => Some(Verb::Make),
        b"put" => Some(Verb::Insert),
        b"get" => Some(Verb::Find),
        _ => None,
    }
}

// The request of one word alone.
fn parse_word(word: &[u8]) -> Option<Request>
    ensures reads { IfSome result (λ request. IsWordText word.now request) }
    ensures misses_none { (request : Request) → IsWordText word.now request
        → result ≡ Some request }
{
    match word {
        b"len" => Some(Request::Len),
        b"walk" => Some(Request::Walk),
        b"hex" => Some(Request::Hex),
        b"dump" => Some(Request::Dump),
        _ => None,
    }
}

fn parse_two_numbers(words: &[u8]) -> Option<(u64, u64)>
    ensures reads { IfSome result (λ pair. IsPairText words.now pair.0 pair.1) }
    ensures misses_none { (m n : ℕ) → IsPairText words.now m n → result ≡ Some (m, n) }
{
    let (first, second) = cut_at(words, b' ')?;
    let first = parse_numeral(first)?;
    let second = parse_numeral(second)?;
    Some((first, second))
}

// The number that a word of digits writes. A sign is no digit.
fn parse_numeral(word: &[u8]) -> Option<u64>
    ensures { SomeIff result (IsNumeral 10 word.now × (digits_value 10 word.now < 2 ^ 64))
        (digits_value 10 word.now) }
{
    u64::parse(word, Form::Own)
}
