//! How many items are found by reading one group, two groups, and so on.
ghost use Rattle.std.specs.Prelude.{◌≡◌, ◌≤◌, ◌<◌, ◌^◌, ℕ, List, [], ◌∷◌, ◌++◌, IfOk};
ghost use Rattle.std.specs.Prelude.{OnOk, length};
ghost use Rattle.std.specs.Io.KnownBytes.{Appends};
ghost use Rattle.odht_tool_core.specs.InfoNumbers.{IsHistogram, largest};
ghost use Rattle.odht_tool_core.specs.InfoTexts.{bar, longer_mark, tally_line, tallies_text};
ghost use Rattle.odht_tool_core.specs.InfoTexts.{count_item, counts_array, counts_text};

use std::alloc::{AllocError, Global};
use std::io::{self, Write};

/// How many counts there are. The last is that of all larger numbers of groups too.
const MOST: usize = 64;

/// How many `#` the longest bar has.
const WIDTH: u128 = 40;

/// For each number of groups from 1 on, how many items are found by reading that many.
#[derive(Drop)]
pub struct Histogram {
    counts: Vec<usize>,
    /// The largest number of groups that was counted.
    pub longest: usize,
}

impl Histogram {
    /// A histogram without items.
    pub fn new(alloc: Global) -> Result<Self, AllocError>
        ensures { IfOk result (IsHistogram []) }
    {
        Ok(Histogram {
            counts: vec![in alloc; 0; MOST]?,
            longest: 0,
        })
    }

    /// Counts an item that is found by reading that many groups, at least one.
    pub fn add(&mut self, groups: usize)
        requires positive { 1 ≤ groups }
        requires all { length self.old.counts.items ≡ 64 }
        ensures { (xs : List ℕ)
            → length xs < 2 ^ 63
            → IsHistogram xs self.old
            → IsHistogram (xs ++ groups ∷ []) self.new }
    {
        self.longest = self.longest.max(groups);
        let index = groups.min(MOST) - 1;
        self.counts[index] = self.counts[index].saturating_add(1);
    }

    /// For each number of groups from 1 on the count. The last is that of all larger numbers too.
    pub fn counts(&self) -> &[usize]
        ensures { result.now ≡ self.now.counts.items }
    {
        self.counts.as_slice()
    }
}

/// Writes a line for each number of groups up to the longest: the number, its count, and a bar.
pub(crate) fn write_bars<W: Write>(
    counts: &[usize],
    longest: usize,
    output: &mut W,
) -> io::Result<()>
    ensures { OnOk result (Appends (W.contents output.old) (W.contents output.new)
        (tallies_text counts.now longest)) }
{
    let most = largest_of(counts);
    for index in 0..longest.min(counts.len()) {
        write_tally(counts, longest, index, most, output)?;
    }
    Ok(())
}

// Writes the line of a count.
fn write_tally<W: Write>(
    counts: &[usize],
    longest: usize,
    index: usize,
    most: usize,
    output: &mut W,
) -> io::Result<()>
    requires index { index < length counts.now }
    requires most { most ≡ largest counts.now }
    ensures { OnOk result (Appends (W.contents output.old) (W.contents output.new)
        (tally_line counts.now longest index)) }
{
    let groups = index + 1;
    let count = counts[index];
    let more = longer_mark(groups, longest);
    write!(output, "{groups:>8}{more}  {count:>12}  ")?;
    write_bar(count, most, output)?;
    output.write_all(b"\n")
}

/// Writes an array of JSON of the first counts, as many as are shown.
pub(crate) fn write_array<W: Write>(
    counts: &[usize],
    shown: usize,
    output: &mut W,
) -> io::Result<()>
    ensures { OnOk result (Appends (W.contents output.old) (W.contents output.new)
        (counts_array counts.now shown)) }
{
    output.write_all(b"[")?;
    write_counts(counts, shown, output)?;
    output.write_all(b"]")
}

// Writes the counts, with a comma before each but the first.
fn write_counts<W: Write>(counts: &[usize], shown: usize, output: &mut W) -> io::Result<()>
    ensures { OnOk result (Appends (W.contents output.old) (W.contents output.new)
        (counts_text counts.now shown)) }
{
    for index in 0..shown.min(counts.len()) {
        write_count(counts, index, output)?;
    }
    Ok(())
}

// Writes a count, with a comma before it but before the first.
fn write_count<W: Write>(counts: &[usize], index: usize, output: &mut W) -> io::Result<()>
    requires { index < length counts.now }
    ensures { OnOk result (Appends (W.contents output.old) (W.contents output.new)
        (count_item counts.now index)) }
{
    let count = counts[index];
    if index == 0 {
        write!(output, "{count}")
    } else {
        write!(output, ",{count}")
    }
}

// The largest of some counts, or 0.
fn largest_of(counts: &[usize]) -> usize
    ensures { result ≡ largest counts.now }
{
    let mut most = 0_usize;
    for count in counts {
        most = most.max(*count);
    }
    most
}

// A `+` behind the last number of groups, where its count is also that of larger ones.
fn longer_mark(groups: usize, longest: usize) -> &'static str
    ensures { result.now ≡ longer_mark longest groups }
{
    if groups == MOST && longest > MOST {
        "+"
    } else {
        ""
    }
}

// Writes a bar. Its length over that of the longest is the count over the largest; at least 1
// where the count is not 0.
fn write_bar<W: Write>(count: usize, most: usize, output: &mut W) -> io::Result<()>
    requires { count ≤ most }
    ensures { OnOk result
        (Appends (W.contents output.old) (W.contents output.new) (bar count most)) }
{
    if count == 0 {
        return Ok(());
    }
    let signs = (count as u128 * WIDTH / most as u128).max(1);
    for _ in 0..signs {
        output.write_all(b"#")?;
    }
    Ok(())
}
