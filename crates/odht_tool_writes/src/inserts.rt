//! Pairs of lines that are inserted into a table, a batch at a time.
ghost use Rattle.std.specs.Prelude.{◌≡◌, ◌<◌, Err, IfOk, IfSome, OnErr, OnOk, [], length, slice_get};
ghost use Rattle.odht_tool_core.specs.Keys.{IsReadAs};
ghost use Rattle.odht_tool_core.specs.Pairs.{IsPairRead};
ghost use Rattle.odht_tool_core.specs.declared.failure.Failure.TheVariants.{Memory};
ghost use Rattle.odht_tool_writes.specs.Faults.{IsTold};
ghost use Rattle.odht_tool_writes.specs.Inserted.{AreInserted, IsNewInsert};

use crate::reports::{BATCH, LineReports, with_line};
use odht::dynamic::Layout;
use odht::load::Percent;
use odht_tool_core::arguments::Duplicates;
use odht_tool_core::failure::Failure;
use odht_tool_core::forms::Forms;
use odht_tool_core::line_messages::line_message;
use odht_tool_core::lines::add_pair;
use odht_tool_core::pairs::Pairs;
use odht_tool_core::progress::Watch;
use odht_tool_core::text::Text;
use std::alloc::Global;
use std::io::{BufRead, Write};
use std::rt::Clock;

pub mod lines;
mod tables;

/// What a run over lines is given beside its table and its streams.
#[derive(Drop)]
pub struct LineJob<'a, R, F> {
    /// The system, which allocates and has the clock.
    pub rt: &'a R,
    /// The lengths of keys and values.
    pub layout: Layout,
    /// The forms of keys and values, and the byte between them.
    pub forms: F,
    /// Which pair of a key counts.
    pub duplicates: Duplicates,
    /// Whether lines of progress are requested.
    pub watch: Watch,
}

/// A table that grows, into which pairs are inserted that have texts.
pub trait Inserts: Sized + Drop {
    ghost use Rattle.std.specs.Prelude.{ℕ, IfErr, None, Some};
    ghost use Rattle.odht_base.specs.Format.{Format};
    ghost use Rattle.odht_base.specs.Table.{Table, count, fresh};
    ghost use Rattle.odht_base.specs.Valid.{IsImage};
    ghost use Rattle.odht_header.specs.Coding.{Coding};
    ghost use Rattle.odht_header.specs.Refusals.{check_refusal_by};
    ghost use Rattle.odht_tool_writes.specs.Inserted.{copy_failure};

    /// Pairs that are inserted.
    type Pairs: Pairs;

    ghost coding: { Self → Coding Self.Pairs.Key Self.Pairs.Value };

    ghost stands_for: { Self → Table → Type 0 };

    ghost format: { ℕ → ℕ → Format };

    ghost is_long_enough: { ℕ → Type 0 };

    ghost is_with: { ℕ → ℕ → (Table → Type 0) → Self → Type 0 };

    /// An empty table of these lengths, for that many items.
    fn empty(
        alloc: Global,
        layout: Layout,
        capacity: usize,
        percent: Percent,
    ) -> Result<Self, Failure>
        ensures { IfOk result (is_with layout.key_len layout.value_len
            (λ P. fresh capacity percent ≡ Some P)) };

    /// The table of these bytes, which has these lengths. They are checked whole before, with the
    /// bound of searches where there is one, and freed once the table has a copy.
    fn copy(
        alloc: Global,
        layout: Layout,
        bytes: Vec<u8>,
        bound: Option<usize>,
    ) -> Result<Self, Failure>
        requires { is_long_enough layout.key_len }
        ensures ok { let F = format layout.key_len layout.value_len in IfOk result
            (is_with layout.key_len layout.value_len (λ P. IsImage F P bytes.items)) }
        ensures valid { IfOk result (λ _. let F = format layout.key_len layout.value_len
            in check_refusal_by F bound bytes.items ≡ None) }
        ensures err { IfErr result (λ failure. let F = format layout.key_len layout.value_len
            in failure ≡ copy_failure F bound bytes.items) };

    /// Inserts the pairs in turn. `Memory` where there is none for a larger table.
    fn insert_pairs(&mut self, pairs: &Self::Pairs) -> Result<(), Failure>
        ensures inserted { OnOk result (AreInserted (coding self.old) (stands_for self.old)
            (Self.Pairs.items pairs.now) (stands_for self.new)) }
        ensures memory { OnErr result (result ≡ Err Memory) };

    /// Inserts the pair at this index where its key has no value, and returns whether that is so.
    /// `Memory` where there is none for a larger table.
    fn insert_new(&mut self, pairs: &Self::Pairs, index: usize) -> Result<bool, Failure>
        requires { index < length (Self.Pairs.items pairs.now) }
        ensures new { IfOk result (λ new. IfSome (slice_get (Self.Pairs.items pairs.now) index)
            (λ p. IsNewInsert (coding self.old) (stands_for self.old) p.0 p.1 new
            (stands_for self.new))) }
        ensures memory { OnErr result (result ≡ Err Memory) };

    /// How many pairs the table has.
    fn pair_count(&self) -> usize
        ensures { (P : Table) → stands_for self.now P → result ≡ count P };

    /// All bytes.
    fn all_bytes(&self) -> &[u8]
        ensures { (P : Table)
            → stands_for self.now P
            → IsImage (coding self.now).format P result.now };
}

// Inserts the pairs of the lines, a batch at a time. Inlined it would take more instructions.
#[inline(never)]
fn fill<T: Inserts, F: Forms, R: AllocGlobal + Clock, I: BufRead, E: Write>(
    job: &LineJob<'_, R, F>,
    table: &mut T,
    input: &mut I,
    errors: &mut E,
) -> Result<(), Failure> {
    let mut reports = LineReports::new(job.rt, job.watch);
    let (alloc, forms): (Global, F) = (job.rt.alloc(), job.forms);
    let mut pairs = T::Pairs::none(alloc, job.layout);
    let mut line = Vec::new(alloc);
    let mut bytes: u64 = 0;
    for number in 1..u64::MAX {
        if !next_pair(alloc, input, &mut line, number, forms, &mut pairs)? {
            insert_and_clear(table, &mut pairs)?;
            reports.end(number, table.pair_count(), bytes, errors);
            break;
        }
        bytes = with_line(bytes, line.as_slice());
        if pairs.count() >= BATCH {
            insert_and_clear(table, &mut pairs)?;
            reports.report(number, table.pair_count(), bytes, errors);
        }
    }
    insert_and_clear(table, &mut pairs)
}

// Adds the pair of the next line, which has this number, or returns what is said of the line.
#[inline(always)]
fn next_pair<P: Pairs, F: Forms, I: BufRead>(
    alloc: Global,
    input: &mut I,
    line: &mut Vec<u8>,
    number: u64,
    forms: F,
    pairs: &mut P,
) -> Result<bool, Failure>
    ensures { IfOk result (IsPairRead (F.delimiter forms) (P.Value.wants (F.pair forms).1)
        (IsReadAs (P.Key.is_word (F.pair forms).0) (P.Key.stands_for (F.pair forms).0))
        (IsReadAs (P.Value.is_word (F.pair forms).1) (P.Value.stands_for (F.pair forms).1))
        (I.remaining input.old) (I.remaining input.new) line.new.items
        (P.items pairs.old) (P.items pairs.new)) }
{
    match add_pair(input, line, number, forms, pairs) {
        Ok(read) => Ok(read),
        Err(failure) => Err(told::<P, F>(alloc, failure, line.as_slice(), forms)),
    }
}

// The failure with what is said of this line, where the line cannot be parsed.
#[cold]
#[inline(never)]
fn told<P: Pairs, F: Forms>(alloc: Global, failure: Failure, line: &[u8], forms: F) -> Failure
    ensures { IsTold (F.delimiter forms) (P.Key.wants (F.pair forms).0)
        (P.Value.wants (F.pair forms).1)
        line.now failure result }
{
    match failure {
        Failure::Line { number, fault } => {
            let wanted = (P::Key::wanted(forms.key()), P::Value::wanted(forms.value()));
            match line_message(alloc, number, fault, wanted, line, forms.delimiter()) {
                Ok(message) => Failure::Misread(message),
                Err(_) => Failure::Memory,
            }
        }
        _ => failure,
    }
}

// Inserts the pairs, and drops them.
fn insert_and_clear<T: Inserts>(table: &mut T, pairs: &mut T::Pairs) -> Result<(), Failure>
    ensures inserted { OnOk result (AreInserted (T.coding table.old) (T.stands_for table.old)
        (T.Pairs.items pairs.old) (T.stands_for table.new)) }
    ensures memory { OnErr result (result ≡ Err Memory) }
    ensures empty { T.Pairs.items pairs.new ≡ [] }
{
    let inserted = table.insert_pairs(pairs);
    pairs.remove_all();
    inserted
}
