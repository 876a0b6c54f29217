//! Lookups in the tables of configurations, and of lengths that are known only at run time.
ghost use Rattle.std.specs.Prelude.{◌≡◌, ◌∷◌, [], IfErr, IfOk};
ghost use Rattle.std.specs.Option.{option_copied};
ghost use Rattle.odht.specs.Dynamic.{dyn_coding};
ghost use Rattle.odht.specs.Gets.{IsGet};
ghost use Rattle.odht_tool_core.specs.DynTexts.{dynamic_text};
ghost use Rattle.odht_tool_core.specs.Endings.{IsOutputFailure};
ghost use Rattle.odht_tool_core.specs.JsonAnswers.{answer_in};
ghost use Rattle.odht_tool_reads.specs.GetParts.{AreKeysAnswered, IsKeysFailure};
ghost use Rattle.odht_tool_reads.specs.Gets.{AreAnswers};

use super::Lookups;
use odht::HashTable;
use odht::bytes::Borrowed;
use odht::config::{Coded, Config};
use odht::dynamic::{DynTable, ShortBytes};
use odht::hash::HashFn;
use odht_tool_core::answers::{absent_values, are_found};
use odht_tool_core::dynamic_bytes::DynBytes;
use odht_tool_core::failure::Failure;
use odht_tool_core::forms::Forms;
use odht_tool_core::json::answers::{AnswerStyle, write_answer_in, write_answers_in};
use odht_tool_core::key_lists::{ByteKeys, Keys};
use odht_tool_core::text::Text;
use std::alloc::{AllocError, Global};
use std::io::Write;

impl<'a, C: Config> Lookups for HashTable<C, Borrowed<'a>>
where
    C::Key: Text,
    C::Value: Text,
{
    type Keys = Vec<C::Key>;

    type Value = C::Value;

    ghost coding = { λ table. ⟦<C as Coded>⟧.coding };

    ghost bytes = { λ table. table.0.now };

    fn no_keys(&self, alloc: Global) -> Vec<C::Key> {
        Vec::new(alloc)
    }

    #[inline(always)]
    fn answer<F: Forms, O: Write>(
        &self,
        alloc: Global,
        keys: &Vec<C::Key>,
        style: AnswerStyle<F>,
        output: &mut O,
    ) -> Result<bool, Failure> {
        answer_typed(alloc, self, keys.as_slice(), style, output)
    }
}

#[inline(always)]
fn answer_typed<C: Config, F: Forms, O: Write>(
    alloc: Global,
    table: &HashTable<C, Borrowed<'_>>,
    keys: &[C::Key],
    style: AnswerStyle<F>,
    output: &mut O,
) -> Result<bool, Failure>
where
    C::Key: Text,
    C::Value: Text,
    ensures ok { let f = F.pair style.forms in IfOk result (AreKeysAnswered ⟦<C as Coded>⟧.coding
        (answer_in style.printed (C.Key.text f.0) (C.Value.text f.1)) table.now.0.now keys.now
        (O.contents output.old) (O.contents output.new)) }
    ensures err { IfErr result (IsKeysFailure 1 keys.now
        (O.contents output.old) (O.contents output.new)) }
{
    let values = values_of(alloc, table, keys)?;
    let values = values.as_slice();
    write_answers_in(keys, values, style, output).map_err(Failure::Output)?;
    Ok(are_found(values))
}

// The value of each key.
#[inline(always)]
fn values_of<C: Config>(
    alloc: Global,
    table: &HashTable<C, Borrowed<'_>>,
    keys: &[C::Key],
) -> Result<Vec<Option<C::Value>>, AllocError>
where
    C::Value: Text,
    ensures { IfOk result (λ values.
        AreAnswers ⟦<C as Coded>⟧.coding table.now.0.now keys.now values.items) }
{
    let mut values = absent_values::<C::Value>(alloc, keys.len())?;
    table.get_all(keys, values.as_mut_slice());
    Ok(values)
}

impl<'a, H: HashFn> Lookups for DynTable<H, Borrowed<'a>> {
    type Keys = ByteKeys;

    type Value = ShortBytes;

    ghost use Rattle.odht.specs.Dynamic.{dyn_coding};

    ghost coding = { λ table. dyn_coding table H.hash };

    ghost bytes = { λ table. table.store.0.now };

    fn no_keys(&self, alloc: Global) -> ByteKeys {
        ByteKeys::none(alloc, self.layout().key_len)
    }

    fn answer<F: Forms, O: Write>(
        &self,
        _alloc: Global,
        keys: &ByteKeys,
        style: AnswerStyle<F>,
        output: &mut O,
    ) -> Result<bool, Failure> {
        answer_each(self, keys, style, output)
    }
}

fn answer_each<H: HashFn, F: Forms, O: Write>(
    table: &DynTable<H, Borrowed<'_>>,
    keys: &ByteKeys,
    style: AnswerStyle<F>,
    output: &mut O,
) -> Result<bool, Failure>
    ensures ok { let f = F.pair style.forms
        in IfOk result (AreKeysAnswered (dyn_coding table.now H.hash)
        (answer_in style.printed (dynamic_text f.0) (dynamic_text f.1)) table.now.store.0.now
        keys.now (O.contents output.old) (O.contents output.new)) }
    ensures err { IfErr result (IsKeysFailure 1 keys.now
        (O.contents output.old) (O.contents output.new)) }
{
    let mut is_all_found = true;
    for at in 0..keys.count() {
        let is_found = answer_one(table, keys.at(at), style, output)?;
        is_all_found = is_found && is_all_found;
    }
    Ok(is_all_found)
}

// Looks a key up, and writes its line, of the value where it lies. Returns whether it was found.
fn answer_one<H: HashFn, F: Forms, O: Write>(
    table: &DynTable<H, Borrowed<'_>>,
    key: &[u8],
    style: AnswerStyle<F>,
    output: &mut O,
) -> Result<bool, Failure>
    ensures ok { let f = F.pair style.forms
        in IfOk result (AreKeysAnswered (dyn_coding table.now H.hash)
        (answer_in style.printed (dynamic_text f.0) (dynamic_text f.1)) table.now.store.0.now
        (key.now ∷ []) (O.contents output.old) (O.contents output.new)) }
    ensures err { IfErr result IsOutputFailure }
{
    let value = in_place(table.get(key));
    write_answer_in(&DynBytes::of(key), &value, style, output).map_err(Failure::Output)?;
    Ok(value.is_some())
}

// The value where it lies.
fn in_place(value: Option<&[u8]>) -> Option<DynBytes<'_>>
    ensures { result ≡ option_copied value.entry }
{
    match value {
        Some(value) => Some(DynBytes::of(value)),
        None => None,
    }
}

/// The value of a key, if it has one.
pub(super) fn value_of<H: HashFn>(
    table: &DynTable<H, Borrowed<'_>>,
    key: &ShortBytes,
) -> Option<ShortBytes>
    ensures { IsGet (dyn_coding table.now H.hash) table.now.store.0.now key.now result }
{
    // To look at the lengths is what tells that a value is short.
    let _ = table.layout();
    match table.get(key.as_slice()) {
        Some(value) => Some(ShortBytes::of(value)),
        None => None,
    }
}
