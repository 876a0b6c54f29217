//! What `Debug` writes of a table: each slot on a line.
ghost use Rattle.std.specs.Prelude.{◌<◌};
ghost use Rattle.std.specs.Fmt.{WritesOnOk, DisplaysOnOk};
ghost use Rattle.odht_raw.specs.Parts.{entry_format};
ghost use Rattle.odht_raw.specs.Dumps.{head_text, slot_text};

use super::{Entry, RawTable, is_empty_or_deleted};
use crate::bytes::ByteArray;
use crate::hash::HashFn;
use std::fmt;

impl<'a, K: ByteArray, V: ByteArray, H: HashFn> RawTable<'a, K, V, H> {
    // Writes the line before those of the slots.
    fn write_head<W: fmt::Write>(&self, f: &mut fmt::Formatter<W>) -> fmt::Result
        ensures { WritesOnOk W.write_str_gives f.old result
            (head_text H.hash_name self.now.entries.slots) f.new }
    {
        let slot_count = self.entries().len();
        let hash_name = H::hash_name();
        writeln!(
            f,
            "RawTable (slot_count={slot_count}, hash_fn={hash_name}) {{"
        )
    }

    // Writes the line of a slot.
    fn write_slot_line<W: fmt::Write>(&self, slot: usize, f: &mut fmt::Formatter<W>) -> fmt::Result
        requires { slot < self.now.entries.slots }
        ensures { DisplaysOnOk W.write_str_gives f.old result
            (slot_text (entry_format K.LEN V.LEN)
            (λ b. K.debug_output (K.of_bytes b)) (λ b. V.debug_output (V.of_bytes b))
            self.now slot)
            f.new }
    {
        let control_byte = self.parts().control(slot);
        if is_empty_or_deleted(control_byte) {
            return writeln!(f, "slot {slot}: empty");
        }
        let Entry { key, value } = self.entries().get(slot);
        writeln!(
            f,
            "slot {slot}: key={key:?}, value={value:?}, control_byte={control_byte}"
        )
    }
}

impl<'a, K: ByteArray, V: ByteArray, H: HashFn> fmt::Debug for RawTable<'a, K, V, H> {
    ghost use Rattle.odht_raw.specs.Parts.{entry_format};
    ghost use Rattle.odht_raw.specs.Dumps.{dump_text};

    ghost debug_output = { dump_text (entry_format K.LEN V.LEN)
        (λ b. K.debug_output (K.of_bytes b)) (λ b. V.debug_output (V.of_bytes b))
        H.hash_name };

    // The slot count and the name of the hash function on one line, then a line for each slot, in
    // slot order.
    fn fmt<W: fmt::Write>(&self, f: &mut fmt::Formatter<W>) -> fmt::Result {
        self.write_head(f)?;
        for slot in 0..self.entries().len() {
            self.write_slot_line(slot, f)?;
        }
        writeln!(f, "}}")
    }
}
