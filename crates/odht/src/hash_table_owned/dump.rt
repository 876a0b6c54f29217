//! What `Debug` writes of an owned table: the numbers of its header, and each slot on a line.
ghost use Rattle.std.specs.Fmt.{WritesOnOk};
ghost use Rattle.odht_raw.specs.Words.{image};
ghost use Rattle.odht_raw.specs.Dumps.{counts_text};

use super::HashTableOwned;
use crate::config::{Coded, Config};
use crate::load::max_item_count_for;
use std::fmt;

impl<C: Config> HashTableOwned<C> {
    // Writes the numbers of the header on a line.
    fn write_counts<W: fmt::Write>(&self, f: &mut fmt::Formatter<W>) -> fmt::Result
        ensures { WritesOnOk W.write_str_gives f.old result
            (counts_text (image ⟦<C as Coded>⟧.coding.format self.now)) f.new }
    {
        let header = self.table.allocation.header();
        let item_count = header.item_count();
        let factor = header.max_load_factor();
        let max_item_count = max_item_count_for(header.slot_count(), factor);
        let percent = factor.to_percent();
        writeln!(
            f,
            "(item_count={item_count}, max_item_count={max_item_count}, max_load_factor={percent}%)"
        )
    }
}

impl<C: Config> fmt::Debug for HashTableOwned<C> {
    ghost use Rattle.odht_raw.specs.Words.{format_of, image};
    ghost use Rattle.odht_raw.specs.Dumps.{owned_dump_text};

    ghost debug_output = { λ t. let F = format_of C.EncodedKey.LEN C.EncodedValue.LEN C.H.hash
        in owned_dump_text F
        (λ b. C.EncodedKey.debug_output (C.EncodedKey.of_bytes b))
        (λ b. C.EncodedValue.debug_output (C.EncodedValue.of_bytes b)) C.H.hash_name
        (image F t) };

    // The numbers of the header on a line, the dump of the parts, and an empty line.
    fn fmt<W: fmt::Write>(&self, f: &mut fmt::Formatter<W>) -> fmt::Result {
        self.write_counts(f)?;
        let table = self.table.as_raw();
        writeln!(f, "{table:?}")
    }
}
