//! The control bytes of a table as a search reads them.
ghost use Rattle.std.specs.Prelude.{◌≡◌, ◌+◌, ◌-◌, ◌<◌, min, length};
ghost use Rattle.odht_raw.specs.Words.{bytes_at, IsSlotCount};

use super::EntryMetadata;
use std::marker::Model;

/// The control bytes of a table, read a group of sixteen at a time, and how many groups were read.
///
/// `group` is the only call that shows control bytes, and it counts each group. Nothing else sets
/// the count, and no second scan can be made from a scan: a search that borrows one cannot read a
/// group without counting it.
///
/// What counts as a group that was read: docs/FORMAT.md, "Search". In a contract it is the control
/// bytes and that number.
#[derive(Drop)]
pub struct Scan<'a> {
    control: &'a [EntryMetadata],
    slots: usize,
    groups: usize,
}

impl<'a> Model for Scan<'a> {
    ghost use Rattle.std.specs.Prelude.{◌≡◌, ◌+◌, length};
    ghost use Rattle.odht_base.specs.Load.{IsSlotCount};
    ghost use Rattle.odht_raw.specs.Parts.{ReadGroups};

    ghost Value = { ReadGroups };

    ghost view = { λ s. record { control = s.control.now; groups = s.groups } };

    ghost invariant = { λ s. (length s.control.now ≡ s.slots + 16) × IsSlotCount s.slots };
}

impl<'a> Scan<'a> {
    /// The control bytes of `slots` slots with their mirror, of which no group was read.
    #[inline]
    pub fn new(control: &'a [EntryMetadata], slots: usize) -> Scan<'a>
        requires slots { IsSlotCount slots }
        requires control { length control.now ≡ slots + 16 }
        ensures { result ≡ record { control = control.now; groups = 0 } }
    {
        Scan {
            control,
            slots,
            groups: 0,
        }
    }

    /// How many slots there are.
    #[inline]
    pub fn slots(&self) -> usize
        ensures control { length self.now.control ≡ result + 16 }
        ensures count { IsSlotCount result }
    {
        self.slots
    }

    /// The sixteen control bytes from that of slot `start` on, which run into the mirror after the
    /// last slot. Counts one group more.
    #[inline]
    pub fn group(&mut self, start: usize) -> &'a [EntryMetadata]
        requires { start < length self.old.control - 16 }
        ensures bytes { result.now ≡ bytes_at self.old.control start 16 }
        ensures len { length result.now ≡ 16 }
        ensures counted { self.new
            ≡ record { control = self.old.control; groups = min (self.old.groups + 1) usize.MAX } }
    {
        self.groups = self.groups.saturating_add(1);
        let control = self.control;
        &control[start..start + 16]
    }

    /// How many groups were read; `usize::MAX` where they are more.
    #[inline]
    pub fn groups(&self) -> usize
        ensures { result ≡ self.now.groups }
    {
        self.groups
    }
}
