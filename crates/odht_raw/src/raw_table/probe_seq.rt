//! The probe order of the slots of a table, a group at a time, and the groups of control bytes along
//! it, as each search reads them.
ghost use Rattle.std.specs.Prelude.{◌≡◌, ◌+◌, ◌%◌, ◌<◌, ◌↔◌, IfOk, OnErr, IsPermutation, IsTrue};
ghost use Rattle.std.specs.Prelude.{◌-◌, ◌≤◌, length, min};
ghost use Rattle.std.specs.List.{range_with_len};
ghost use Rattle.odht_raw.specs.Words.{bytes_at, IsSlotCount, order, probe_slot};

use super::{EntryMetadata, Scan};
use crate::error::Error;
use crate::swisstable_group_query::REFERENCE_GROUP_SIZE;
use std::alloc::Global;
use std::marker::Model;

/// A position of the probe order of a table, from which the next `GROUP_SIZE` slots are searched.
/// The order is that of docs/FORMAT.md, "Probe order".
///
/// Whatever `GROUP_SIZE` is, a divisor of 16, the slots come in the same order: that of groups of
/// sixteen. So a table that is written with one group search can be read with any other. In a
/// contract it is the home slot, the mask and the position.
///
/// Beside these it keeps the slot at the position (`index`), the first slot of its group (`base`),
/// how far the slot is behind that one (`chunk_index`), and sixteen times the number of the group
/// (`stride`).
#[derive(Drop)]
pub struct ProbeSeq<const GROUP_SIZE: usize> {
    home: usize,
    mask: usize,
    position: usize,
    index: usize,
    base: usize,
    chunk_index: usize,
    stride: usize,
}

impl<const GROUP_SIZE: usize> Model for ProbeSeq<GROUP_SIZE> {
    ghost use Rattle.odht_raw.specs.ProbeSeqs.{ProbePosition, IsProbe};

    ghost Value = { ProbePosition };

    ghost view = { λ q. record { home = q.home; mask = q.mask; position = q.position } };

    ghost invariant = { λ q. IsProbe GROUP_SIZE q.home q.mask q.position q.index q.base
        q.chunk_index q.stride };
}

impl<const GROUP_SIZE: usize> ProbeSeq<GROUP_SIZE> {
    /// The first position of the probe order of the hash `h1` among `mask + 1` slots.
    #[inline]
    pub fn new(h1: usize, mask: usize) -> Self
        requires slots { IsSlotCount (mask + 1) }
        requires divides { 16 % GROUP_SIZE ≡ 0 }
        ensures { result ≡ record { home = h1 % (mask + 1); mask = mask; position = 0 } }
    {
        let initial_index = h1 & mask;
        ProbeSeq {
            home: initial_index,
            mask,
            position: 0,
            index: initial_index,
            base: initial_index,
            chunk_index: 0,
            stride: 0,
        }
    }

    /// Advances by `GROUP_SIZE` positions, of which there must be more: `is_last` is false. The
    /// mask is that of `new`.
    #[inline]
    pub fn advance(&mut self, mask: usize)
        requires mask { mask ≡ self.old.mask }
        requires within { self.old.position + GROUP_SIZE < mask + 1 }
        ensures { self.new ≡ record {
          home = self.old.home;
          mask = self.old.mask;
          position = self.old.position + GROUP_SIZE;
        } }
    {
        self.chunk_index += GROUP_SIZE;
        if self.chunk_index == REFERENCE_GROUP_SIZE {
            self.chunk_index = 0;
            self.stride += REFERENCE_GROUP_SIZE;
            self.base = (self.base + self.stride) & mask;
        }
        self.index = (self.base + self.chunk_index) & mask;
        self.position += GROUP_SIZE;
    }

    /// The slot at the position.
    #[inline]
    pub fn index(&self) -> usize
        ensures slot { result ≡ probe_slot self.now.home (self.now.mask + 1) self.now.position }
        ensures below { result < self.now.mask + 1 }
    {
        self.index
    }

    /// Whether no position comes after the `GROUP_SIZE` positions from this one on.
    #[inline]
    pub fn is_last(&self) -> bool
        ensures { IsTrue result ↔ (self.now.mask < self.now.position + GROUP_SIZE) }
    {
        self.mask < self.position + GROUP_SIZE
    }

    // The mask of `new`, which `advance` is given.
    #[inline]
    pub(super) fn mask(&self) -> usize
        ensures { result ≡ self.now.mask }
    {
        self.mask
    }
}

/// The slot at a position of the probe order of a home.
#[inline]
pub(super) fn probed_slot(home: usize, position: usize, slots: usize) -> usize
    requires slots { IsSlotCount slots }
    requires position { position < slots }
    ensures slot { result ≡ probe_slot home slots position }
    ensures below { result < slots }
{
    let group = position / REFERENCE_GROUP_SIZE;
    let steps = (8 * group).wrapping_mul(group + 1);
    home.wrapping_add(steps)
        .wrapping_add(position % REFERENCE_GROUP_SIZE)
        & (slots - 1)
}

/// The slots of a table in the probe order of the home slot `start`, each exactly once
/// (docs/FORMAT.md, "Probe order").
///
/// The only error is `Memory`, where the list cannot be allocated. One pass over the slots.
pub fn probe_order(alloc: Global, start: usize, slots: usize) -> Result<Vec<usize>, Error>
    requires slots { IsSlotCount slots }
    requires start { start < slots }
    ensures order { IfOk result (λ list. list.items ≡ order start slots) }
    ensures once { IfOk result (λ list. IsPermutation list.items (range_with_len 0 slots)) }
    ensures memory { OnErr result (result ≡ Err Error.Memory) }
{
    let mut list = Vec::with_capacity(alloc, slots)?;
    let mask = slots - 1;
    let mut probe = ProbeSeq::<1>::new(start, mask);
    for position in 0..slots {
        list.push_reserved(probe.index());
        if position + 1 < slots {
            probe.advance(mask);
        }
    }
    Ok(list)
}

/// The place of a search: the group of sixteen slots at hand, of those along its probe order, and
/// the control bytes.
///
/// In a contract it is the control bytes, how many groups of them were read, the home slot, and
/// the position of the group's first slot in the order.
#[derive(Drop)]
pub struct GroupProbe<'a> {
    scan: Scan<'a>,
    probe: ProbeSeq<REFERENCE_GROUP_SIZE>,
}

impl<'a> Model for GroupProbe<'a> {
    ghost use Rattle.std.specs.Prelude.{◌≡◌, ◌+◌, ◌%◌, ◌≤◌, length};
    ghost use Rattle.odht_base.specs.Load.{IsSlotCount};
    ghost use Rattle.odht_raw.specs.ProbeSeqs.{GroupPlace};

    ghost Value = { GroupPlace };

    ghost view = { λ q. record {
      control = q.scan.control;
      groups = q.scan.groups;
      home = q.probe.home;
      position = q.probe.position;
    } };

    ghost invariant = { λ q. IsSlotCount (q.probe.mask + 1)
        × (length q.scan.control ≡ q.probe.mask + 1 + 16)
        × (q.probe.position + 16 ≤ q.probe.mask + 1)
        × (q.probe.position % 16 ≡ 0) };
}

impl<'a> GroupProbe<'a> {
    /// The first group of the probe order of a hash, or of a home slot, in the control bytes of
    /// `slots` slots.
    #[inline(always)]
    pub fn new(control: &'a [EntryMetadata], slots: usize, hash: usize) -> Self
        requires slots { IsSlotCount slots }
        requires control { length control.now ≡ slots + 16 }
        ensures { result ≡ record {
          control = control.now;
          groups = 0;
          home = hash % slots;
          position = 0;
        } }
    {
        GroupProbe {
            scan: Scan::new(control, slots),
            probe: ProbeSeq::new(hash, slots - 1),
        }
    }

    /// The first slot of the group.
    #[inline(always)]
    pub fn start(&self) -> usize
        ensures slot { result
            ≡ probe_slot self.now.home (length self.now.control - 16) self.now.position }
        ensures count { IsSlotCount (length self.now.control - 16) }
        ensures below { result < length self.now.control - 16 }
        ensures aligned { self.now.position % 16 ≡ 0 }
        ensures within { self.now.position + 16 ≤ length self.now.control - 16 }
    {
        self.probe.index()
    }

    /// The sixteen control bytes of the group. Counts one group more.
    #[inline(always)]
    pub fn read(&mut self) -> &'a [EntryMetadata]
        ensures bytes { let slots = length self.old.control - 16
            in result.now
            ≡ bytes_at self.old.control (probe_slot self.old.home slots self.old.position) 16 }
        ensures len { length result.now ≡ 16 }
        ensures counted { self.new ≡ record {
          control = self.old.control;
          groups = min (self.old.groups + 1) usize.MAX;
          home = self.old.home;
          position = self.old.position;
        } }
    {
        self.scan.group(self.probe.index())
    }

    /// Whether it is the last group.
    #[inline(always)]
    pub fn is_last(&self) -> bool
        ensures { IsTrue result ↔ (self.now.position + 16 ≡ length self.now.control - 16) }
    {
        self.probe.is_last()
    }

    /// Goes on to the next group.
    #[inline(always)]
    pub fn advance(&mut self)
        requires { self.old.position + 16 < length self.old.control - 16 }
        ensures { self.new ≡ record {
          control = self.old.control;
          groups = self.old.groups;
          home = self.old.home;
          position = self.old.position + 16;
        } }
    {
        let mask = self.probe.mask();
        self.probe.advance(mask);
    }
}
