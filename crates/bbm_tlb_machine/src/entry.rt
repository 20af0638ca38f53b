//! What a TLB keeps.

ghost use Rattle.std.specs.Prelude.{◌≡◌, ◌<◌, ◌==◌, ◌++◌, true, IfOk, OnOk};
ghost use Rattle.bbm_rules.specs.Lists.{any, is_that};
ghost use Rattle.bbm_rules.specs.Tree.{next_of};
ghost use Rattle.bbm_rules.specs.Places.{page_of};
ghost use Rattle.bbm_tlb_machine.specs.Entry as spec;
ghost use Rattle.bbm_tlb_machine.specs.Safe.{is_stale as is_stale_part};

use bbm_descriptor::{Desc, needs_bbm, read};
use bbm_events::input_pages;
use bbm_regimes::{Interval, Kind, Level, NoMemory, Page, Pe, Place, Tag};
use bbm_tlbi_scope::{EntryHead, EntryKind, Family};
use std::alloc::Global;
use std::marker::Model;

/// A descriptor as it was read. A clause sees it as the part of the definitions. Source: project's own choice.
#[derive(Clone, Copy)]
pub struct Part {
    /// Its place.
    pub place: Place,
    /// The value that was read.
    pub value: u64,
    /// The kind of the table.
    pub kind: Kind,
    /// The level at which it was read.
    pub level: Level,
    /// The first input page that the place translates.
    pub first: u64,
}

impl Model for Part {
    ghost use Rattle.std.specs.Prelude.{◌<◌, ◌+◌, ◌*◌, ◌^◌};
    ghost use Rattle.bbm_tlb_machine.specs.Entry.{Part};

    ghost Value = { Part };

    ghost view = { λ p. record { place = p.place; value = p.value; kind = p.kind; level = p.level; first = p.first } };

    ghost invariant = { λ p. p.first < 2 ^ 46 + p.level * 2 ^ 36 };

    ghost inverse = { λ p. record {
      place = p.place;
      value = p.value;
      kind = p.kind;
      level = p.level;
      first = p.first;
    } };
}

impl Part {
    /// What the value means.
    fn desc(self) -> Desc
        ensures { result ≡ spec.desc_in self }
    {
        read(self.kind, self.level, self.value)
    }

    /// Whether the value is a table, and the place in the page that it names.
    #[tactic(auto, using(crate::proofs::PartLemmas::parts))]
    pub fn is_above(self, place: Place) -> bool
        ensures value { result ≡ is_that (next_of self.kind self.level self.value) (page_of place) }
        ensures level { result ≡ true → self.level < 3 }
    {
        match self.desc() {
            Desc::Table { next, .. } => next == place.page(),
            _ => false,
        }
    }

    /// The input pages that the place translates.
    fn region(self) -> Interval
        ensures { result ≡ spec.region_in self }
    {
        Interval {
            lo: self.first,
            hi: self.first + input_pages(self.level) - 1,
        }
    }

    /// Whether it stands at the place, and the value needs break-before-make from it.
    fn is_stale(self, place: Place, value: u64) -> bool
        ensures { result ≡ is_stale_part place value self }
    {
        self.place == place && needs_bbm(self.kind, self.level, self.value, value)
    }

    /// Whether it stands in the page.
    fn is_in(self, page: Page) -> bool
        ensures { result ≡ (page_of self.place == page) }
    {
        self.place.page() == page
    }
}

/// Whether a part stands at the place, and the value needs break-before-make from it.
fn has_stale(parts: &[Part], place: Place, value: u64) -> bool
    ensures { result ≡ any (is_stale_part place value) parts.now }
{
    parts.iter().any(|part| part.is_stale(place, value))
}

/// Adds parts at the end.
fn add_all(parts: &mut Vec<Part>, more: &[Part]) -> Result<(), NoMemory>
    ensures { OnOk result (parts.new.items ≡ parts.old.items ++ more.now) }
{
    for part in more {
        parts.push(*part)?;
    }
    Ok(())
}

/// Whether a part stands in the page.
fn has_one_in(parts: &[Part], page: Page) -> bool
    ensures { result ≡ any (λ part. page_of part.place == page) parts.now }
{
    parts.iter().any(|part| part.is_in(page))
}

/// A TLB entry. A clause sees it as the entry of the definitions. Source: Arm ARM (DDI 0487), "Translation Lookaside
/// Buffers"; its form is the project's own choice.
#[derive(Drop)]
pub struct Entry {
    /// The PE whose TLB keeps it.
    pub pe: Pe,
    /// Its kind.
    pub kind: EntryKind,
    /// The VMID under which it was made, 0 where its kind has none.
    pub vmid: u16,
    /// The ASID under which it was made, 0 where its kind has none.
    pub asid: u16,
    /// The address of its root's first page, in bytes.
    pub root: u64,
    /// Its last part.
    pub last: Part,
    /// The parts above the last one, the nearest first.
    pub above: Vec<Part>,
    /// How many events were taken before its first part was read.
    pub since: u64,
    /// How many events were taken before a combined entry was joined, else 0.
    pub joined: u64,
}

impl Model for Entry {
    ghost use Rattle.bbm_tlb_machine.specs.Entry.{Entry};

    ghost Value = { Entry };

    ghost view = { λ e. record {
      pe = e.pe;
      kind = e.kind;
      vmid = e.vmid;
      asid = e.asid;
      root = e.root;
      last = e.last;
      above = e.above.items;
      since = e.since;
      joined = e.joined;
    } };
}

impl Entry {
    /// What a TLBI sees of the entry.
    pub fn head(&self) -> EntryHead
        ensures { result ≡ spec.head_of self.now }
    {
        let desc = self.last.desc();
        EntryHead {
            kind: self.kind,
            vmid: self.vmid,
            asid: self.asid,
            region: self.last.region(),
            last: matches!(desc, Desc::Leaf { .. }),
            level: self.last.level,
            global: matches!(desc, Desc::Leaf { global: true, .. }),
        }
    }

    /// The parts, the last first. `NoMemory` where there is none.
    pub fn parts(&self, alloc: Global) -> Result<Vec<Part>, NoMemory>
        ensures { IfOk result (λ parts. parts.items ≡ spec.parts_of self.now) }
    {
        let mut parts = Vec::new(alloc);
        parts.push(self.last)?;
        add_all(&mut parts, &self.above)?;
        Ok(parts)
    }

    /// The parts above the last one, the nearest first. `NoMemory` where there is none.
    pub fn parts_above(&self, alloc: Global) -> Result<Vec<Part>, NoMemory>
        ensures { IfOk result (λ parts. parts.items ≡ self.now.above) }
    {
        let mut parts = Vec::new(alloc);
        add_all(&mut parts, &self.above)?;
        Ok(parts)
    }

    /// Its tag: that of the kind of tables that it was read through.
    pub fn tag(&self) -> Tag
        ensures { result ≡ spec.tag_of_entry self.now }
    {
        match self.last.kind {
            Kind::El2 => Tag::El2,
            Kind::S2 => Tag::Vmid(self.vmid),
            Kind::Ttbr0 => Tag::Asid(self.asid),
            Kind::Ttbr1 => Tag::Ttbr1,
        }
    }

    /// Its age for a TLBI of the family: how many events had been taken when it was joined, for one of all stage 1
    /// entries of a VMID and a combined entry, and else when its first part was read.
    pub fn age_for(&self, family: Family) -> u64
        ensures { result ≡ spec.age_for family self.now }
    {
        match family {
            Family::VmAll1 => match self.kind {
                EntryKind::Combined => self.joined,
                _ => self.since,
            },
            _ => self.since,
        }
    }

    /// Whether it has a part at the place from which the value needs break-before-make.
    pub fn is_stale(&self, place: Place, value: u64) -> bool
        ensures { result ≡ any (is_stale_part place value) (spec.parts_of self.now) }
    {
        self.last.is_stale(place, value) || has_stale(&self.above, place, value)
    }

    /// Whether it has a part in the page.
    pub fn is_in(&self, page: Page) -> bool
        ensures { result ≡ any (λ part. page_of part.place == page) (spec.parts_of self.now) }
    {
        self.last.is_in(page) || has_one_in(&self.above, page)
    }
}
