//! The roots, their tags, the registers that name them, and the locks.
//! Source: project's own choice, where no other is named.

ghost use Rattle.bbm_roots.specs.TagsByRoot.{AreListed};

use crate::by_root::ByRoot;
use crate::hold::Holds;
use crate::laws_below::laws_below;
use crate::pending::{self, Pendings};
use crate::registers::Registers;
use crate::root::{Declared, same_kind};
use crate::search;
use bbm_events::Header;
use bbm_locks::Locks;
use bbm_regimes::{Kind, NoMemory, Page, Pe};
use bbm_tlbi_scope::TagSet;
use indexmap::IndexMap;
use std::alloc::Global;

/// The header of a log, its declared roots, the register values of each PE that may still be in use, the tags that each
/// root holds, and the locks. Clauses speak of the history that it stands for.
#[derive(Drop)]
pub struct Roots {
    pub(crate) header: Header,
    pub(crate) registers: Registers,
    pub(crate) declared: IndexMap<u64, Declared>,
    pub(crate) holds: Holds,
    pub(crate) by_root: ByRoot,
    pub(crate) pendings: Pendings,
    /// Whether any root was declared with a lock, also one that is retired. Where not, no declared root has one.
    pub(crate) names_locks: bool,
    pub(crate) locks: Locks,
    ghost listed: { AreListed holds by_root },
}

impl Roots {
    ghost use Rattle.std.specs.Prelude.{◌≡◌, ◌<◌, ℕ, List, [], ◌∷◌, Option, Some};
    ghost use Rattle.std.specs.Prelude.{is_some, length, nat_eq, option_and_then, IfOk};
    ghost use Rattle.indexmap.specs.IndexMap.{get};
    ghost use Rattle.bbm_events.specs.Heading.{Heading};
    ghost use Rattle.bbm_events.specs.declared.event.Event.{Event as TheEvent};
    ghost use Rattle.bbm_rules.specs.Claims.{Patterns};
    ghost use Rattle.bbm_rules.specs.Lists.{if_so};
    ghost use Rattle.bbm_rules.specs.Locks as locks;
    ghost use Rattle.bbm_rules.specs.Roots as spec;
    ghost use Rattle.bbm_rules.specs.Rules as rules;
    ghost use Rattle.bbm_rules.specs.Tags as tags;
    ghost use Rattle.bbm_roots.specs.Listed.{nth_in};
    ghost use Rattle.bbm_roots.specs.RootsStand.{Stands};
    ghost use Rattle.bbm_roots.specs.declared.root.Declared.{Declared as TheRoot};

    /// The roots of a log with this header before any event. `NoMemory` where there is none.
    pub fn new(alloc: Global, header: &Header) -> Result<Roots, NoMemory>
        ensures empty { IfOk result (λ roots. Stands roots header.now []) }
    {
        header.in_ranges();
        let registers = Registers::new(alloc, header)?;
        Ok(Roots {
            header: *header,
            registers,
            declared: IndexMap::new(alloc),
            holds: IndexMap::new(alloc),
            by_root: IndexMap::new(alloc),
            pendings: pending::no_pendings(alloc),
            names_locks: false,
            locks: Locks::new(),
        })
    }

    /// Whether the page is the first page of a declared root of the kind.
    pub fn is_root(&self, kind: Kind, page: Page) -> bool
        ensures { (heading : Heading) (h : List TheEvent) → Stands self.now heading h
            → result ≡ spec.is_root h kind page }
    {
        match self.declared.get(&page.get()) {
            Some(root) => same_kind(root.kind, kind),
            None => false,
        }
    }

    /// Whether the page is the first page of a declared root.
    pub fn is_declared(&self, page: Page) -> bool
        ensures { (heading : Heading) (h : List TheEvent) → Stands self.now heading h
            → result ≡ is_some (spec.root_at h page) }
    {
        self.declared.get(&page.get()).is_some()
    }

    /// The lock of the declared root with this first page, 0 to 65535; None where it has none or isn't declared.
    #[inline]
    pub fn lock_of(&self, page: Page) -> Option<u16>
        ensures { (heading : Heading) (h : List TheEvent) → Stands self.now heading h → result ≡ spec.lock_of h page }
    {
        if self.names_locks {
            self.declared_lock(page)
        } else {
            None
        }
    }

    /// The lock of the root with this first page among the declared roots; None where it has none or isn't declared.
    #[inline(never)]
    fn declared_lock(&self, page: Page) -> Option<u16>
        ensures { result ≡ option_and_then (λ (r : TheRoot). r.lock) (get nat_eq self.now.declared page) }
    {
        match self.declared.get(&page.get()) {
            Some(root) => root.lock,
            None => None,
        }
    }

    /// The PE that took the lock, 0 to 65535, last and hasn't given it back; None where it is free.
    pub fn holder_of(&self, lock: u16) -> Option<Pe>
        ensures { (heading : Heading) (h : List TheEvent) → Stands self.now heading h → result
            ≡ locks.holder_of h lock }
    {
        self.locks.holder(lock)
    }

    /// Whether the PE doesn't hold the lock.
    pub fn lacks(&self, pe: Pe, lock: u16) -> bool
        ensures { (heading : Heading) (h : List TheEvent) → Stands self.now heading h
            → result ≡ rules.lacks h pe lock }
    {
        match self.holder_of(lock) {
            Some(holder) => holder != pe,
            None => true,
        }
    }

    /// Whether the root with this first page names a lock that the PE doesn't hold: None where not, else the number
    /// `at`. Rule 2, no-lock, asks it of an `unroot` of the page, and of a write of a place in the root's tree.
    #[inline]
    pub fn without_lock(&self, pe: Pe, root: Page, at: u64) -> Option<u64>
        ensures { (heading : Heading) (h : List TheEvent) → Stands self.now heading h
            → result ≡ option_and_then (λ lock. if_so (rules.lacks h pe lock) at) (spec.lock_of h root) }
    {
        match self.lock_of(root) {
            Some(lock) => { if self.lacks(pe, lock) { Some(at) } else { None } }
            None => None,
        }
    }

    /// The number of declared roots. Each of them has a number below it.
    pub fn count(&self) -> usize
        ensures count { (heading : Heading) (h : List TheEvent) → Stands self.now heading h
            → result ≡ length (spec.roots_of h) }
        ensures each { (heading : Heading) (h : List TheEvent) (page : ℕ) (root : TheRoot) → Stands self.now heading h
            → spec.root_at h page ≡ Some root → (i : ℕ) × (i < result) × (nth_in self.now i ≡ Some root) }
    {
        self.declared.len()
    }

    /// The declared root with this number, from 0 on; None where there is none.
    pub fn nth(&self, index: usize) -> Option<Declared>
        ensures { result ≡ nth_in self.now index }
    {
        match self.declared.get_index(index) {
            Some((_, root)) => Some(*root),
            None => None,
        }
    }

    /// The tags that the root with this first page holds at any PE: none, one, or more than one.
    pub fn tags_of(&self, page: Page) -> TagSet
        ensures { (heading : Heading) (h : List TheEvent) → Stands self.now heading h
            → result ≡ tags.tag_set (tags.tags_of heading Patterns page h) }
    {
        laws_below();
        search::tags_of(&self.holds, &self.by_root, self.registers.pes, page)
    }
}
