//! Values of pages, by their numbers.
//! Source: project's own choice.

ghost use Rattle.std.specs.Prelude.{◌≡◌, ◌<◌, ◌++◌, ◌∷◌, [], ℕ, Some, None, IsOk, OnOk, nat_eq, slice_get};
ghost use Rattle.std.specs.Prelude.{if◌then◌else◌};
ghost use Rattle.indexmap.specs.IndexMap.{get, index_map_len, keys, spare};
ghost use Rattle.indexmap.specs.IndexMap.{IsEmpty, IsUnchanged, IsUnique};

use crate::number::PageNumber;
use bbm_regimes::{NoMemory, Page};
use std::alloc::Global;
use std::marker::Model;

/// A value for each page, in the order of their numbers. Contracts see it as they see an `IndexMap`.
#[derive(Drop)]
pub struct PageColumn<V> {
    entries: Vec<(Page, V)>,
}

impl<V> Model for PageColumn<V> {
    ghost use Rattle.std.specs.Prelude.{if◌then◌else◌, nat_eq, nat_lt, vec_len, vec_capacity};
    ghost use Rattle.std.specs.List.{IsDistinct};
    ghost use Rattle.std.specs.Map.{keys_of};
    ghost use Rattle.indexmap.specs.Layout.{hash_map, hash_map_code};
    ghost use Rattle.bbm_page_map.specs.PageLists.{PageMapValue};
    ghost use base.Stored.{coded_ℕ, coded_unit};

    ghost Value = { PageMapValue V };

    ghost coded = { hash_map_code coded_ℕ V.code coded_unit };

    ghost view = { λ m. hash_map m.entries.items tt
        (if nat_lt (vec_len m.entries) (vec_capacity m.entries) then 1 else 0) };

    ghost invariant = { λ m. IsDistinct nat_eq (keys_of m.entries.items) };
}

impl<V> PageColumn<V> {
    /// No page. It takes no memory yet.
    pub fn new(alloc: Global) -> PageColumn<V>
        ensures empty { IsEmpty result }
        ensures none { (page : ℕ) → get nat_eq result page ≡ None }
    {
        PageColumn {
            entries: Vec::new(alloc),
        }
    }

    /// The number of pages.
    pub fn len(&self) -> usize
        ensures len { result ≡ index_map_len self.now }
        ensures unique { IsUnique nat_eq self.now }
    {
        self.entries.len()
    }

    /// The page that stands at an index, and its value.
    #[inline(always)]
    pub fn at(&self, index: usize) -> (Page, &V)
        requires { index < index_map_len self.now }
        ensures at { slice_get (keys self.now) index ≡ Some result.0 }
        ensures value { get nat_eq self.now result.0 ≡ Some result.1.now }
    {
        let entry = &self.entries[index];
        (entry.0, &entry.1)
    }

    /// Makes room for a further page. `NoMemory` where there is none. The pages and their values stay.
    pub fn reserve(&mut self) -> Result<(), NoMemory>
        ensures room { OnOk result (0 < spare self.new) }
        ensures entries { IsUnchanged self.old self.new }
    {
        self.entries.reserve(1).map_err(|_| NoMemory)
    }

    /// Adds a page that isn't there, with its value, where there is room for it.
    pub fn push(&mut self, page: Page, value: V)
        requires absent { get nat_eq self.old page ≡ None }
        requires room { 0 < spare self.old }
        ensures updates { (q : ℕ) → get nat_eq self.new q
            ≡ (if nat_eq page q then Some value else get nat_eq self.old q) }
        ensures keys { keys self.new ≡ keys self.old ++ page ∷ [] }
    {
        self.entries.push_reserved((page, value));
    }
}

impl<V: Drop> PageColumn<V> {
    /// Gives the page that stands at an index another value.
    pub fn put(&mut self, index: usize, value: V)
        requires { index < index_map_len self.old }
        ensures updates { (page : ℕ) → slice_get (keys self.old) index ≡ Some page → (q : ℕ) → get nat_eq self.new q
            ≡ (if nat_eq page q then Some value else get nat_eq self.old q) }
        ensures keys { keys self.new ≡ keys self.old }
    {
        self.entries[index].1 = value;
    }
}
