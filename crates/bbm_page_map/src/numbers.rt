//! The pages and their numbers.
//! Source: project's own choice, where no other is named.

ghost use Rattle.std.specs.Prelude.{◌≡◌, ◌<◌, ◌^◌, ◌++◌, ◌∷◌, [], ◌≤◌, ℕ, None, OnOk, OnErr, length, vec_len, vec_capacity};
ghost use Rattle.bbm_page_map.specs.PageLists.{number_in};
ghost use Rattle.bbm_page_map.specs.SlotNodes.{HasSlots, IsTree, slot};

use crate::nodes::{
    BASE, DEPTH, LastNode, NODE_SLOTS, find, node_for, node_of, put_number, reserve_slots, step,
};
use crate::number::PageNumber;
use bbm_regimes::{NoMemory, PAGE_BYTES, Page};
use std::alloc::Global;
use std::marker::Model;

/// The number of pages that may have numbers.
const MAX_PAGES: usize = 1 << 22;

/// Pages, each with its number. Contracts see the list of the pages, in the order of their numbers.
#[derive(Drop)]
pub struct PageNumbers {
    pages: Vec<Page>,
    slots: Vec<u32>,
    last: LastNode,
    recent: Option<(Page, PageNumber)>,
}

impl Model for PageNumbers {
    ghost use Rattle.std.specs.Prelude.{List, ℕ};
    ghost use Rattle.bbm_page_map.specs.PageLists.{IsNumbering};

    ghost Value = { List ℕ };

    ghost view = { λ m. m.pages.items };

    ghost invariant = { λ m. IsNumbering m.slots.items m.pages.items m.last m.recent };
}

/// Makes room for a further page and for the nodes that it may take. `NoMemory` where there is none, and where 2^22 pages
/// have numbers.
fn reserve(pages: &mut Vec<Page>, slots: &mut Vec<u32>) -> Result<(), NoMemory>
    requires { IsTree slots.old.items }
    ensures room { OnOk result (vec_len pages.new < vec_capacity pages.new) }
    ensures few { OnOk result (vec_len pages.new < 2 ^ 22) }
    ensures pages { pages.new.items ≡ pages.old.items }
    ensures nodes { OnOk result (HasSlots slots.new) }
    ensures tree { IsTree slots.new.items }
    ensures slots { (i : ℕ) → slot slots.new.items i ≡ slot slots.old.items i }
{
    if pages.len() >= MAX_PAGES {
        return Err(NoMemory);
    }
    pages.reserve(1)?;
    reserve_slots(slots)
}

impl PageNumbers {
    /// No page. It takes no memory yet.
    pub fn new(alloc: Global) -> PageNumbers
        ensures { result ≡ [] }
    {
        PageNumbers {
            pages: Vec::new(alloc),
            slots: Vec::new(alloc),
            last: LastNode { prefix: 0, node: 0 },
            recent: None,
        }
    }

    /// The number of the page; None where it has none.
    #[inline(always)]
    pub fn number(&self, page: Page) -> Option<PageNumber>
        ensures { result ≡ number_in self.now page }
    {
        PageNumber::of_slot(find(&self.slots, &self.last, page.get() / PAGE_BYTES))
    }

    /// The number of the page; None where it has none. The page that was found last in this way takes the fewest steps.
    #[inline(always)]
    pub fn find(&mut self, page: Page) -> Option<PageNumber>
        ensures number { result ≡ number_in self.old page }
        ensures same { self.new ≡ self.old }
    {
        if let Some((found, number)) = self.recent {
            if found == page {
                return Some(number);
            }
        }
        let number = self.find_by_digits(page)?;
        self.recent = Some((page, number));
        Some(number)
    }

    /// `number`, which keeps the last node on the way to the page.
    #[inline(always)]
    fn find_by_digits(&mut self, page: Page) -> Option<PageNumber>
        ensures number { result ≡ number_in self.old page }
        ensures same { self.new ≡ self.old }
    {
        let number = page.get() / PAGE_BYTES;
        if self.slots.is_empty() {
            return None;
        }
        let prefix = number / BASE;
        let node = node_of(&self.slots, &self.last, prefix);
        self.last = LastNode { prefix, node };
        PageNumber::of_slot(step(&self.slots, node, number))
    }

    /// Gives a page that has no number the next one. `NoMemory` where there is none, and where 2^22 pages have numbers;
    /// then nothing changes.
    pub fn add(&mut self, page: Page) -> Result<(), NoMemory>
        requires { number_in self.old page ≡ None }
        ensures added { OnOk result (self.new ≡ self.old ++ page ∷ []) }
        ensures few { OnOk result (length self.new ≤ 2 ^ 22) }
        ensures same { OnErr result (self.new ≡ self.old) }
    {
        reserve(&mut self.pages, &mut self.slots)?;
        let number = page.get() / PAGE_BYTES;
        let prefix = number / BASE;
        let node = node_for(&mut self.slots, DEPTH, prefix);
        let at = NODE_SLOTS * node as usize + (number % BASE) as usize;
        put_number(&mut self.slots, at, self.pages.len() as u32 + 1);
        self.pages.push_reserved(page);
        self.last = LastNode { prefix, node };
        Ok(())
    }
}
