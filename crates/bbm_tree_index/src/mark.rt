//! How the pages of a level are reached.

ghost use Rattle.std.specs.Prelude.{◌≡◌, ◌==◌, ◌<◌, ◌%◌, ◌^◌, ℕ, Some, nat_eq, OnOk, if◌then◌else◌};
ghost use Rattle.indexmap.specs.IndexMap.{get};
ghost use Rattle.bbm_tree_index.specs.Survey.{joined};

use crate::role::Role;
use bbm_regimes::{NoMemory, PAGE_BYTES, Page};
use indexmap::IndexMap;

/// How a page is reached: the role that it has by the first path that was found, and whether there are others.
#[derive(Clone, Copy)]
pub struct Mark {
    /// The role.
    pub role: Role,
    /// Whether more than one path leads to the page.
    pub many: bool,
}

/// Notes one more path to the page.
pub fn add(table: &mut IndexMap<u64, Mark>, page: Page, mark: &Mark) -> Result<(), NoMemory>
    ensures below { page < 2 ^ 48 }
    ensures aligned { page % PAGE_BYTES ≡ 0 }
    ensures marks { OnOk result ((q : ℕ) → get nat_eq table.new q
        ≡ (if q == page then Some (joined (get nat_eq table.old page) mark.now) else get nat_eq table.old q)) }
{
    let new = match table.get(&page.get()) {
        Some(old) => Mark {
            role: old.role,
            many: true,
        },
        None => *mark,
    };
    match table.insert(page.get(), new) {
        Ok(_) => Ok(()),
        Err(_) => Err(NoMemory),
    }
}
