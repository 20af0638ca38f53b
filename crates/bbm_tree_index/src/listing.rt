//! The pages of a survey, with the kind and the level at which each is read.

ghost use Rattle.std.specs.Prelude.{◌≡◌, ◌∷◌, ◌++◌, ◌↔◌, [], ℕ, Some, Contains, length, nat_eq, slice_get, IfOk, OnOk};
ghost use Rattle.indexmap.specs.IndexMap.{get};
ghost use Rattle.bbm_tree_index.specs.Listing.{Adds, ListedAt, ListedIn, listed_by};
ghost use Rattle.bbm_tree_index.specs.Spots.{RoleFits};
ghost use Rattle.bbm_tree_index.specs.Survey.{Well};
ghost use Rattle.bbm_tree_index.specs.declared.standing.AttachedPage.{AttachedPage as TheAttached};

use crate::mark::Mark;
use crate::spot::spot_of;
use crate::standing::AttachedPage;
use crate::survey::entry_at;
use bbm_events::Header;
use bbm_regimes::{NoMemory, Page};
use indexmap::IndexMap;
use std::alloc::Global;

/// Adds a page at the end.
fn push_page(pages: &mut Vec<AttachedPage>, attached: AttachedPage) -> Result<(), NoMemory>
    ensures { OnOk result (pages.new.items ≡ pages.old.items ++ attached ∷ []) }
{
    pages.push(attached).map_err(|_| NoMemory)
}

/// Adds a page that is reached so.
fn list_page(
    header: &Header,
    page: Page,
    mark: &Mark,
    pages: &mut Vec<AttachedPage>,
) -> Result<(), NoMemory>
    requires { RoleFits header.now mark.now.role }
    ensures { OnOk result
        (Adds (λ a. listed_by header.now page mark.now.role ≡ Some a) pages.old.items pages.new.items) }
{
    match spot_of(header, &mark.role) {
        Some(spot) => {
            let standing = spot.standing();
            push_page(pages, AttachedPage { page, standing })
        }
        None => Ok(()),
    }
}

/// Adds the pages of a level.
fn list_level(
    header: &Header,
    level: &IndexMap<u64, Mark>,
    pages: &mut Vec<AttachedPage>,
) -> Result<(), NoMemory>
    requires { Well header.now (get nat_eq level.now) }
    ensures { OnOk result (Adds (ListedIn header.now level.now) pages.old.items pages.new.items) }
{
    for index in 0..level.len() {
        let (page, mark) = entry_at(level, index);
        list_page(header, page, &mark, pages)?;
    }
    Ok(())
}

/// The pages of all levels.
pub fn list_levels(
    alloc: Global,
    header: &Header,
    tables: &[IndexMap<u64, Mark>],
) -> Result<Vec<AttachedPage>, NoMemory>
    requires { (k : ℕ) → (table : _) → slice_get tables.now k ≡ Some table → Well header.now (get nat_eq table) }
    ensures { IfOk result (λ pages. (a : TheAttached) → Contains pages.items a
        ↔ ListedAt header.now tables.now (length tables.now) a) }
{
    let mut pages = Vec::new(alloc);
    for index in 0..tables.len() {
        list_level(header, &tables[index], &mut pages)?;
    }
    Ok(pages)
}
