//! Which tags each root may hold.
//! Source: project's own choice.

ghost use Rattle.std.specs.Prelude.{◌≡◌, ℕ, nat_eq, true, false, is_some, OnOk};
ghost use Rattle.indexmap.specs.IndexMap.{get};
ghost use Rattle.bbm_roots.specs.Holds.{tag_key as key_of};
ghost use Rattle.bbm_roots.specs.TagsByRoot as spec;

use crate::tag_key::TagKey;
use bbm_regimes::{NoMemory, Page, Tag};
use indexmap::IndexMap;
use std::alloc::Global;

/// Tags, by their keys.
pub type Tags = IndexMap<TagKey, Tag>;

/// The tags that each root may hold, by its first page. What it holds is among them.
pub type ByRoot = IndexMap<u64, Tags>;

/// Adds the tag.
fn add(tags: &mut Tags, tag: Tag) -> Result<(), NoMemory>
    ensures kept { (q : ℕ) → is_some (get nat_eq tags.old q) ≡ true → is_some (get nat_eq tags.new q) ≡ true }
    ensures added { OnOk result (is_some (get nat_eq tags.new (key_of tag)) ≡ true) }
{
    match tags.insert(TagKey::new(tag), tag) {
        Ok(_) => Ok(()),
        Err(_) => Err(NoMemory),
    }
}

/// Gives the root tags, at first none, where it has no entry.
fn open(by_root: &mut ByRoot, alloc: Global, root: Page) -> Result<(), NoMemory>
    ensures kept { spec.ListsMore by_root.old by_root.new }
    ensures there { OnOk result (is_some (get nat_eq by_root.new root) ≡ true) }
{
    let page = root.get();
    if by_root.contains_key(&page) {
        return Ok(());
    }
    match by_root.insert(page, IndexMap::new(alloc)) {
        Ok(_) => Ok(()),
        Err(_) => Err(NoMemory),
    }
}

/// Adds the tag to those of a root with an entry.
fn add_to(by_root: &mut ByRoot, tag: Tag, root: Page) -> Result<(), NoMemory>
    requires { is_some (get nat_eq by_root.old root) ≡ true }
    ensures kept { spec.ListsMore by_root.old by_root.new }
    ensures listed { OnOk result (spec.is_listed by_root.new root (key_of tag) ≡ true) }
{
    match by_root.get_mut(&root.get()) {
        Some(tags) => add(tags, tag),
        None => Ok(()),
    }
}

/// Adds the tag to those that the root may hold. `NoMemory` where there is none. What a root may hold it still may.
pub fn list(by_root: &mut ByRoot, alloc: Global, tag: Tag, root: Page) -> Result<(), NoMemory>
    ensures kept { spec.ListsMore by_root.old by_root.new }
    ensures listed { OnOk result (spec.is_listed by_root.new root (key_of tag) ≡ true) }
{
    open(by_root, alloc, root)?;
    add_to(by_root, tag, root)
}

/// Takes the tag with the key out of those that the root may hold. No other tag is taken out.
pub fn unlist(by_root: &mut ByRoot, key: TagKey, root: Page)
    ensures { (r k : ℕ) → nat_eq key k ≡ false → spec.is_listed by_root.old r k ≡ true
        → spec.is_listed by_root.new r k ≡ true }
{
    match by_root.get_mut(&root.get()) {
        Some(tags) => {
            tags.swap_remove(&key);
        }
        None => {}
    }
}
