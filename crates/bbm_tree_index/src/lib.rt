//! The theorem of this crate is the contract of `TreeIndex`: what is in the trees, fresh or null after each call.
//!
//! The trees of translation tables of a log: what each page is used for, and where it hangs. It stands beside a
//! `PlaceMap`, which keeps the values of the places and which of them are broken.
//!
//! It can be used by itself, with the map, by anyone who sees which pages are tracked and which leave their trees:
//!
//! - Keep one `TreeIndex`, at first `TreeIndex::new` of the header, and one `PlaceMap`.
//! - Call `track` at each page that is initialised, `nullify` at each that is declared null, `prune` after the map's
//!   `complete` of a DSB, and `detach` where a root goes.
//! - `prepare` tells whether pages can be attached, and which page or place is in the way; `attach_prepared` attaches
//!   them. `attached_pages` lists the pages between the two, with the kind and the level at which each is read.
//! - `role`, `is_fresh`, `is_null`, `is_in_tree`, `pages`, `path` and `in_limbo` tell what the calls come to. `path`
//!   takes the position of a place in the map, and `is_childless` its path.
//!   `place_translating` tells where one goes on the way down along an input page; from there `place_below` does so
//!   level by level, and looks nothing up.
//! - Where something is kept beside the index for each page that was ever tracked, `standing` takes the number of a
//!   page and tells the kind and the level at which it is read.
//!
//! The index has each page by the number that the map gave it. So each call takes the map to which all calls were told
//! (`SharesNumbers`).
//!
//! Each contract speaks of the node of each page, by the words of `specs/Index.antt`.
#![tactic(auto)]

mod attach_prepared;
mod below;
mod climb;
mod fault;
mod harmless;
mod held;
mod index;
mod judge;
mod leaving;
mod listing;
mod mark;
mod role;
mod spot;
mod standing;
mod start;
mod survey;
mod table;

pub use below::place_below;
pub use fault::TreeFault;
pub use held::next_of;
pub use index::{Prepared, TreeIndex};
pub use judge::lesser_page;
pub use role::{Attach, Path, Role};
pub use spot::is_childless;
pub use standing::{AttachedPage, Standing};
