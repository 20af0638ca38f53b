//! The theorem of this crate is the contract of `PlaceMap`: each call changes the values, marks and pendings of the
//! places that it names, and of no others.
//!
//! A total map from places of translation tables to their values, and of the broken ones among them to their marks and
//! to what waits for the answers of each issuer's TLBIs.
//!
//! It can be used by itself by anyone who sees the writes, DSBs and TLBIs of a log, and who knows which pages are in
//! trees and how far each TLBI covers a place:
//!
//! - Keep one `PlaceMap`, at first `PlaceMap::new`, and call `track` for each page of descriptors, whose values are 0
//!   then.
//! - At a write call `state`, with the core of the value that the place has, or with None where that is invalid or the
//!   page is in no tree. Call `write` of that state, with the core of the new value, and `set` with its result. Both
//!   look the page up. Where it is tracked, `position` does so once for `value_of`, `live_at`, `core_at` and `write_at`,
//!   which makes the new state by itself; so does `find`, quickest where writes follow one another in a page. At a place
//!   that isn't broken (`is_broken_at`) `put_at` and `break_at` do what `write_at` does.
//! - At a TLBI call `issue_all`, with how far it covers each of the broken places. Where the few places that it can
//!   cover are known call `issue_at` with these.
//! - At a DSB call `publish`, then `complete`. They visit the places where the DSB may change something, seldom all.
//!   `lost_page` tells then, by numbers below `lost_len`, the next pages of the tables that places lost.
//! - Where a page leaves its tree call `release`.
//! - Where all places of a page are asked, `is_blank` tells whether there is anything. From the position of the page's
//!   first place, `first_position`, `value_from` reads the value of each, and `core_from` a core, without a look-up.
//!
//! `restless` and `restless_at` list the broken places, `restless_core` tells what each is broken over,
//! `restless_position` where it is kept, and `restless_number` the number of a position's place. Each page has a number,
//! from 0 on in the order in which pages were tracked (`number`), which a position has too. What others know of pages
//! can stand by these numbers. Each contract says of every place what it is after the call.
#![tactic(auto)]

mod broken;
mod entries;
mod entry;
mod found;
mod issue;
mod lane;
mod map;
mod orders;
mod position;
mod read;
mod visit;
mod work;
mod write;

pub use found::{Answer, Found};
pub use map::PlaceMap;
pub use position::Position;
