//! The theorem of this crate is `law_cover_takes`: a TLBI that covers a place in full takes each entry that was read
//! through it.
//!
//! TLBI operations: what each decodes to, which TLB entries it takes, and which places it covers.
#![tactic(auto)]

pub mod covering;
pub mod decoding;
pub mod entry;
pub mod laws;
pub mod op;
pub mod operand;
pub mod scope;
pub mod tag_set;
pub mod taking;

pub use covering::{cover, top_cover, where_fits};
pub use decoding::decode;
pub use entry::{Cover, EntryHead, EntryKind, PlaceView, TagSet};
pub use laws::{
    law_cover_takes, law_range, law_taken_is_covered, law_top_takes, law_whole_tag_takes,
};
pub use op::TlbiOp;
pub use scope::{BadOperand, Family, Scope, lacks_vmid};
pub use tag_set::with_tag;
pub use taking::{takes, whole_tag};
