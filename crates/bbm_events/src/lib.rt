//! The theorem of this crate is `law_one_line`: no line but the one that is written of an item is read as it.
//!
//! A log's header, its events, and the grammar that leads from a line to its item and back.
#![tactic(auto)]

pub mod certificate;
pub mod claim;
pub mod event;
pub mod fitting;
pub mod header;
pub mod header_words;
pub mod keyword;
pub mod label;
pub mod laws;
pub mod machine;
pub mod malformed;
pub mod roots;

pub use certificate::{CertificateWord, ClaimItem, ClaimWord, TagWord};
pub use claim::Claim;
pub use event::{Event, Item};
pub use fitting::{fits, has_op, nulls_everywhere};
pub use header::Header;
pub use header_words::{HeaderWords, NO_WORDS, WorldWord};
pub use keyword::Keyword;
pub use label::Label;
pub use laws::{
    law_claim_causes, law_claim_fits, law_claim_one_line, law_claim_written_is_a_line,
    law_claim_written_is_read, law_header_causes, law_header_in_range, law_item_causes,
    law_item_fits, law_machine_causes, law_machine_fits, law_machine_one_line,
    law_machine_written_is_a_line, law_machine_written_is_read, law_one_line,
    law_written_is_a_line, law_written_is_read,
};
pub use machine::{MachineLine, MachineWord};
pub use malformed::Malformed;
pub use roots::{input_pages, regions_in};
