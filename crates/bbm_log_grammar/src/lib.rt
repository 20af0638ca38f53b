//! The theorems of this crate are the contracts of `read_line` and `append_event`: they read and write what the grammar
//! says, and a refused line has its cause.
//!
//! Reads and writes the lines of a log by its grammar.
#![tactic(auto)]

mod claim_writing;
mod claims;
mod events;
mod fields;
mod headers;
pub mod line;
mod machine;
mod machine_writing;
mod numbers;
mod read_ahead;
mod readers;
pub mod spell;
mod turn;
mod values;
mod words;
pub mod write;

pub use bbm_events::{
    ClaimItem, Item, MachineLine, Malformed, law_claim_one_line, law_claim_written_is_read,
    law_machine_one_line, law_machine_written_is_read, law_one_line, law_written_is_read,
};
pub use claim_writing::{write_certificate_line, write_claim};
pub use claims::{read_certificate_line, read_claim};
pub use events::{read_event, read_line};
pub use headers::read_header;
pub use line::{LabelText, LineItem, kept_label};
pub use machine::read_machine;
pub use machine_writing::write_machine;
pub use numbers::{read_decimal, read_hex};
pub use read_ahead::{ByWord, Dsbs, Front, Isbs, Tlbis, Writes, line_ahead};
pub use spell::{add, add_decimal, add_hex, add_label};
pub use turn::{LineFault, Turn};
pub use values::page_of;
pub use words::kind_named;
pub use write::{append_event, write_event, write_header};
