//! The theorem of this crate is the contract of `Roots`: roots, registers, tags, VMIDs and locks are those of every
//! history that it stands for.
//!
//! The roots of translation tables of a log, the register values that may still be in use, the tags that each root
//! holds, and the locks: each event is judged, and then taken.
//!
//! It can be used by itself, with the operations of `bbm_tlbi_scope`, by anyone who sees which PE writes which root
//! register, and the ISBs, DSBs and TLBIs of each PE:
//!
//! - Keep one `Roots`, at first `Roots::new` of the header.
//! - At each root that comes call `prepare` and `declare`, and at each that goes `judge_unroot` and `retire`. Other
//!   rules on a `root`, as that its pages are fresh, are judged elsewhere.
//! - At each TLBI call `judge_tlbi`, `prepare_issue` and `issue_ready`.
//! - At each write of a root register call `write_reg`, at each ISB and DSB `isb` and `complete`, and at each lock that
//!   a PE takes or gives back `lock` and `unlock`. They judge and take in one.
//! - A call that is refused changes nothing. `StepFault` of `bbm_rules` says why it was; of a call that may want memory
//!   alone `NoMemory` does.
//! - `vmid_of`, `tags_of`, `lock_of`, `holder_of`, `is_root`, `is_declared`, `count` and `nth` tell what the events of
//!   the accepted calls come to.
//!
//! Each contract speaks of the events of a history, by `Stands`, in the words of `bbm_rules`. The history keeps the
//! rules, and so a call that takes an event asks no more of it than that it breaks none. `first_root` of
//! `bbm_state_tests` is an example of the calls, with its proof.
#![tactic(auto)]

mod anew;
mod by_root;
mod changing;
mod hold;
mod issue;
mod judging;
pub mod laws;
mod laws_below;
mod load;
pub mod named;
mod pending;
mod reading;
mod registers;
mod root;
mod roots;
mod search;
mod standing;
mod tag_key;
mod vmid;
mod writing;

pub use laws::{law_barriers, law_others};
pub use named::NamedTlbi;
pub use root::Declared;
pub use roots::Roots;
