//! The theorem of this crate is `law_steps`: after any list of steps the masks of a place say what the patterns of
//! break-before-make say of the steps.
//!
//! The small automaton of one place of a translation table: how far the core that it held last is out of the
//! TLBs of each PE.
//!
//! It can be used by itself, for one place, by anyone who sees the writes of the place, the DSBs and the TLBIs
//! of each PE, and who knows how far each TLBI covers the place at its issue:
//!
//! - Keep one `EntryState`, at first `EntryState::new()`, and for each issuer one `Pends`, at first
//!   `Pends::none()`.
//! - At a write of the place call `write` with the core of the value, or with None where it is invalid. Where
//!   the state is then not broken, set the pendings of each issuer to `Pends::none()`.
//! - At a TLBI call `tlbi`, and keep the result as the pendings of its issuer.
//! - At a DSB call `dsb`, then `complete` with the pendings of its issuer, and keep both results. Where the
//!   state is then not broken, set the pendings of each issuer to `Pends::none()`.
//!
//! Who keeps the marks of broken places and the pendings of their issuers can change both in place: by `Pends::note` at
//! a TLBI, and at a DSB by `Marks::answer` of what `Pends::answered` says, and then `Pends::drop_answered`;
//! `law_completes` says that this is `complete`.
//!
//! `law_steps` says what the masks then are: the sets of the PEs at which the patterns of the steps hold.
//! `break_before_make` is an example of the calls, with its proof.
#![tactic(auto)]

pub mod example;
pub mod laws;
pub mod marks;
pub mod pending;
pub mod state;

pub use example::break_before_make;
pub use laws::{law_completes, law_steps};
pub use marks::Marks;
pub use pending::{Pend, Pends};
pub use state::EntryState;
