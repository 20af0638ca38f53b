//! What a TLBI names.

use bbm_tlbi_scope::Scope;

/// What a TLBI names at its issue. Source: project's own choice.
#[derive(Clone, Copy, PartialEq, Eq)]
pub struct NamedTlbi {
    /// Its scope.
    pub scope: Scope,
    /// The VMID under which its PE issues it, 0 to 65535; None where the PE may use several.
    pub vmid: Option<u16>,
}
