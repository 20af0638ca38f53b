//! The lines of a certificate.

use crate::claim::Claim;

/// What a line of a certificate after its first says: a claim, or the end with the number of claim lines. Source:
/// project's own choice.
#[derive(Clone, Copy, PartialEq, Eq)]
pub enum ClaimItem {
    /// A claim line.
    Claim(Claim),
    /// The last line, with its count, 0 to 4294967295.
    End(u32),
}

/// The first word of a line of a certificate after its first: what the line says.
#[derive(Clone, Copy, PartialEq, Eq)]
pub enum CertificateWord {
    /// `c`: a claim.
    Claim,
    /// `end`: the last line.
    End,
}

/// The second word of a claim line: what is claimed.
#[derive(Clone, Copy, PartialEq, Eq)]
pub enum ClaimWord {
    /// `place`: a place is cleansed in one step.
    Place,
    /// `two`: a place is cleansed in two steps.
    Two,
    /// `tag`: a tag is taken away.
    Tag,
}

/// The word of a tag in a claim line, behind which its number stands.
#[derive(Clone, Copy, PartialEq, Eq)]
pub enum TagWord {
    /// `el2`: the tag of EL2. Its number is 0.
    El2,
    /// `vmid`: a VMID, 0 to 65535.
    Vmid,
    /// `asid`: an ASID, 0 to 65535.
    Asid,
    /// `ttbr1`: the tag of the upper range. Its number is 0.
    Ttbr1,
}
