//! The words of a log: of each kind of word a table from a value to its word, and a list of its values.

ghost use Rattle.std.specs.Prelude.{◌≡◌, ℕ, List};
ghost use Rattle.bbm_events.specs.Certificate as certificate;
ghost use Rattle.bbm_events.specs.Machine as machine;
ghost use Rattle.bbm_events.specs.Words as words;

use bbm_barriers::{Domain, Dsb, Types};
use bbm_events::{CertificateWord, ClaimWord, Keyword, MachineWord, TagWord, WorldWord};
use bbm_regimes::{AsidFrom, Kind, Reg};
use bbm_tlbi_scope::TlbiOp;

/// What a word of a log stands for.
pub(crate) trait Worded: Copy {
    /// The word of a value.
    ghost word_of: { Self → List ℕ };

    /// The word of this value.
    fn word(self) -> &'static [u8]
        ensures { result.now ≡ word_of self };
}

/// The value, among these, whose word the field is.
pub(crate) fn named<T: Worded>(values: &[T], field: &[u8]) -> Option<T>
    ensures { result ≡ words.with_word T.word_of values.now field.now }
{
    values.iter().copied().find(|value| value.word() == field)
}

/// The first words of event lines.
pub(crate) const KEYWORDS: [Keyword; 13] = [
    Keyword::Init,
    Keyword::Null,
    Keyword::Root,
    Keyword::Unroot,
    Keyword::Write,
    Keyword::Dsb,
    Keyword::Dmb,
    Keyword::Isb,
    Keyword::Tlbi,
    Keyword::Msr,
    Keyword::Lock,
    Keyword::Unlock,
    Keyword::End,
];

impl Worded for Keyword {
    ghost word_of = { words.keyword_word };

    fn word(self) -> &'static [u8] {
        match self {
            Keyword::Init => b"init",
            Keyword::Null => b"null",
            Keyword::Root => b"root",
            Keyword::Unroot => b"unroot",
            Keyword::Write => b"w",
            Keyword::Dsb => b"dsb",
            Keyword::Dmb => b"dmb",
            Keyword::Isb => b"isb",
            Keyword::Tlbi => b"tlbi",
            Keyword::Msr => b"msr",
            Keyword::Lock => b"lock",
            Keyword::Unlock => b"unlock",
            Keyword::End => b"end",
        }
    }
}

/// The words of steps.
pub(crate) const MACHINE_WORDS: [MachineWord; 5] = [
    MachineWord::Start,
    MachineWord::Extend,
    MachineWord::Combine,
    MachineWord::Share,
    MachineWord::Drop,
];

impl Worded for MachineWord {
    ghost word_of = { machine.machine_word };

    fn word(self) -> &'static [u8] {
        match self {
            MachineWord::Start => b"start",
            MachineWord::Extend => b"extend",
            MachineWord::Combine => b"combine",
            MachineWord::Share => b"share",
            MachineWord::Drop => b"drop",
        }
    }
}

/// The first words of lines of a certificate.
pub(crate) const CERTIFICATE_WORDS: [CertificateWord; 2] = [
    CertificateWord::Claim,
    CertificateWord::End,
];

impl Worded for CertificateWord {
    ghost word_of = { certificate.certificate_word };

    fn word(self) -> &'static [u8] {
        match self {
            CertificateWord::Claim => b"c",
            CertificateWord::End => b"end",
        }
    }
}

/// The words of claims.
pub(crate) const CLAIM_WORDS: [ClaimWord; 3] = [ClaimWord::Place, ClaimWord::Two, ClaimWord::Tag];

impl Worded for ClaimWord {
    ghost word_of = { certificate.claim_word };

    fn word(self) -> &'static [u8] {
        match self {
            ClaimWord::Place => b"place",
            ClaimWord::Two => b"two",
            ClaimWord::Tag => b"tag",
        }
    }
}

/// The words of tags.
pub(crate) const TAG_WORDS: [TagWord; 4] = [
    TagWord::El2,
    TagWord::Vmid,
    TagWord::Asid,
    TagWord::Ttbr1,
];

impl Worded for TagWord {
    ghost word_of = { certificate.tag_word };

    fn word(self) -> &'static [u8] {
        match self {
            TagWord::El2 => b"el2",
            TagWord::Vmid => b"vmid",
            TagWord::Asid => b"asid",
            TagWord::Ttbr1 => b"ttbr1",
        }
    }
}

/// The worlds of headers.
pub(crate) const WORLDS: [WorldWord; 2] = [WorldWord::Hyp, WorldWord::Kernel];

impl Worded for WorldWord {
    ghost word_of = { words.world_word };

    fn word(self) -> &'static [u8] {
        match self {
            WorldWord::Hyp => b"hyp",
            WorldWord::Kernel => b"kernel",
        }
    }
}

/// Whether TLBs are shared.
pub(crate) const CNPS: [bool; 2] = [true, false];

impl Worded for bool {
    ghost word_of = { words.cnp_word };

    fn word(self) -> &'static [u8] {
        match self {
            true => b"cnp",
            false => b"-",
        }
    }
}

/// The kinds of roots.
pub(crate) const KINDS: [Kind; 4] = [Kind::El2, Kind::S2, Kind::Ttbr0, Kind::Ttbr1];

impl Worded for Kind {
    ghost word_of = { words.kind_word };

    fn word(self) -> &'static [u8] {
        match self {
            Kind::El2 => b"el2",
            Kind::S2 => b"s2",
            Kind::Ttbr0 => b"ttbr0",
            Kind::Ttbr1 => b"ttbr1",
        }
    }
}

/// The kind of a root whose word the field is. None where it is no such word. Source: project's own choice of the
/// words.
pub fn kind_named(field: &[u8]) -> Option<Kind>
    ensures { result ≡ words.with_word words.kind_word words.kinds field.now }
{
    named(&KINDS, field)
}

/// The registers, the usual ones first.
pub(crate) const REGS: [Reg; 4] = [Reg::Ttbr0El1, Reg::VttbrEl2, Reg::Ttbr1El1, Reg::Ttbr0El2];

impl Worded for Reg {
    ghost word_of = { words.reg_word };

    fn word(self) -> &'static [u8] {
        match self {
            Reg::Ttbr0El2 => b"ttbr0_el2",
            Reg::VttbrEl2 => b"vttbr_el2",
            Reg::Ttbr0El1 => b"ttbr0_el1",
            Reg::Ttbr1El1 => b"ttbr1_el1",
        }
    }
}

/// The registers that may name the current ASID.
pub(crate) const ASID_FROMS: [AsidFrom; 2] = [AsidFrom::Ttbr0, AsidFrom::Ttbr1];

impl Worded for AsidFrom {
    ghost word_of = { words.asid_from_word };

    fn word(self) -> &'static [u8] {
        match self {
            AsidFrom::Ttbr0 => b"ttbr0",
            AsidFrom::Ttbr1 => b"ttbr1",
        }
    }
}

/// The options of barriers.
pub(crate) const DSBS: [Dsb; 12] = [
    Dsb {
        domain: Domain::Full,
        types: Types::All,
    },
    Dsb {
        domain: Domain::Full,
        types: Types::Stores,
    },
    Dsb {
        domain: Domain::Full,
        types: Types::Loads,
    },
    Dsb {
        domain: Domain::Inner,
        types: Types::All,
    },
    Dsb {
        domain: Domain::Inner,
        types: Types::Stores,
    },
    Dsb {
        domain: Domain::Inner,
        types: Types::Loads,
    },
    Dsb {
        domain: Domain::Outer,
        types: Types::All,
    },
    Dsb {
        domain: Domain::Outer,
        types: Types::Stores,
    },
    Dsb {
        domain: Domain::Outer,
        types: Types::Loads,
    },
    Dsb {
        domain: Domain::Non,
        types: Types::All,
    },
    Dsb {
        domain: Domain::Non,
        types: Types::Stores,
    },
    Dsb {
        domain: Domain::Non,
        types: Types::Loads,
    },
];

impl Worded for Dsb {
    ghost word_of = { words.dsb_word };

    fn word(self) -> &'static [u8] {
        match (self.domain, self.types) {
            (Domain::Full, Types::All) => b"sy",
            (Domain::Full, Types::Stores) => b"st",
            (Domain::Full, Types::Loads) => b"ld",
            (Domain::Inner, Types::All) => b"ish",
            (Domain::Inner, Types::Stores) => b"ishst",
            (Domain::Inner, Types::Loads) => b"ishld",
            (Domain::Outer, Types::All) => b"osh",
            (Domain::Outer, Types::Stores) => b"oshst",
            (Domain::Outer, Types::Loads) => b"oshld",
            (Domain::Non, Types::All) => b"nsh",
            (Domain::Non, Types::Stores) => b"nshst",
            (Domain::Non, Types::Loads) => b"nshld",
        }
    }
}

/// The operations of TLBIs.
pub(crate) const OPS: [TlbiOp; 42] = [
    TlbiOp::Alle2,
    TlbiOp::Alle2is,
    TlbiOp::Vae2,
    TlbiOp::Vae2is,
    TlbiOp::Vale2,
    TlbiOp::Vale2is,
    TlbiOp::Alle1,
    TlbiOp::Alle1is,
    TlbiOp::Vmalle1,
    TlbiOp::Vmalle1is,
    TlbiOp::Vmalls12e1,
    TlbiOp::Vmalls12e1is,
    TlbiOp::Ipas2e1,
    TlbiOp::Ipas2e1is,
    TlbiOp::Ipas2le1,
    TlbiOp::Ipas2le1is,
    TlbiOp::Vae1,
    TlbiOp::Vae1is,
    TlbiOp::Vale1,
    TlbiOp::Vale1is,
    TlbiOp::Vaae1,
    TlbiOp::Vaae1is,
    TlbiOp::Vaale1,
    TlbiOp::Vaale1is,
    TlbiOp::Aside1,
    TlbiOp::Aside1is,
    TlbiOp::Rvae2,
    TlbiOp::Rvae2is,
    TlbiOp::Rvale2,
    TlbiOp::Rvale2is,
    TlbiOp::Ripas2e1,
    TlbiOp::Ripas2e1is,
    TlbiOp::Ripas2le1,
    TlbiOp::Ripas2le1is,
    TlbiOp::Rvae1,
    TlbiOp::Rvae1is,
    TlbiOp::Rvale1,
    TlbiOp::Rvale1is,
    TlbiOp::Rvaae1,
    TlbiOp::Rvaae1is,
    TlbiOp::Rvaale1,
    TlbiOp::Rvaale1is,
];

impl Worded for TlbiOp {
    ghost word_of = { words.op_word };

    fn word(self) -> &'static [u8] {
        match self {
            TlbiOp::Alle2 => b"alle2",
            TlbiOp::Alle2is => b"alle2is",
            TlbiOp::Vae2 => b"vae2",
            TlbiOp::Vae2is => b"vae2is",
            TlbiOp::Vale2 => b"vale2",
            TlbiOp::Vale2is => b"vale2is",
            TlbiOp::Alle1 => b"alle1",
            TlbiOp::Alle1is => b"alle1is",
            TlbiOp::Vmalle1 => b"vmalle1",
            TlbiOp::Vmalle1is => b"vmalle1is",
            TlbiOp::Vmalls12e1 => b"vmalls12e1",
            TlbiOp::Vmalls12e1is => b"vmalls12e1is",
            TlbiOp::Ipas2e1 => b"ipas2e1",
            TlbiOp::Ipas2e1is => b"ipas2e1is",
            TlbiOp::Ipas2le1 => b"ipas2le1",
            TlbiOp::Ipas2le1is => b"ipas2le1is",
            TlbiOp::Vae1 => b"vae1",
            TlbiOp::Vae1is => b"vae1is",
            TlbiOp::Vale1 => b"vale1",
            TlbiOp::Vale1is => b"vale1is",
            TlbiOp::Vaae1 => b"vaae1",
            TlbiOp::Vaae1is => b"vaae1is",
            TlbiOp::Vaale1 => b"vaale1",
            TlbiOp::Vaale1is => b"vaale1is",
            TlbiOp::Aside1 => b"aside1",
            TlbiOp::Aside1is => b"aside1is",
            TlbiOp::Rvae2 => b"rvae2",
            TlbiOp::Rvae2is => b"rvae2is",
            TlbiOp::Rvale2 => b"rvale2",
            TlbiOp::Rvale2is => b"rvale2is",
            TlbiOp::Ripas2e1 => b"ripas2e1",
            TlbiOp::Ripas2e1is => b"ripas2e1is",
            TlbiOp::Ripas2le1 => b"ripas2le1",
            TlbiOp::Ripas2le1is => b"ripas2le1is",
            TlbiOp::Rvae1 => b"rvae1",
            TlbiOp::Rvae1is => b"rvae1is",
            TlbiOp::Rvale1 => b"rvale1",
            TlbiOp::Rvale1is => b"rvale1is",
            TlbiOp::Rvaae1 => b"rvaae1",
            TlbiOp::Rvaae1is => b"rvaae1is",
            TlbiOp::Rvaale1 => b"rvaale1",
            TlbiOp::Rvaale1is => b"rvaale1is",
        }
    }
}
