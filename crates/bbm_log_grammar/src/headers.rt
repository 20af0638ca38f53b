//! The first line.

ghost use Rattle.std.specs.Prelude.{◌≡◌, ◌&&◌, ◌||◌, not, true, Some, None, IfOk, IfErr, IfSome};
ghost use Rattle.bbm_regimes.specs.declared.regime.World.TheVariants.{Hyp, Kernel};
ghost use Rattle.bbm_regimes.specs.World.{world_ok};
ghost use Rattle.bbm_regimes.specs.declared.regime.World.{World as TheWorld};
ghost use Rattle.bbm_events.specs.Causes.{IsHeaderCause};
ghost use Rattle.bbm_events.specs.Heading as heading;
ghost use Rattle.bbm_events.specs.declared.header_words.WorldWord.TheVariants as word;
ghost use Rattle.bbm_events.specs.Lines.{header_of};
ghost use Rattle.bbm_events.specs.Codec as codec;
ghost use Rattle.bbm_events.specs.Lines as lines;

use crate::fields::{Fields, found};
use crate::values::version_of;
use crate::words::{ASID_FROMS, CNPS, WORLDS};
use bbm_events::{Header, HeaderWords, Malformed, NO_WORDS, WorldWord, law_header_causes};
use bbm_regimes::{AsidFrom, HypWorld, KernelWorld, Level, World};

/// A number of the header.
fn number_field<'a>(fields: Fields<'a>) -> Result<(u64, Fields<'a>), Malformed>
    ensures { result ≡ lines.number_field.read fields.entry }
{
    fields.decimal_or(Malformed::BadHeader, Malformed::BadHeader)
}

/// The register for the current ASID.
fn asid_from_field<'a>(fields: Fields<'a>) -> Result<(AsidFrom, Fields<'a>), Malformed>
    ensures { result ≡ lines.asid_from_field.read fields.entry }
{
    fields.word_or(&ASID_FROMS, Malformed::BadHeader, Malformed::BadHeader)
}

/// The version of the log.
fn version_field<'a>(fields: Fields<'a>) -> Result<(u8, Fields<'a>), Malformed>
    ensures version { result ≡ lines.version_field.read fields.entry }
    ensures in_range { IfOk result (λ x. heading.is_version x.0 ≡ true) }
{
    match fields.next() {
        Some((text, rest)) => found(version_of(text), Malformed::NoMagic, rest),
        None => Err(Malformed::NoMagic),
    }
}

/// Whether TLBs are shared. Version 1 doesn't say it, versions 2 to 4 do by a field, and later ones by a word or none.
fn cnp_field<'a>(version: u8, fields: Fields<'a>) -> Result<(bool, Fields<'a>), Malformed>
    ensures cnp { result ≡ lines.cnp_field version fields.entry }
    ensures shares { IfOk result (λ x. (heading.may_share version || not x.0) ≡ true) }
{
    match version {
        0 | 1 => Ok((false, fields)),
        2..=4 => fields.word_or(&CNPS, Malformed::BadHeader, Malformed::BadHeader),
        _ => Ok(fields.word(b"cnp")),
    }
}

/// What else the words say, and the fields after them; before version 5 there is none.
fn header_words<'a>(version: u8, fields: Fields<'a>) -> (HeaderWords, Fields<'a>)
    ensures { result ≡ lines.header_words version fields.entry }
{
    if version < 5 {
        return (NO_WORDS, fields);
    }
    let (unflushed, fields) = fields.word(b"unflushed");
    let (inorder, fields) = fields.word(b"inorder");
    let (isolated, fields) = fields.word(b"isolated");
    (
        HeaderWords {
            unflushed,
            inorder,
            isolated,
        },
        fields,
    )
}

/// Whether a word can stand or not, where the log's world has it or doesn't.
fn may_stand(version: u8, of_world: bool, stands: bool) -> bool
    ensures { result ≡ (not stands || (heading.has_words version && of_world)) }
{
    !stands || (version >= 5 && of_world)
}

/// Whether a log of this version and world can say these words.
fn are_words(version: u8, world: &World, words: HeaderWords) -> bool
    ensures { result ≡ heading.words_ok version world.now words }
{
    let hyp = match world {
        World::Hyp(_) => true,
        World::Kernel(_) => false,
    };
    may_stand(version, true, words.unflushed)
        && may_stand(version, !hyp, words.inorder)
        && may_stand(version, hyp, words.isolated)
}

/// Whether a log of this version can have so many PEs.
fn are_pes(version: u8, pes: u64) -> bool
    ensures { result ≡ heading.are_pes version pes }
{
    let most = if version < 3 { 64 } else { 128 };
    1 <= pes && pes <= most
}

/// The Hyp world with these numbers, where they are in their ranges.
fn hyp_world(el2_start: u64, s2_start: u64, s2_pages: u64) -> Option<World>
    ensures fits { IfSome result (λ world. world_ok world ≡ true) }
    ensures world { result
        ≡ codec.passing world_ok
        (Some (Hyp (record { el2_start = el2_start; s2_start = s2_start; s2_pages = s2_pages }))) }
{
    let pages_fit = match s2_pages {
        1 => true,
        2 | 4 | 8 | 16 => s2_start != 0,
        _ => false,
    };
    if el2_start <= 2 && s2_start <= 2 && pages_fit {
        Some(World::Hyp(HypWorld {
            el2_start: Level::new(el2_start as u8).unwrap(),
            s2_start: Level::new(s2_start as u8).unwrap(),
            s2_pages: s2_pages as u8,
        }))
    } else {
        None
    }
}

/// The Kernel world with these numbers, where they are in their ranges.
fn kernel_world(start0: u64, start1: u64, asid_from: AsidFrom) -> Option<World>
    ensures fits { IfSome result (λ world. world_ok world ≡ true) }
    ensures world { result
        ≡ codec.passing world_ok (Some (Kernel (record { start0 = start0; start1 = start1; asid_from = asid_from }))) }
{
    if start0 <= 2 && start1 <= 2 {
        Some(World::Kernel(KernelWorld {
            start0: Level::new(start0 as u8).unwrap(),
            start1: Level::new(start1 as u8).unwrap(),
            asid_from,
        }))
    } else {
        None
    }
}

/// The header in this world, where there is one, the version allows so many PEs, the world has the words, and no field is
/// left behind them.
#[tactic(auto, using(crate::proofs::WorldFaults::unfit_world))]
fn header_in(
    version: u8,
    pes: u64,
    world: Option<World>,
    fields: Fields,
) -> Result<Header, Malformed>
    requires version { heading.is_version version ≡ true }
    requires world { IfSome world (λ it. world_ok it ≡ true) }
    ensures { (it : TheWorld) → world ≡ codec.passing world_ok (Some it)
        → result ≡ lines.heading_end version pes it fields.entry }
{
    let (cnp, fields) = cnp_field(version, fields)?;
    let (words, fields) = header_words(version, fields);
    let ends = fields.next().is_none();
    match world {
        Some(world) if ends && are_pes(version, pes) && are_words(version, &world, words) => Ok(
            Header {
                version,
                pes: pes as u8,
                cnp,
                words,
                world,
            },
        ),
        _ => Err(Malformed::BadHeader),
    }
}

fn hyp_fields(version: u8, fields: Fields) -> Result<Header, Malformed>
    requires { heading.is_version version ≡ true }
    ensures { result ≡ lines.world_after version word.Hyp fields.entry }
{
    let (pes, fields) = number_field(fields)?;
    let (el2_start, fields) = number_field(fields)?;
    let (s2_start, fields) = number_field(fields)?;
    let (s2_pages, fields) = number_field(fields)?;
    header_in(
        version,
        pes,
        hyp_world(el2_start, s2_start, s2_pages),
        fields,
    )
}

fn kernel_fields(version: u8, fields: Fields) -> Result<Header, Malformed>
    requires { heading.is_version version ≡ true }
    ensures { result ≡ lines.world_after version word.Kernel fields.entry }
{
    let (pes, fields) = number_field(fields)?;
    let (start0, fields) = number_field(fields)?;
    let (start1, fields) = number_field(fields)?;
    let (asid_from, fields) = asid_from_field(fields)?;
    header_in(
        version,
        pes,
        kernel_world(start0, start1, asid_from),
        fields,
    )
}

/// The fields after the version: the word of the world, and what follows it.
fn version_after(version: u8, fields: Fields) -> Result<Header, Malformed>
    requires { heading.is_version version ≡ true }
    ensures { result ≡ lines.version_after version fields.entry }
{
    let (word, fields) = fields.word_or(&WORLDS, Malformed::BadHeader, Malformed::BadHeader)?;
    match word {
        WorldWord::Hyp => hyp_fields(version, fields),
        WorldWord::Kernel => kernel_fields(version, fields),
    }
}

/// The header that a line spells, or the cause for which it spells none.
#[tactic(auto, unfolding(bbm_events::specs::Lines::header_of))]
fn header_on(line: &[u8]) -> Result<Header, Malformed>
    ensures { result ≡ header_of line.now }
{
    let fields = Fields::of(line).behind(b"bbmlog", Malformed::NoMagic, Malformed::NoMagic)?;
    let (version, fields) = version_field(fields)?;
    version_after(version, fields)
}

/// The header that line 1 says; the bytes are the line's without its newline. `NoMagic` where the
/// first two fields aren't `bbmlog` and `1` to `5`, and `BadHeader` where the line isn't the one spelling of a
/// header for another reason. Source: project's own choice.
pub fn read_header(line: &[u8]) -> Result<Header, Malformed>
    ensures header { result ≡ header_of line.now }
    ensures causes { IfErr result IsHeaderCause }
{
    law_header_causes();
    header_on(line)
}
