//! The one line of a header, and of an item.
//! Source: project's own choice, where no other is named.

ghost use Rattle.std.specs.Prelude.{◌≡◌, ◌+◌, ◌≤◌, true, Ok, ◌++◌, ◌∷◌, [], length, codes, decimal, IfSome};
ghost use Rattle.std.specs.Prelude.{MatchOption};
ghost use Rattle.arrayvec.specs.ArrayVec.{array_vec_len};
ghost use Rattle.bbm_events.specs.declared.event.Event.TheVariants as event;
ghost use Rattle.bbm_events.specs.Spelling.{hex, joined};
ghost use Rattle.bbm_events.specs.Words as words;
ghost use Rattle.bbm_events.specs.Fits.{item_fits};
ghost use Rattle.bbm_events.specs.Lines.{header_of, item_of, header_fields, cnp_fields, word_fields, header_line};
ghost use Rattle.bbm_events.specs.Lines.{item_line, lock_text, event_fields};
ghost use Rattle.bbm_log_grammar.specs.Left.{spaced};

use crate::spell::{add, add_decimal, add_digits, add_label};
use crate::words::Worded;
use arrayvec::ArrayVec;
use bbm_barriers::{Domain, Dsb, Types};
use bbm_events::{Event, Header, Item, law_written_is_read};
use bbm_regimes::{Kind, Page, Pe, Place, Reg, World};
use bbm_tlbi_scope::TlbiOp;

/// A space and a word of at most 12 bytes.
pub(crate) fn add_word_field<const N: usize>(out: &mut ArrayVec<u8, N>, word: &[u8])
    requires short { length word.now ≤ 12 }
    requires room { array_vec_len out.old + 13 ≤ N }
    ensures appended { out.new.items ≡ out.old.items ++ 32 ∷ word.now }
    ensures longer { array_vec_len out.new ≤ array_vec_len out.old + 13 }
{
    add(out, b" ");
    add(out, word);
}

/// A space and a number in decimal.
#[inline(always)]
pub(crate) fn add_decimal_field<const N: usize>(out: &mut ArrayVec<u8, N>, n: u64)
    requires room { array_vec_len out.old + 21 ≤ N }
    ensures appended { out.new.items ≡ out.old.items ++ 32 ∷ decimal n }
    ensures longer { array_vec_len out.new ≤ array_vec_len out.old + 21 }
{
    add(out, b" ");
    add_decimal(out, n);
}

/// A space and a number in hex.
pub(crate) fn add_hex_field<const N: usize>(out: &mut ArrayVec<u8, N>, n: u64)
    requires room { array_vec_len out.old + 19 ≤ N }
    ensures appended { out.new.items ≡ out.old.items ++ 32 ∷ hex n }
    ensures longer { array_vec_len out.new ≤ array_vec_len out.old + 19 }
{
    add(out, b" 0x");
    add_digits(out, n);
}

/// The first word of an event line with the space behind it, and its PE.
#[inline(always)]
fn begin<const N: usize>(out: &mut ArrayVec<u8, N>, word: &[u8], pe: Pe)
    requires room { array_vec_len out.old + 200 ≤ N }
    requires short { length word.now ≤ 13 }
    ensures written { out.new.items ≡ out.old.items ++ (word.now ++ decimal pe) }
    ensures longer { array_vec_len out.new ≤ array_vec_len out.old + 33 }
{
    add(out, word);
    add_decimal(out, pe.get() as u64);
}

/// A lock, or `-` for none.
fn add_lock_field<const N: usize>(out: &mut ArrayVec<u8, N>, lock: Option<u16>)
    requires room { array_vec_len out.old + 21 ≤ N }
    ensures appended { out.new.items ≡ out.old.items ++ 32 ∷ lock_text lock }
    ensures longer { array_vec_len out.new ≤ array_vec_len out.old + 21 }
{
    match lock {
        None => add_word_field(out, b"-"),
        Some(lock) => add_decimal_field(out, lock as u64),
    }
}

/// `WORD PE PAGE`, with the space behind the word
#[inline(always)]
fn page_line<const N: usize>(out: &mut ArrayVec<u8, N>, word: &[u8], pe: Pe, page: Page)
    requires room { array_vec_len out.old + 200 ≤ N }
    requires short { length word.now ≤ 13 }
    ensures line { out.new.items ≡ out.old.items ++ (word.now ++ joined (decimal pe ∷ hex page ∷ [])) }
    ensures longer { array_vec_len out.new ≤ array_vec_len out.old + 100 }
{
    begin(out, word, pe);
    add_hex_field(out, page.get());
}

/// `root PE KIND LOCK PAGE`
#[tactic(auto, using(crate::proofs::Short::kind_word_short))]
fn root_line<const N: usize>(
    out: &mut ArrayVec<u8, N>,
    pe: Pe,
    kind: Kind,
    lock: Option<u16>,
    page: Page,
)
    requires room { array_vec_len out.old + 200 ≤ N }
    ensures line { out.new.items ≡ out.old.items ++ joined (event_fields (event.Root pe kind lock page)) }
    ensures longer { array_vec_len out.new ≤ array_vec_len out.old + 100 }
{
    begin(out, b"root ", pe);
    add_word_field(out, kind.word());
    add_lock_field(out, lock);
    add_hex_field(out, page.get());
}

/// `w PE PLACE VALUE`
fn store_line<const N: usize>(out: &mut ArrayVec<u8, N>, pe: Pe, place: Place, value: u64)
    requires room { array_vec_len out.old + 200 ≤ N }
    ensures line { out.new.items ≡ out.old.items ++ joined (event_fields (event.Write pe place value)) }
    ensures longer { array_vec_len out.new ≤ array_vec_len out.old + 100 }
{
    begin(out, b"w ", pe);
    add_hex_field(out, place.get());
    add_hex_field(out, value);
}

/// The option of a barrier; those of most lines are written at once.
#[tactic(auto, using(crate::proofs::Short::dsb_word_short))]
#[inline(always)]
fn add_dsb_field<const N: usize>(out: &mut ArrayVec<u8, N>, dsb: Dsb)
    requires room { array_vec_len out.old + 13 ≤ N }
    ensures appended { out.new.items ≡ out.old.items ++ 32 ∷ words.dsb_word dsb }
    ensures longer { array_vec_len out.new ≤ array_vec_len out.old + 13 }
{
    match (dsb.domain, dsb.types) {
        (Domain::Inner, Types::All) => add(out, b" ish"),
        (Domain::Inner, Types::Stores) => add(out, b" ishst"),
        _ => add_word_field(out, dsb.word()),
    }
}

/// `WORD PE OPTION`, with the space behind the word
#[inline(always)]
fn barrier_line<const N: usize>(out: &mut ArrayVec<u8, N>, word: &[u8], pe: Pe, dsb: Dsb)
    requires room { array_vec_len out.old + 200 ≤ N }
    requires short { length word.now ≤ 13 }
    ensures line { out.new.items ≡ out.old.items ++ (word.now ++ joined (decimal pe ∷ words.dsb_word dsb ∷ [])) }
    ensures longer { array_vec_len out.new ≤ array_vec_len out.old + 100 }
{
    begin(out, word, pe);
    add_dsb_field(out, dsb);
}

/// The operation of a TLBI; those of generated logs are written at once.
#[tactic(auto, using(crate::proofs::Short::op_word_short))]
#[inline(always)]
fn add_op_field<const N: usize>(out: &mut ArrayVec<u8, N>, op: TlbiOp)
    requires room { array_vec_len out.old + 13 ≤ N }
    ensures appended { out.new.items ≡ out.old.items ++ 32 ∷ words.op_word op }
    ensures longer { array_vec_len out.new ≤ array_vec_len out.old + 13 }
{
    match op {
        TlbiOp::Vae2is => add(out, b" vae2is"),
        TlbiOp::Ipas2e1is => add(out, b" ipas2e1is"),
        TlbiOp::Vmalle1is => add(out, b" vmalle1is"),
        _ => add_word_field(out, op.word()),
    }
}

/// `tlbi PE OP`, and ` XT` where the operation has an operand.
fn tlbi_line<const N: usize>(out: &mut ArrayVec<u8, N>, pe: Pe, op: TlbiOp, xt: u64)
    requires room { array_vec_len out.old + 200 ≤ N }
    ensures line { out.new.items ≡ out.old.items ++ joined (event_fields (event.Tlbi pe op xt)) }
    ensures longer { array_vec_len out.new ≤ array_vec_len out.old + 100 }
{
    begin(out, b"tlbi ", pe);
    add_op_field(out, op);
    if op.has_operand() {
        add_hex_field(out, xt);
    }
}

/// `msr PE REG VALUE`
#[tactic(auto, using(crate::proofs::Short::reg_word_short))]
fn register_line<const N: usize>(out: &mut ArrayVec<u8, N>, pe: Pe, reg: Reg, value: u64)
    requires room { array_vec_len out.old + 200 ≤ N }
    ensures line { out.new.items ≡ out.old.items ++ joined (event_fields (event.Msr pe reg value)) }
    ensures longer { array_vec_len out.new ≤ array_vec_len out.old + 100 }
{
    begin(out, b"msr ", pe);
    add_word_field(out, reg.word());
    add_hex_field(out, value);
}

/// `WORD PE LOCK`, with the space behind the word
#[inline(always)]
fn lock_line<const N: usize>(out: &mut ArrayVec<u8, N>, word: &[u8], pe: Pe, lock: u16)
    requires room { array_vec_len out.old + 200 ≤ N }
    requires short { length word.now ≤ 13 }
    ensures line { out.new.items ≡ out.old.items ++ (word.now ++ joined (decimal pe ∷ decimal lock ∷ [])) }
    ensures longer { array_vec_len out.new ≤ array_vec_len out.old + 100 }
{
    begin(out, word, pe);
    add_decimal_field(out, lock as u64);
}

/// The line of an event.
fn event_line<const N: usize>(out: &mut ArrayVec<u8, N>, event: Event)
    requires room { array_vec_len out.old + 200 ≤ N }
    ensures line { out.new.items ≡ out.old.items ++ joined (event_fields event) }
    ensures longer { array_vec_len out.new ≤ array_vec_len out.old + 100 }
{
    match event {
        Event::Init { pe, page } => page_line(out, b"init ", pe, page),
        Event::Null { pe, page } => page_line(out, b"null ", pe, page),
        Event::Root {
            pe,
            kind,
            lock,
            page,
        } => root_line(out, pe, kind, lock, page),
        Event::Unroot { pe, page } => page_line(out, b"unroot ", pe, page),
        Event::Write { pe, place, value } => store_line(out, pe, place, value),
        Event::Dsb { pe, dsb } => barrier_line(out, b"dsb ", pe, dsb),
        Event::Dmb { pe, dsb } => barrier_line(out, b"dmb ", pe, dsb),
        Event::Isb { pe } => begin(out, b"isb ", pe),
        Event::Tlbi { pe, op, xt } => tlbi_line(out, pe, op, xt),
        Event::Msr { pe, reg, value } => register_line(out, pe, reg, value),
        Event::Lock { pe, lock } => lock_line(out, b"lock ", pe, lock),
        Event::Unlock { pe, lock } => lock_line(out, b"unlock ", pe, lock),
    }
}

/// `bbmlog VERSION`, the word of the world and `PES`.
fn begin_header(out: &mut ArrayVec<u8, 200>, version: u8, world: &[u8], pes: u8)
    requires empty { out.old.items ≡ [] }
    requires short { length world.now ≤ 12 }
    ensures written { out.new.items
        ≡ joined (codes "bbmlog" ∷ decimal version ∷ world.now ∷ decimal pes ∷ []) }
    ensures longer { array_vec_len out.new ≤ 61 }
{
    add(out, b"bbmlog");
    add_decimal_field(out, version as u64);
    add_word_field(out, world);
    add_decimal_field(out, pes as u64);
}

/// `bbmlog VERSION hyp PES EL2START S2START S2PAGES` or `bbmlog VERSION kernel PES START0 START1 ASIDFROM`.
#[tactic(auto, using(crate::proofs::Short::asid_from_word_short))]
fn numbers_line(out: &mut ArrayVec<u8, 200>, version: u8, pes: u8, world: World)
    requires empty { out.old.items ≡ [] }
    ensures written { out.new.items ≡ joined (codes "bbmlog" ∷ decimal version ∷ header_fields pes world []) }
    ensures longer { array_vec_len out.new ≤ 124 }
{
    match world {
        World::Hyp(world) => {
            begin_header(out, version, b"hyp", pes);
            add_decimal_field(out, world.el2_start.get() as u64);
            add_decimal_field(out, world.s2_start.get() as u64);
            add_decimal_field(out, world.s2_pages as u64);
        }
        World::Kernel(world) => {
            begin_header(out, version, b"kernel", pes);
            add_decimal_field(out, world.start0.get() as u64);
            add_decimal_field(out, world.start1.get() as u64);
            add_word_field(out, world.asid_from.word());
        }
    }
}

/// The field that says whether TLBs are shared, where one stands.
#[tactic(auto, using(crate::proofs::Short::cnp_word_short))]
fn cnp_text(header: &Header) -> Option<&'static [u8]>
    ensures text { MatchOption result (cnp_fields header.now.version header.now.cnp ≡ [])
        (λ word. cnp_fields header.now.version header.now.cnp ≡ word.now ∷ []) }
    ensures short { IfSome result (λ word. length word.now ≤ 12) }
{
    match header.version {
        1 => None,
        2..=4 => Some(header.cnp.word()),
        _ => header.cnp.then_some(b"cnp".as_slice()),
    }
}

/// Whether TLBs are shared, and what else the words say.
fn add_words(out: &mut ArrayVec<u8, 200>, header: &Header)
    requires room { array_vec_len out.old + 52 ≤ 200 }
    ensures { out.new.items ≡ out.old.items
        ++ spaced (cnp_fields header.now.version header.now.cnp ++ word_fields header.now.words) }
{
    if let Some(word) = cnp_text(header) {
        add_word_field(out, word);
    }
    if header.words.unflushed {
        add_word_field(out, b"unflushed");
    }
    if header.words.inorder {
        add_word_field(out, b"inorder");
    }
    if header.words.isolated {
        add_word_field(out, b"isolated");
    }
}

/// Writes line 1 of a log with this header, without its newline, into an empty buffer. Reading the line
/// gives the header again.
#[tactic(auto, unfolding(bbm_events::specs::Lines::header_line), using(crate::proofs::Parts::header_more))]
pub fn write_header(header: &Header, out: &mut ArrayVec<u8, 200>)
    requires empty { out.old.items ≡ [] }
    ensures line { out.new.items ≡ header_line header.now }
    ensures read_again { header_of out.new.items ≡ Ok header.now }
{
    law_written_is_read();
    numbers_line(out, header.version, header.pes, header.world);
    add_words(out, header);
}

/// The line of an item, whatever the header.
#[tactic(auto, unfolding(bbm_events::specs::Lines::item_line), using(crate::proofs::Parts::labelled))]
fn any_line<const N: usize>(item: Item, out: &mut ArrayVec<u8, N>)
    requires room { array_vec_len out.old + 200 ≤ N }
    ensures line { out.new.items ≡ out.old.items ++ item_line item }
    ensures longer { array_vec_len out.new ≤ array_vec_len out.old + 200 }
{
    match item {
        Item::Event(event, label) => {
            event_line(out, event);
            add_label(out, label);
        }
        Item::End(count) => {
            add(out, b"end");
            add_decimal_field(out, count as u64);
        }
    }
}

/// Appends the line of an event, or the last line with its count, without its newline, to what stands there,
/// which leaves room for a line. The item has to fit the header, so that it has a label only under version 3
/// or later. It is the line that `write_event` writes, of at most 200 bytes.
pub fn append_event<const N: usize>(header: &Header, item: Item, out: &mut ArrayVec<u8, N>)
    requires room { array_vec_len out.old + 200 ≤ N }
    requires fits { item_fits header.now item ≡ true }
    ensures line { out.new.items ≡ out.old.items ++ item_line item }
    ensures longer { array_vec_len out.new ≤ array_vec_len out.old + 200 }
{
    any_line(item, out);
}

/// Writes the line of an event, or the last line with its count, without its newline, into an empty
/// buffer. The item has to fit the header, so that it has a label only under version 3 or later. Reading the
/// line gives the item again.
pub fn write_event(header: &Header, item: Item, out: &mut ArrayVec<u8, 200>)
    requires empty { out.old.items ≡ [] }
    requires fits { item_fits header.now item ≡ true }
    ensures line { out.new.items ≡ item_line item }
    ensures read_again { item_of header.now out.new.items ≡ Ok item }
{
    // The header's type keeps its ranges, without which no PE could be read again.
    let _pes = header.pes;
    law_written_is_read();
    any_line(item, out);
}
