//! What the grammar promises of each line.

ghost use Rattle.std.specs.Prelude.{◌≡◌, ◌≤◌, ℕ, List, length, true, Ok, IfErr};
ghost use Rattle.bbm_events.specs.declared.event.Item.{Item};
ghost use Rattle.bbm_events.specs.declared.machine.MachineLine.{MachineLine};
ghost use Rattle.bbm_events.specs.declared.certificate.ClaimItem.{ClaimItem};
ghost use Rattle.bbm_events.specs.Certificate.{certificate_line, certificate_of, claim_of, claim_fits, claim_line};
ghost use Rattle.bbm_events.specs.Machine.{machine_of, machine_fits, machine_line};
ghost use Rattle.bbm_events.specs.Heading.{Heading, heading_ok};
ghost use Rattle.bbm_events.specs.Causes.{IsHeaderCause, IsFieldCause, IsLineCause};
ghost use Rattle.bbm_events.specs.LineLaws.{ClaimIsALine, HeadersAreInRange, ItemsFit, WrittenIsALine, WrittenIsRead};
ghost use Rattle.bbm_events.specs.Lines.{header_of, item_of, header_line, item_line};
ghost use Rattle.bbm_events.specs.Spelling.{is_plain};

/// Each header that a line spells has its numbers in their ranges. The law is `HeadersAreInRange`.
#[tactic(auto, using(crate::proofs::HeaderLines::header_of_ok))]
pub fn law_header_in_range()
    ensures { HeadersAreInRange }
{}

/// Each item that a line spells fits the header under which the line is read. The law is `ItemsFit`.
#[tactic(auto, using(crate::proofs::ItemLines::item_of_fits))]
pub fn law_item_fits()
    ensures { ItemsFit }
{}

/// A line that spells no header has a cause of line 1.
#[tactic(auto, using(crate::proofs::HeaderLines::header_of_causes))]
pub fn law_header_causes()
    ensures { (line : List ℕ) → IfErr (header_of line) IsHeaderCause }
{}

/// A line that spells no item has a cause of a line after the header.
#[tactic(auto, using(crate::proofs::ItemLines::item_of_causes))]
pub fn law_item_causes()
    ensures { (heading : Heading) (line : List ℕ) → IfErr (item_of heading line) IsLineCause }
{}

/// A written header is read as the same header, and a written item that fits is read as the same item. The law is
/// `WrittenIsRead`.
pub fn law_written_is_read()
    ensures { WrittenIsRead }
{}

/// A written header, and a written item that fits, is one line: no byte of it is a newline, byte 10, and it has at most
/// 200 bytes. The law is `WrittenIsALine`.
pub fn law_written_is_a_line()
    ensures { WrittenIsALine }
{}

/// Each header and each item has one line: what a line is read as is written as that line.
#[tactic(auto, using(crate::proofs::HeaderLines::header_one_line, crate::proofs::ItemLines::item_one_line))]
pub fn law_one_line()
    ensures header { (line : List ℕ) (heading : Heading) → header_of line ≡ Ok heading → line ≡ header_line heading }
    ensures item { (heading : Heading) (line : List ℕ) (item : Item) → item_of heading line ≡ Ok item → line
        ≡ item_line item }
{}

/// Each step that a machine line spells fits the header under which the line is read.
#[tactic(auto, using(crate::proofs::MachineLines::machine_of_fits))]
pub fn law_machine_fits()
    ensures { (heading : Heading) (line : List ℕ) (step : MachineLine) → machine_of heading line ≡ Ok step
        → machine_fits heading step ≡ true }
{}

/// A line that spells no step has a cause of a line after the header.
#[tactic(auto, using(crate::proofs::MachineLines::machine_of_causes))]
pub fn law_machine_causes()
    ensures { (heading : Heading) (line : List ℕ) → IfErr (machine_of heading line) IsLineCause }
{}

/// A written step is read as the same step under each header that it fits.
#[tactic(auto, using(crate::proofs::MachineLines::machine_written_is_read))]
pub fn law_machine_written_is_read()
    ensures { (heading : Heading) (step : MachineLine) → heading_ok heading ≡ true → machine_fits heading step ≡ true
        → machine_of heading (machine_line step) ≡ Ok step }
{}

/// A written step that fits is one line: no byte of it is a newline, byte 10, and it has at most 200 bytes.
#[tactic(auto, using(crate::proofs::MachineLines::machine_plain, crate::proofs::MachineLines::machine_short))]
pub fn law_machine_written_is_a_line()
    ensures plain { (step : MachineLine) → is_plain (machine_line step) ≡ true }
    ensures short { (heading : Heading) (step : MachineLine) → heading_ok heading ≡ true
        → machine_fits heading step ≡ true → length (machine_line step) ≤ 200 }
{}

/// Each step has one line: what a machine line is read as is written as that line.
#[tactic(auto, using(crate::proofs::MachineLines::machine_one_line))]
pub fn law_machine_one_line()
    ensures { (heading : Heading) (line : List ℕ) (step : MachineLine) → machine_of heading line ≡ Ok step → line
        ≡ machine_line step }
{}

/// Each claim and each count that a line of a certificate spells fits the header under which the line is read.
#[tactic(auto, using(crate::proofs::CertificateLines::claim_of_fits))]
pub fn law_claim_fits()
    ensures { (heading : Heading) (line : List ℕ) (item : ClaimItem) → claim_of heading line ≡ Ok item
        → claim_fits heading item ≡ true }
{}

/// A line of a certificate that spells no claim and no count has a cause of a field, 3 to 8.
#[tactic(auto, using(crate::proofs::CertificateLines::claim_of_causes))]
pub fn law_claim_causes()
    ensures { (heading : Heading) (line : List ℕ) → IfErr (claim_of heading line) IsFieldCause }
{}

/// The first line of a certificate is read as one, and what is written of a claim or a count is read as the same under
/// each header that it fits.
#[tactic(auto, using(crate::proofs::CertificateLines::claims_read))]
pub fn law_claim_written_is_read()
    ensures first { certificate_of certificate_line ≡ Ok tt }
    ensures item { (heading : Heading) (item : ClaimItem) → heading_ok heading ≡ true → claim_fits heading item ≡ true
        → claim_of heading (claim_line item) ≡ Ok item }
{}

/// The first line of a certificate, and what is written of a claim or a count that fits, is one line: no byte of it is
/// a newline, byte 10, and it has at most 200 bytes. The law is `ClaimIsALine`.
pub fn law_claim_written_is_a_line()
    ensures { ClaimIsALine }
{}

/// A certificate has one first line, and each claim and each count has one line: what a line is read as is written as
/// that line.
#[tactic(auto, using(crate::proofs::CertificateLines::claims_once))]
pub fn law_claim_one_line()
    ensures first { (line : List ℕ) → certificate_of line ≡ Ok tt → line ≡ certificate_line }
    ensures item { (heading : Heading) (line : List ℕ) (item : ClaimItem) → claim_of heading line ≡ Ok item → line
        ≡ claim_line item }
{}
