//! The top call.

ghost use Rattle.std.specs.Prelude.{◌≡◌, ◌+◌, ◌*◌, ◌<◌, ◌^◌, ◌⊎◌, ℕ, List, [], Some, None, IsSome, true, false};
ghost use Rattle.std.specs.Prelude.{length, map};
ghost use Rattle.std.specs.String.{string_bytes};
ghost use Rattle.bbm_regimes.specs.declared.regime.TheConstants.{MAX_LINES};
ghost use Rattle.bbm_io.specs.Faults.{Rose};
ghost use Rattle.bbm_io.specs.Flow.{preceded, extended};
ghost use Rattle.bbm_rules.specs.Claims.{Patterns};
ghost use Rattle.bbm_session.specs.Verified.{IsVerified};
ghost use Rattle.bbm_tlb_machine.specs.Accepted.{HoldsOfLog};
ghost use Rattle.bbm_tlb_machine.specs.Isolated.{IsolatedBySay};
ghost use Rattle.bbm_tlb_machine.specs.Safe.{OneRootATag, Safe};
ghost use Rattle.bbm_texts.specs.declared.commands.Command.{Command as CommandOf};
ghost use Rattle.bbm_session.specs.declared.command.Request.{Request as RequestOf};
ghost use Rattle.bbm_session.specs.declared.command.Request.TheVariants.{Generate, Judge, Selftest, Verify};
ghost use Rattle.bbm_texts.specs.declared.status.Status.{Status as StatusOf};
ghost use Rattle.bbm_session.specs.Requests.{Asked, FaultAt, IsSomeTextFor, IsTextFor, ReadForAll, WantAt, reads_input};
ghost use Rattle.bbm_session.specs.Requests.{request_of, status_for, unread_for};
ghost use Rattle.bbm_session.specs.Run.{limits_of, tells_verdict};
ghost use Rattle.bbm_texts.specs.Says.{usage_text};
ghost use Rattle.bbm_session.specs.Stages.{Shrinks};
ghost use Rattle.bbm_session.specs.Serving.{Obeys, Serves, streams_of};
ghost use Rattle.bbm_texts.specs.Writing.{Part};

use crate::command::{Request, said};
use crate::following::follow;
use crate::keeping::Keeping;
use crate::laws::law_verified_is_safe;
use crate::obeying::obey;
use crate::showing::show;
use crate::verifying::verify;
use bbm_io::{Sink, Source};
use bbm_oracle::Oracle;
use bbm_replay::Replay;
use bbm_texts::{Command, Status, generate, say_usage, selftest};
use bbm_tlb_machine::{law_accepted_is_isolated, law_accepted_is_safe};
use std::alloc::Global;

/// Judges a log: for `slow` by the oracle, which searches the whole history, and else by the checker that keeps none,
/// with a list of the events beside it where more of them is shown.
fn judge<S: Source, K: Sink>(alloc: Global, command: &Command, log: &mut S, out: &mut K) -> Status
    ensures obeys { Obeys command.now result
        (streams_of S.left S.faults log.old log.new K.held K.faults out.old out.new) }
    ensures shrinks { Shrinks (201 * (MAX_LINES + 3)) (S.left log.old) (S.left log.new) }
{
    match command {
        Command::Slow => obey::<Oracle, S, K>(alloc, command, log, out),
        Command::Show(evidence) => show::<Keeping<Replay>, S, K>(alloc, evidence, log, out),
        Command::Check | Command::Explain | Command::Walk(_) => {
            obey::<Replay, S, K>(alloc, command, log, out)
        }
    }
}

/// Does what was asked for.
fn serve<S: Source, K: Sink>(alloc: Global, request: &Request, log: &mut S, out: &mut K) -> Status
    ensures serves { Serves request.now result
        (streams_of S.left S.faults log.old log.new K.held K.faults out.old out.new) }
    ensures shrinks { Shrinks (201 * (MAX_LINES + 3)) (S.left log.old) (S.left log.new) }
{
    match request {
        Request::Judge(command) => judge(alloc, command, log, out),
        Request::Follow => follow(alloc, log, out),
        Request::Verify => verify(alloc, log, out),
        Request::Generate { number, events } => generate(*number, *events, out),
        Request::Selftest { number, events } => selftest::<Replay, K>(alloc, *number, *events, out),
    }
}

/// Does what the words after the program's name ask for. With `check`, `slow`, `explain`, `walk KIND ROOT ADDR`,
/// `idle`, `counterrun` or `cert` it judges the log under the limits of that command and writes the line of its
/// verdict. `check`, `explain` and `walk` keep no events, and take any number; the others keep all, at most 2,000, and
/// search them. Behind the line of the verdict `explain` writes a line for each PE where break-before-make is broken,
/// how far the place has come there; `walk` where an accepted log maps the address ADDR at its end, by the tables of
/// the root of KIND whose first page is ROOT; and `idle` a line for each event that an accepted log can do without. In
/// place of that line `counterrun` writes, where break-before-make refuses a write at a place that holds a leaf, a run
/// that ends in a conflict there, or that there is none; and `cert` the certificate of an accepted log. With `follow`
/// it reads a log with lines of machine steps between its events, judges no event, and writes the line of what comes of
/// that run. With `verify` it reads a log of at most 2,000 events and right behind it its certificate of at most
/// 300,000 claims, then judges the events by the claims alone, and writes the line of that. With `gen N COUNT` it
/// writes the generated log of the number N with COUNT events, at most 4,294,967,293, and reads nothing. With `selftest
/// N COUNT` it judges that log event by event, stores and reads nothing, and writes that its events are accepted, and
/// how many pages and restless places there are at its end. Any other words are answered with the usage line. Nothing
/// else is written. `log` is read up to the line that decides, and an accepted log, a run and a log with its
/// certificate without such a line to their end. Where the source tells what it has left and the sink what it holds,
/// the clauses say which bytes are read and written. Source: project's own choice.
pub fn run<S: Source, K: Sink>(
    alloc: Global,
    words: &Vec<String>,
    log: &mut S,
    out: &mut K,
) -> Status
    // Usage, exactly by the words, unless the write of its line fails.
    ensures usage_only { result ≡ Status.Usage → request_of (map string_bytes words.now.items) ≡ None }
    ensures usage { request_of (map string_bytes words.now.items) ≡ None
        → (result ≡ Status.Usage) ⊎ (result ≡ Status.WriteFault) }
    ensures usage_line { result ≡ Status.Usage → K.held out.new ≡ extended (K.held out.old) usage_text }
    ensures usage_reads_nothing { request_of (map string_bytes words.now.items) ≡ None
        → S.left log.new ≡ S.left log.old }

    // A verdict, or what comes of a run or of a certificate: the status is that of the bytes that were left, the whole
    // text of the request and nothing else is written, and the bytes that it doesn't need stay unread, also where the
    // write fails.
    ensures status { (request : RequestOf) (bytes : List ℕ)
        → Asked (map string_bytes words.now.items) (S.left log.old) request bytes
        → tells_verdict result ≡ true → result ≡ status_for request bytes }
    ensures text { (request : RequestOf) (bytes : List ℕ)
        → Asked (map string_bytes words.now.items) (S.left log.old) request bytes
        → tells_verdict result ≡ true
        → (text : List ℕ) × IsTextFor request bytes text × (K.held out.new ≡ extended (K.held out.old) text) }
    ensures some_verdict { (request : RequestOf) → request_of (map string_bytes words.now.items) ≡ Some request
        → tells_verdict result ≡ true
        → (text : List ℕ) × IsSomeTextFor request result text × (K.held out.new ≡ extended (K.held out.old) text) }
    ensures unread { (request : RequestOf) (bytes : List ℕ)
        → Asked (map string_bytes words.now.items) (S.left log.old) request bytes
        → tells_verdict result ≡ true → S.left log.new ≡ Some (unread_for request bytes) }
    ensures read_to_the_line { (request : RequestOf) (bytes : List ℕ)
        → Asked (map string_bytes words.now.items) (S.left log.old) request bytes
        → tells_verdict result ≡ true → ReadForAll request bytes (S.left log.new) }
    ensures accepted_reads_all { (request : RequestOf) (bytes : List ℕ)
        → Asked (map string_bytes words.now.items) (S.left log.old) request bytes
        → reads_input request ≡ true → result ≡ Status.Accepted → S.left log.new ≡ Some [] }
    // A generated log: nothing is read. Where it is written there is no want of memory; where it is judged its events
    // are accepted, with the whole text, or the text was cut by a write that failed, or there was no memory.
    ensures generated_reads_nothing { (request : RequestOf)
        → request_of (map string_bytes words.now.items) ≡ Some request → reads_input request ≡ false
        → S.left log.new ≡ S.left log.old }
    ensures generated { (n : ℕ) (count : ℕ) → request_of (map string_bytes words.now.items) ≡ Some (Generate n count)
        → (result ≡ Status.Accepted) ⊎ (result ≡ Status.WriteFault) }
    ensures selftested { (n : ℕ) (count : ℕ) → request_of (map string_bytes words.now.items) ≡ Some (Selftest n count)
        → (result ≡ Status.Accepted) ⊎ ((result ≡ Status.WriteFault) ⊎ (result ≡ Status.NoMemory)) }
    // The headline: where a log is accepted, no TLB keeps what a write, an init or a register write needs gone, in any
    // run of the machine of TLBs over the log of its events. And at no moment of such a run does a TLB keep an entry
    // under a tag under which a PE may read through another root.
    ensures no_stale_entry { (command : CommandOf) (bytes : List ℕ)
        → Asked (map string_bytes words.now.items) (S.left log.old) (Judge command) bytes
        → result ≡ Status.Accepted → HoldsOfLog Safe Patterns (limits_of command) bytes }
    ensures one_root_a_tag { (command : CommandOf) (bytes : List ℕ)
        → Asked (map string_bytes words.now.items) (S.left log.old) (Judge command) bytes
        → result ≡ Status.Accepted → HoldsOfLog OneRootATag Patterns (limits_of command) bytes }
    // Where an accepted log's header has `isolated`, no TLB lets a guest reach a page of a tree, at any moment of such
    // a run; nor did one since the last init of the page.
    ensures isolated { (command : CommandOf) (bytes : List ℕ)
        → Asked (map string_bytes words.now.items) (S.left log.old) (Judge command) bytes
        → result ≡ Status.Accepted → HoldsOfLog (IsolatedBySay Patterns) Patterns (limits_of command) bytes }
    // Where a log is judged by its certificate and accepted, it keeps the rules by the claims of that alone. No TLB
    // keeps what a write, an init or a register write needs gone, in any run of the machine over it, and at every
    // moment of such a run there is one root a tag. Where its header has `isolated`, the log is isolated.
    ensures verified_is_safe { (bytes : List ℕ)
        → Asked (map string_bytes words.now.items) (S.left log.old) Verify bytes
        → result ≡ Status.Accepted → IsVerified bytes }
    ensures unread_untold { (request : RequestOf) (bytes : List ℕ)
        → Asked (map string_bytes words.now.items) (S.left log.old) request bytes
        → result ≡ Status.WriteFault → S.left log.new ≡ Some (unread_for request bytes) }

    // The faults, by their causes: a fault that happened is told, and so never both.
    ensures read_rose { S.faults log.old < S.faults log.new → result ≡ Status.ReadFault }
    ensures write_rose { K.faults out.old < K.faults out.new → result ≡ Status.WriteFault }
    ensures read_fault { result ≡ Status.ReadFault → Rose (S.faults log.old) (S.faults log.new) }
    ensures write_fault { result ≡ Status.WriteFault → Rose (K.faults out.old) (K.faults out.new) }
    ensures part_of_usage { result ≡ Status.WriteFault → request_of (map string_bytes words.now.items) ≡ None
        → Part usage_text (K.held out.old) (K.held out.new) }
    ensures part_of_text { (request : RequestOf) (bytes : List ℕ)
        → Asked (map string_bytes words.now.items) (S.left log.old) request bytes
        → result ≡ Status.WriteFault
        → (text : List ℕ) × IsTextFor request bytes text × Part text (K.held out.old) (K.held out.new) }
    ensures part_of_some { (request : RequestOf) → request_of (map string_bytes words.now.items) ≡ Some request
        → result ≡ Status.WriteFault → (wanted : StatusOf) × (text : List ℕ)
        × IsSomeTextFor request wanted text × Part text (K.held out.old) (K.held out.new) }
    ensures unwritten { (result ≡ Status.ReadFault) ⊎ (result ≡ Status.NoMemory)
        → K.held out.new ≡ K.held out.old }

    // Nothing is read that isn't needed: up to a fault or for want of memory only lines that decide nothing, and of the
    // next one at most 200 bytes. There is want of memory only at a line that needs memory, or for a run, or a log with
    // its certificate, that was read whole. With `check`, `explain` and `walk` neither a barrier nor a line on a lock
    // needs memory.
    ensures read_to_fault { (request : RequestOf) (bytes : List ℕ)
        → Asked (map string_bytes words.now.items) (S.left log.old) request bytes
        → result ≡ Status.ReadFault → FaultAt request bytes (S.left log.new) }
    ensures read_to_want { (request : RequestOf) (bytes : List ℕ)
        → Asked (map string_bytes words.now.items) (S.left log.old) request bytes
        → result ≡ Status.NoMemory → WantAt request bytes (S.left log.new) }

    // What is read begins what was left, and is fewer than 2^40 bytes, in every case.
    ensures read { (taken : List ℕ) × (S.left log.old ≡ preceded taken (S.left log.new)) × (length taken < 2 ^ 40) }

    // Where no fault comes from outside, there is a verdict, or want of memory.
    ensures complete { IsSome (request_of (map string_bytes words.now.items))
        → ¬ (Rose (S.faults log.old) (S.faults log.new)) → ¬ (Rose (K.faults out.old) (K.faults out.new))
        → (tells_verdict result ≡ true) ⊎ (result ≡ Status.NoMemory) }
{
    match said(words) {
        Some(request) => {
            law_accepted_is_isolated();
            law_accepted_is_safe();
            law_verified_is_safe();
            serve(alloc, &request, log, out)
        }
        None => say_usage(out),
    }
}
