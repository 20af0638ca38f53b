//! What the words of the program ask for.
//! Source: project's own choice, where no other is named.

ghost use Rattle.std.specs.Prelude.{◌≡◌, map};
ghost use Rattle.std.specs.String.{string_bytes};
ghost use Rattle.bbm_session.specs.Requests.{event_count, gen_of, log_after, log_asked, request_alone, request_of};
ghost use Rattle.bbm_session.specs.Requests.{selftest_of};
ghost use Rattle.bbm_session.specs.Run.{command_alone, command_at, command_of, limits_of, or_else};

use bbm_log_grammar::read_decimal;
use bbm_regimes::MAX_LINES;
use bbm_report::asked;
use bbm_rules::Limits;
use bbm_texts::{Command, Evidence};

/// The most events of a log that the oracle judges.
const ORACLE_EVENTS: u64 = 2000;

/// The most events of a generated log, which has at most 2^32 - 1 lines with its header and its end.
const GENERATED_EVENTS: u64 = 4_294_967_293;

/// What the program is asked for.
#[derive(Clone, Copy)]
pub enum Request {
    /// A log is judged.
    Judge(Command),
    /// A log with lines of machine steps between its events is read, and the run of the machine of TLBs is followed.
    Follow,
    /// A log and right behind it its certificate are read, and the log is judged by the certificate's claims alone.
    Verify,
    /// A generated log is written, and nothing is read.
    Generate {
        /// The number of the log.
        number: u64,
        /// How many events it has, at most 4,294,967,293.
        events: u32,
    },
    /// A generated log is judged event by event and never stored, and nothing is read. The line of its verdict is
    /// written, and a line with the number of its pages and of the places that are restless at its end.
    Selftest {
        /// The number of the log.
        number: u64,
        /// How many events it has, at most 4,294,967,293.
        events: u32,
    },
}

/// The command that the word says.
fn said_by(word: &[u8]) -> Option<Command>
    ensures { result ≡ command_at word.now }
{
    if word == b"check".as_slice() {
        Some(Command::Check)
    } else if word == b"slow".as_slice() {
        Some(Command::Slow)
    } else if word == b"explain".as_slice() {
        Some(Command::Explain)
    } else if word == b"counterrun".as_slice() {
        Some(Command::Show(Evidence::Counterrun))
    } else if word == b"cert".as_slice() {
        Some(Command::Show(Evidence::Cert))
    } else if word == b"idle".as_slice() {
        Some(Command::Show(Evidence::Idle))
    } else {
        None
    }
}

/// The command that one word says, None where there is another number of words.
fn said_alone(words: &[String]) -> Option<Command>
    ensures { result ≡ command_alone (map string_bytes words.now) }
{
    match words {
        [word] => said_by(word.as_bytes()),
        _ => None,
    }
}

/// The command that the words say, None where they say none.
fn said_command(words: &[String]) -> Option<Command>
    ensures { result ≡ command_of (map string_bytes words.now) }
{
    match said_alone(words) {
        Some(command) => Some(command),
        None => match asked(words) {
            Some(question) => Some(Command::Walk(question)),
            None => None,
        },
    }
}

/// The request of one word that isn't a command.
fn said_request(words: &[String]) -> Option<Request>
    ensures { result ≡ request_alone (map string_bytes words.now) }
{
    if words.len() != 1 {
        None
    } else if words[0].as_bytes() == b"follow".as_slice() {
        Some(Request::Follow)
    } else if words[0].as_bytes() == b"verify".as_slice() {
        Some(Request::Verify)
    } else {
        None
    }
}

/// The number of events of a generated log.
fn read_count(text: &[u8]) -> Option<u32>
    ensures { result ≡ event_count text.now }
{
    let count = read_decimal(text)?;
    if count <= GENERATED_EVENTS {
        Some(count as u32)
    } else {
        None
    }
}

/// The number of a generated log and how many events it has, by two words.
fn read_log(n: &[u8], count: &[u8]) -> Option<(u64, u32)>
    ensures { result ≡ log_asked n.now count.now }
{
    let number = read_decimal(n)?;
    let events = read_count(count)?;
    Some((number, events))
}

/// The number of a generated log and how many events it has, by the words behind this one.
fn said_log(first: &[u8], words: &[String]) -> Option<(u64, u32)>
    ensures { result ≡ log_after first.now (map string_bytes words.now) }
{
    match words {
        [word, n, count] => {
            if word.as_bytes() == first {
                read_log(n.as_bytes(), count.as_bytes())
            } else {
                None
            }
        }
        _ => None,
    }
}

/// The request of the words `gen N COUNT`.
fn said_gen(words: &[String]) -> Option<Request>
    ensures { result ≡ gen_of (map string_bytes words.now) }
{
    let (number, events) = said_log(b"gen", words)?;
    Some(Request::Generate { number, events })
}

/// The request of the words `selftest N COUNT`.
fn said_selftest(words: &[String]) -> Option<Request>
    ensures { result ≡ selftest_of (map string_bytes words.now) }
{
    let (number, events) = said_log(b"selftest", words)?;
    Some(Request::Selftest { number, events })
}

/// The request of words on a generated log.
fn said_generated(words: &[String]) -> Option<Request>
    ensures { result ≡ or_else (gen_of (map string_bytes words.now)) (selftest_of (map string_bytes words.now)) }
{
    match said_gen(words) {
        Some(request) => Some(request),
        None => said_selftest(words),
    }
}

/// The request of words that are no command.
fn said_other(words: &[String]) -> Option<Request>
    ensures { result ≡ or_else (request_alone (map string_bytes words.now))
        (or_else (gen_of (map string_bytes words.now)) (selftest_of (map string_bytes words.now))) }
{
    match said_request(words) {
        Some(request) => Some(request),
        None => said_generated(words),
    }
}

/// What the words ask for, None where they ask for nothing.
pub fn said(words: &[String]) -> Option<Request>
    ensures { result ≡ request_of (map string_bytes words.now) }
{
    match said_command(words) {
        Some(command) => Some(Request::Judge(command)),
        None => said_other(words),
    }
}

/// The limits under which a command judges a log: one that keeps all events and searches them at each event takes at
/// most 2,000, and the others a log of any number; the line numbers of all stay below 2^32 - 1.
pub fn limits(command: &Command) -> Limits
    ensures { result ≡ limits_of command.now }
{
    match command {
        Command::Slow | Command::Show(_) => Limits {
            events: Some(ORACLE_EVENTS),
            lines: MAX_LINES,
        },
        Command::Check | Command::Explain | Command::Walk(_) => Limits {
            events: None,
            lines: MAX_LINES,
        },
    }
}
