//! What the command `walk` is asked.
//! Source: project's own choice, where no other is named.

ghost use Rattle.std.specs.Prelude.{◌≡◌, map};
ghost use Rattle.std.specs.String.{string_bytes};
ghost use Rattle.bbm_report.specs.Questions.{question_of, walk_asked};

use bbm_log_grammar::{kind_named, page_of, read_hex};
use bbm_regimes::{Kind, Page};

/// Where the tables of a root map an address.
#[derive(Clone, Copy, PartialEq, Eq)]
pub struct Question {
    /// The kind of the root.
    pub kind: Kind,
    /// The first page of the root.
    pub root: Page,
    /// The input address, any 64 bits.
    pub addr: u64,
}

/// The question of three words.
fn read_question(kind: &[u8], root: &[u8], addr: &[u8]) -> Option<Question>
    ensures { result ≡ question_of kind.now root.now addr.now }
{
    let kind = kind_named(kind)?;
    let root = page_of(root)?;
    let addr = read_hex(addr)?;
    Some(Question { kind, root, addr })
}

/// The question of the words `walk KIND ROOT ADDR`; None for any other words. KIND is `el2`, `s2`, `ttbr0` or `ttbr1`;
/// ROOT is a page and ADDR a number below 2^64, each in its one hex spelling.
pub fn asked(words: &[String]) -> Option<Question>
    ensures { result ≡ walk_asked (map string_bytes words.now) }
{
    match words {
        [word, kind, root, addr] => {
            if word.as_bytes() == b"walk".as_slice() {
                read_question(kind.as_bytes(), root.as_bytes(), addr.as_bytes())
            } else {
                None
            }
        }
        _ => None,
    }
}
