//! What takes the lines of a log.

ghost use Rattle.std.specs.Prelude.{◌≡◌, ◌<◌, ℕ, Some, None, Ok, IfSome, OnSome, ok_or, take};
ghost use Rattle.bbm_regimes.specs.declared.regime.TheConstants.{MAX_LINES};
ghost use Rattle.bbm_io.specs.Reading.{LiesWhole};
ghost use Rattle.bbm_events.specs.Heading.{Heading};
ghost use Rattle.bbm_session.specs.Reader.{Reader};
ghost use Rattle.bbm_session.specs.Stages.{MayTakeLine, FoldsLine};

use crate::stop::Stop;
use bbm_events::Header;
use bbm_log_grammar::Turn;

/// It takes the lines between the header of a log and its end one by one, as a reader of lines says. Source:
/// project's own choice.
pub trait Taker {
    /// How far the lines of a log were read.
    ghost Reached: { Type 0 };

    /// What is said of a text.
    ghost Said: { Type 0 };

    /// By this reader and under this header, the lines before this one were read so far, and it has taken them.
    ghost stands: { Self → Reader Reached Said → Heading → Reached → ℕ → Type 0 };

    /// Takes line `number`, of at most 200 bytes and without its newline. `Taken`: the line was taken. `End`: the line
    /// is the end. None: the line stops reading, and `stop` is why: a verdict, or `NoMemory`, where there was none for
    /// a line that needs it. There is no other answer.
    fn take(&mut self, number: u64, header: &Header, line: &[u8], stop: &mut Stop) -> Option<Turn>
        requires { MayTakeLine (stands self.old) header.now number }
        ensures takes { (reader : Reader Reached Said) (p : Reached) → stands self.old reader header.now p number
            → FoldsLine reader (stands self.new reader header.now) number p line.now (ok_or result stop.new) }
        ensures few { result ≡ Some Turn.Taken → number < MAX_LINES };

    /// Takes line `number` where it is one of those that most logs have, lies whole at the front of these bytes and
    /// stops nothing: the number of bytes before its newline. None says nothing, and nothing was taken then.
    fn take_ahead(&mut self, number: u64, header: &Header, bytes: &[u8]) -> Option<usize>
        requires { MayTakeLine (stands self.old) header.now number }
        ensures line { IfSome result (λ count. LiesWhole count bytes.now) }
        ensures takes { IfSome result (λ count. (reader : Reader Reached Said) (p : Reached)
            → stands self.old reader header.now p number
            → FoldsLine reader (stands self.new reader header.now) number p (take count bytes.now) (Ok Turn.Taken)) }
        ensures few { OnSome result (number < MAX_LINES) }
        ensures untaken { result ≡ None → (reader : Reader Reached Said) (p : Reached)
            → stands self.old reader header.now p number → stands self.new reader header.now p number };
}
