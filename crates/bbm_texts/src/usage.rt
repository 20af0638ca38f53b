//! The usage line.
//! Source: project's own choice, where no other is named.

ghost use Rattle.std.specs.Prelude.{◌≡◌};
ghost use Rattle.bbm_texts.specs.Says.{usage_text};
ghost use Rattle.bbm_texts.specs.Writing.{Wrote};

use crate::answering::settled;
use crate::status::Status;
use crate::telling::tell;
use bbm_io::Sink;

/// The usage line, which names all commands.
fn usage() -> &'static [u8]
    ensures { result.now ≡ usage_text }
{
    b"usage: bbm check | slow | explain | walk KIND ROOT ADDR | gen N COUNT | selftest N COUNT | follow | counterrun \
        | cert | verify | idle\n"
}

/// Writes the usage line: `Usage`, or `WriteFault` where the write failed.
pub fn say_usage<K: Sink>(out: &mut K) -> Status
    ensures wrote { Wrote Status.Usage usage_text result (K.held out.old) (K.held out.new)
        (K.faults out.old) (K.faults out.new) }
{
    settled(tell(usage(), out), Status::Usage)
}
