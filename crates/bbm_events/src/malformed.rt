//! The causes for which a line is malformed.

/// Why a line is malformed, with the number that the program prints. Source: project's own choice.
#[derive(Clone, Copy, Debug, PartialEq, Eq)]
pub enum Malformed {
    /// The first two fields of line 1 aren't `bbmlog` and `1` to `5`.
    NoMagic = 1,
    /// Another fault of line 1.
    BadHeader = 2,
    /// The first field, or a field that takes one of a list of words, is none of them.
    UnknownWord = 3,
    /// A value, an operand, a lock or a count can't be read, or the tag or the entry of a machine line.
    BadNumber = 4,
    /// A PE can't be read, or isn't below the header's number.
    BadPe = 5,
    /// A page or a place can't be read, or isn't aligned.
    BadAddress = 6,
    /// A field is absent.
    MissingField = 7,
    /// A field stands after the last.
    ExtraField = 8,
    /// The input ends, or is cut inside a line, before an `end` line was read.
    NoEnd = 9,
    /// The count of the `end` line differs from the number of event lines before it.
    WrongCount = 10,
    /// A byte follows the `end` line.
    AfterEnd = 11,
    /// The field behind the last begins with `@` and isn't a label.
    BadLabel = 13,
}
