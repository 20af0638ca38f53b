//! How the program ends.

ghost use Rattle.std.specs.Prelude.{◌≡◌};
ghost use Rattle.bbm_texts.specs.Statuses.{number_of};

/// How the program ends, with the number of its exit status. Source: project's own choice.
#[derive(Clone, Copy, PartialEq, Eq)]
pub enum Status {
    /// Every line is well formed and every event keeps the rules.
    Accepted = 0,
    /// An event breaks a rule.
    Refused = 1,
    /// A line is malformed.
    Malformed = 2,
    /// The words are no command.
    Usage = 3,
    /// A read of the log failed. Nothing was written.
    ReadFault = 4,
    /// A write failed. What went out is a proper prefix of the text.
    WriteFault = 5,
    /// There was no memory. Nothing was written.
    NoMemory = 6,
    /// A line reaches a limit.
    Limit = 7,
}

/// The number with which the program ends: 0 to 7.
pub fn number(status: Status) -> u8
    ensures { result ≡ number_of status }
{
    match status {
        Status::Accepted => 0,
        Status::Refused => 1,
        Status::Malformed => 2,
        Status::Usage => 3,
        Status::ReadFault => 4,
        Status::WriteFault => 5,
        Status::NoMemory => 6,
        Status::Limit => 7,
    }
}
