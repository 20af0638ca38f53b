//! The fields of a line.

ghost use Rattle.std.specs.Prelude.{◌≡◌, ℕ, [], ◌∷◌, ◌==◌, MatchOption, MatchResult, Ok, Err};
ghost use Rattle.std.specs.List.{position};
ghost use Rattle.bbm_events.specs.Spelling.{decimal_value, fields, hex_value};
ghost use Rattle.bbm_events.specs.Codec as codec;
ghost use Rattle.bbm_events.specs.Lines as lines;
ghost use Rattle.bbm_events.specs.Words.{with_word};

use crate::numbers::{read_decimal, read_hex};
use crate::words::{Worded, named};
use bbm_events::Malformed;
use std::marker::Model;

/// The fields of a line that aren't read yet. A clause sees the list of them.
#[derive(Drop)]
pub(crate) struct Fields<'a> {
    rest: Option<&'a [u8]>,
}

impl<'a> Model for Fields<'a> {
    ghost use Rattle.std.specs.Prelude.{ℕ, List};
    ghost use Rattle.std.specs.Option.{option_copied};
    ghost use Rattle.bbm_log_grammar.specs.Left.{fields_left};

    ghost Value = { List (List ℕ) };

    ghost view = { λ f. fields_left (option_copied f.rest) };
}

/// Where the first space stands, if one does.
fn first_space(line: &[u8]) -> Option<usize>
    ensures { result ≡ position (λ byte. byte == 32) line.now }
{
    line.iter().position(|byte| *byte == b' ')
}

#[tactic(auto, using(crate::proofs::Splitting::splitting))]
impl<'a> Fields<'a> {
    /// All fields of a line.
    pub(crate) fn of(line: &'a [u8]) -> Fields<'a>
        ensures { result ≡ fields line.now }
    {
        Fields { rest: Some(line) }
    }

    /// The number in decimal that the next field spells, and the fields after it; the first cause where no field is
    /// left, and the other where it spells none.
    pub(crate) fn decimal_or(
        self,
        absent: Malformed,
        unreadable: Malformed,
    ) -> Result<(u64, Fields<'a>), Malformed>
        ensures { result ≡ codec.next_field absent unreadable decimal_value self.entry }
    {
        match self.next() {
            Some((text, rest)) => found(read_decimal(text), unreadable, rest),
            None => Err(absent),
        }
    }

    /// The number in hex that the next field spells, and the fields after it; the first cause where no field is
    /// left, and the other where it spells none.
    pub(crate) fn hex_or(
        self,
        absent: Malformed,
        unreadable: Malformed,
    ) -> Result<(u64, Fields<'a>), Malformed>
        ensures { result ≡ codec.next_field absent unreadable hex_value self.entry }
    {
        match self.next() {
            Some((text, rest)) => found(read_hex(text), unreadable, rest),
            None => Err(absent),
        }
    }

    /// The value, among these, whose word the next field is, and the fields after it; the first cause where no field is
    /// left, and the other where it is no such word.
    pub(crate) fn word_or<T: Worded>(
        self,
        values: &[T],
        absent: Malformed,
        unknown: Malformed,
    ) -> Result<(T, Fields<'a>), Malformed>
        ensures { result ≡ codec.next_field absent unknown (with_word T.word_of values.now) self.entry }
    {
        match self.next() {
            Some((text, rest)) => found(named(values, text), unknown, rest),
            None => Err(absent),
        }
    }

    /// The fields after the next one, where that is the word; the first cause where no field is left, and the other
    /// where it is another field.
    pub(crate) fn behind(
        self,
        word: &[u8],
        absent: Malformed,
        other: Malformed,
    ) -> Result<Fields<'a>, Malformed>
        ensures { MatchResult result (λ rest. codec.next_field absent other (lines.exactly word.now) self.entry
            ≡ Ok (word.now, rest)) (λ cause. codec.next_field absent other (lines.exactly word.now) self.entry
            ≡ Err cause) }
    {
        match self.next() {
            Some((text, rest)) => { if word == text { Ok(rest) } else { Err(other) } }
            None => Err(absent),
        }
    }

    /// Whether the next field is the word, and the fields after it; where it isn't, all that are left.
    pub(crate) fn word(self, word: &[u8]) -> (bool, Fields<'a>)
        ensures { result ≡ lines.word_field word.now self.entry }
    {
        let all = self.rest;
        match self.next() {
            Some((text, rest)) => {
                if word == text {
                    (true, rest)
                } else {
                    (false, Fields { rest: all })
                }
            }
            None => (false, Fields { rest: all }),
        }
    }

    /// The next field, and those after it; None where no field is left.
    pub(crate) fn next(self) -> Option<(&'a [u8], Fields<'a>)>
        ensures { MatchOption result (self.entry ≡ []) (λ x. self.entry ≡ x.0.now ∷ x.1) }
    {
        let line = self.rest?;
        match first_space(line) {
            Some(end) => Some((
                &line[..end],
                Fields {
                    rest: Some(&line[end + 1..]),
                },
            )),
            None => Some((line, Fields { rest: None })),
        }
    }
}

/// The value with the fields after it; the cause where there is none.
pub(crate) fn found<'a, T: Copy>(
    value: Option<T>,
    cause: Malformed,
    rest: Fields<'a>,
) -> Result<(T, Fields<'a>), Malformed>
    ensures { result ≡ codec.found cause value rest.entry }
{
    match value {
        Some(value) => Ok((value, rest)),
        None => Err(cause),
    }
}
