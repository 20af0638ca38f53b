//! The theorem of this crate is that `main` is safe and ends.
//!
//! The program: it gathers its words, and does what they ask for, from standard input to standard output.
#![tactic(auto)]

use bbm_io::{StdSink, StdSource};
use bbm_session::run;
use bbm_texts::{Status, number};
use std::io::ErrorKind;
use std::process::ExitCode;
use std::rt::Env;
use std::{env, io};

/// The words after the program's name.
fn words<R: Env + AllocGlobal>(rt: &R) -> io::Result<Vec<String>> {
    let mut words = Vec::new(rt.alloc());
    for word in env::args(rt)?.skip(1) {
        words.push(word)?;
    }
    Ok(words)
}

/// Words that couldn't be gathered, as where one isn't Unicode, ask for nothing. Where there was no memory for them
/// nothing is read or written.
fn main(rt: HostRuntime) -> ExitCode {
    let mut log = StdSource::new(rt.stdin());
    let mut out = StdSink::new(rt.stdout());
    let status = match words(&rt) {
        Ok(words) => run(rt.alloc(), &words, &mut log, &mut out),
        Err(error) => {
            if error.kind() == ErrorKind::OutOfMemory {
                Status::NoMemory
            } else {
                run(rt.alloc(), &Vec::new(rt.alloc()), &mut log, &mut out)
            }
        }
    };
    ExitCode::from(number(status))
}
