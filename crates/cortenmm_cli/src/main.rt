//! The program `cortenmm`: standard input and output, and the words of its command line.
#![tactic(auto)]

mod standard;

use corten_run::corten_plain;
use standard::{StdSink, StdSource};
use std::process::ExitCode;
use std::rt::Env;
use std::{env, io};

/// The words after the program's name.
fn words_of<R: Env + AllocGlobal>(rt: &R) -> io::Result<Vec<String>> {
    let mut words = Vec::new(rt.alloc());
    for word in env::args(rt)?.skip(1) {
        words.push(word)?;
    }
    Ok(words)
}

fn main(rt: HostRuntime) -> ExitCode {
    let words = match words_of(&rt) {
        Ok(words) => words,
        Err(error) if error.kind() == io::ErrorKind::OutOfMemory => return ExitCode::from(5),
        // a word that is no text is none of the program's words, as no word is
        Err(_) => Vec::new(rt.alloc()),
    };
    let mut source = StdSource {
        input: rt.stdin(),
        faults: 0,
    };
    let mut sink = StdSink {
        output: rt.stdout(),
        faults: 0,
    };
    ExitCode::from(corten_plain(rt.alloc(), words.as_slice(), &mut source, &mut sink))
}
