//! `pacti DIAGRAM SCRIPT`: reads a diagram of contracts and a script of operations on them, and writes
//! the report of their answers.
#![tactic(auto)]

use pa_desk::{FileShelf, OutSink};
use pa_engine::{Status, run, status_number};
use std::process::ExitCode;
use std::{env, io};

// Where a word is not UTF-8.
const NOT_UTF8: u8 = 9;

// The exit status where the words are not given: memory ran out, or a word is not UTF-8.
fn number_without_words(fault: &io::Error) -> u8 {
    match fault.kind() {
        io::ErrorKind::OutOfMemory => status_number(&Status::Memory),
        _ => NOT_UTF8,
    }
}

fn main(rt: HostRuntime) -> ExitCode {
    let mut given = match env::args(&rt) {
        Ok(given) => given,
        Err(fault) => return ExitCode::from(number_without_words(&fault)),
    };
    let _program = given.next();
    let mut words = Vec::new(rt.alloc());
    for word in given {
        if words.push(word).is_err() {
            return ExitCode::from(status_number(&Status::Memory));
        }
    }
    let mut shelf = FileShelf::new(&rt);
    let mut out = OutSink::new(io::writer(&rt));
    let status = run(rt.alloc(), &words, &mut shelf, &mut out);
    ExitCode::from(status_number(&status))
}
