//! A calculator of sets of whole numbers, which are given by their boundaries.
//!
//! It answers its arguments with one line, and ends with a status that says how that went.
#![tactic(auto)]

use range_calc_answers::{answer, default_words, exit_code, out_of_memory};
use std::env;
use std::io::{self, ErrorKind};
use std::process::ExitCode;
use std::rt::Env;

fn main(rt: HostRuntime) -> ExitCode {
    let mut out = io::writer(&rt);
    let status = match arguments(&rt) {
        Ok(words) => answer(rt.alloc(), words.as_slice(), &mut out),
        Err(error) if error.kind() == ErrorKind::OutOfMemory => out_of_memory(&mut out),
        // An argument that is no text is no word of a command.
        Err(_) => answer(rt.alloc(), &[], &mut out),
    };
    ExitCode::from(exit_code(&status))
}

/// The arguments without the program's name; where there are none, the default words.
fn arguments(rt: &(impl Env + AllocGlobal)) -> io::Result<Vec<String>> {
    let mut args = env::args(rt)?;
    let _program = args.next();
    let words: Vec<String> = args.collect(rt.alloc())?;
    if words.is_empty() {
        return Ok(default_words(rt.alloc())?);
    }
    Ok(words)
}
