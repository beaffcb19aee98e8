//! Keeps track of offsets that are there, as of a file that comes in pieces.
//!
//! It reads commands from its input, one a line, and answers each with one line before it reads the
//! next. Its one argument is the most boundaries that there may be.
#![tactic(auto)]

use range_chunked_tracker::ChunkedTracker;
use range_track_answers::{Status, limit_asked, serve};
use std::env;
use std::io::{self, BufReader, BufWriter, ErrorKind};
use std::process::ExitCode;
use std::rt::Env;

fn main(rt: HostRuntime) -> ExitCode {
    let status = match run(&rt) {
        Ok(status) => status,
        Err(error) if error.kind() == ErrorKind::OutOfMemory => out_of_memory(&rt),
        Err(_) => Status::Failed,
    };
    ExitCode::from(status.code())
}

/// Answers the lines of the input, or says why it doesn't.
fn run(rt: &(impl Env + Input + Print + AllocGlobal)) -> io::Result<Status> {
    let mut out = io::writer(rt);
    let limit = match arguments(rt) {
        Ok(words) => limit_asked(words.as_slice()),
        Err(error) if error.kind() == ErrorKind::OutOfMemory => return Err(error),
        // An argument that is no text is no limit.
        Err(_) => None,
    };
    let Some(limit) = limit else {
        return Ok(Status::BadLimit.write_line(&mut out, b"bad limit\n"));
    };
    let reader = BufReader::new(rt.alloc(), rt.reader())?;
    let mut writer = BufWriter::new(rt.alloc(), out)?;
    let mut tracker = ChunkedTracker::new(rt.alloc(), limit)?;
    match serve(&mut tracker, reader, &mut writer) {
        Ok(()) => Ok(Status::Ended),
        // The input or the output failed, whatever the kind of its error.
        Err(_) => Ok(Status::Failed),
    }
}

/// Says that there was no memory to begin with, which itself takes none.
fn out_of_memory(rt: &impl Print) -> Status {
    Status::NoMemory.write_line(&mut io::writer(rt), b"out of memory\n")
}

/// The arguments without the program's name.
fn arguments(rt: &(impl Env + AllocGlobal)) -> io::Result<Vec<String>> {
    let mut args = env::args(rt)?;
    let _program = args.next();
    Ok(args.collect(rt.alloc())?)
}
