//! Reads tables of rows, each of which says what a call is given and what it answers, and names the
//! rows that the library answers otherwise.
//!
//! A table is a file of lines, in which a line that begins with `#` says what the words of the rows
//! are. A row that begins with `!` is wrong, and has to be seen: each table has some.
#![tactic(auto)]

mod fitting;
mod making;
mod members;
mod merging;
mod operations;
mod ranges;
mod row;
mod sets;
mod table;
mod texts;

use std::io;
use std::process::ExitCode;
use std::rt::Files;

fn main(rt: HostRuntime) -> ExitCode {
    match every_row_holds(&rt) {
        Ok(true) => ExitCode::SUCCESS,
        _ => ExitCode::FAILURE,
    }
}

/// Whether the rows of all tables hold.
fn every_row_holds(rt: &(impl Files + Print + AllocGlobal)) -> io::Result<bool> {
    let members = table::all_hold(rt, &members::TABLES)?;
    let ranges = table::all_hold(rt, &ranges::TABLES)?;
    let texts = table::all_hold(rt, &texts::TABLES)?;
    let fitting = table::all_hold(rt, &fitting::TABLES)?;
    let making = table::all_hold(rt, &making::TABLES)?;
    let sets = table::all_hold(rt, &sets::TABLES)?;
    let merging = table::all_hold(rt, &merging::TABLES)?;
    let operations = table::all_hold(rt, &operations::TABLES)?;
    Ok(members && ranges && texts && fitting && making && sets && merging && operations)
}
