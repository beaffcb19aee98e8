//! Answers the words of a command with one line and a status. Where a request has several lists,
//! all are built before the first is checked.
ghost use Rattle.std.specs.Prelude.{◌≡◌, ◌↔◌, ℕ, List, [], ◌∷◌, ◌++◌, All, FitsSigned, IfOk, IfErr, OnOk, codes, string_bytes};
ghost use Rattle.std.specs.Fmt.{signed_decimal};
ghost use Rattle.std.specs.Int.{w64};
ghost use Rattle.std.specs.Io.KnownBytes.{Appends};
ghost use Rattle.range_collections.specs.Text.{set_text};
ghost use Rattle.range_calc_answers.specs.Line.{list_text, array_text, truth_text};
ghost use Rattle.range_calc_answers.specs.Outcome.{IsOutcome, IsReplyText, IsReplyTo, code_of};
ghost use Rattle.range_calc_answers.specs.Requests.{meaning_of};
ghost use Rattle.range_calc_answers.specs.Words.{asked_by, texts, numbers_of, of_list, of_two_lists, of_list_and_number, of_json};

use crate::request::{ListAndNumber, OneList, Request, TwoLists, numbers};
use range_collections::{JsonError, RangeSet2, RangeSetRef};
use serde_json::{Error, Value};
use std::alloc::{AllocError, Global};
use std::fmt;
use std::io::{self, Write};

/// The number that the program ends with where its output failed.
const OUTPUT_FAILED: u8 = 5;

/// Answers the words with exactly one line and a status.
///
/// All words are read before memory is asked for, and the line is made whole before its first byte
/// is written. If `out` fails or takes no byte, it returns that error, and nothing is said of how
/// much was written.
pub fn answer<W: Write>(alloc: Global, words: &[String], out: &mut W) -> io::Result<Status>
    // The status and the line are an outcome of what the words ask, and the line with its newline
    // is all that is written.
    ensures answers { IfOk result (λ status. (line : List ℕ) ×
        IsOutcome (asked_by (texts words.now)) status line ×
        Appends (W.contents out.old) (W.contents out.new) (line ++ 10 ∷ [])) }
    // The words are bad exactly where they ask nothing.
    ensures bad_words { IfOk result (λ status.
        (status ≡ Status.BadWords) ↔ (asked_by (texts words.now) ≡ None)) }
{
    let Some(request) = Request::of(words) else {
        out.write_all(b"bad words\n")?;
        return Ok(Status::BadWords);
    };
    match reply(alloc, request) {
        Ok(line) => {
            out.write_all(line.as_bytes())?;
            Ok(Status::Answered)
        }
        Err(Fault::NotSorted) => {
            out.write_all(b"not strictly sorted\n")?;
            Ok(Status::NotSorted)
        }
        Err(Fault::BadJson) => {
            out.write_all(b"bad json\n")?;
            Ok(Status::BadJson)
        }
        Err(Fault::NoMemory) => out_of_memory(out),
    }
}

/// Writes the line that says that memory ran out, which itself takes none.
pub fn out_of_memory<W: Write>(out: &mut W) -> io::Result<Status>
    ensures status { IfOk result (λ status. status ≡ Status.NoMemory) }
    ensures line { IfOk result (λ _.
        Appends (W.contents out.old) (W.contents out.new) (codes "out of memory" ++ 10 ∷ [])) }
{
    out.write_all(b"out of memory\n")?;
    Ok(Status::NoMemory)
}

/// How a run ended.
#[derive(Clone, Copy, Debug, PartialEq, Eq)]
pub enum Status {
    /// The words were answered.
    Answered,
    /// Memory ran out.
    NoMemory,
    /// The words are no command with what it takes.
    BadWords,
    /// A list isn't strictly sorted.
    NotSorted,
    /// A JSON text isn't an array of whole numbers of i64.
    BadJson,
}

impl Status {
    /// The number that the program ends with.
    pub fn code(&self) -> u8
        ensures { result ≡ code_of self.now }
    {
        match self {
            Status::Answered => 0,
            Status::NoMemory => 1,
            Status::BadWords => 2,
            Status::NotSorted => 3,
            Status::BadJson => 4,
        }
    }
}

/// The number that the program ends with, by how its answer went.
pub fn exit_code(answered: &io::Result<Status>) -> u8
    ensures ok { IfOk answered.now (λ status. result ≡ code_of status) }
    ensures err { IfErr answered.now (λ _. result ≡ 5) }
{
    match answered {
        Ok(status) => status.code(),
        Err(_) => OUTPUT_FAILED,
    }
}

/// The line of a request with its newline, or why it has none.
pub fn reply(alloc: Global, request: Request<'_>) -> Result<String, Fault>
    ensures { IsReplyTo (meaning_of request.entry) result }
{
    match request {
        Request::OfList(command, a) => list_reply(alloc, command, a),
        Request::OfTwoLists(command, a, b) => two_lists_reply(alloc, command, a, b),
        Request::OfListAndNumber(command, a, n) => list_and_number_reply(alloc, command, a, n),
        Request::OfJson(text) => json_reply(alloc, text),
    }
}

/// The line of a command with one list.
fn list_reply(alloc: Global, command: OneList, a: &str) -> Result<String, Fault>
    ensures { IsReplyTo (of_list command (numbers_of a.now)) result }
{
    let list = numbers(alloc, a)?;
    let set = RangeSet2::new(list).ok_or(Fault::NotSorted)?;
    let line = set_reply(alloc, command, set)?;
    Ok(line)
}

/// The line of a command with one set.
fn set_reply(alloc: Global, command: OneList, set: RangeSet2<i64>) -> Result<String, AllocError>
    requires { All (FitsSigned w64) set }
    ensures { IfOk result (IsReplyText (of_list command set)) }
{
    match command {
        OneList::Not => set_line(alloc, (!set)?),
        OneList::Show => debug_line(alloc, &set),
        OneList::ToJson => array_line(alloc, &set),
    }
}

/// The line of a command with two lists.
fn two_lists_reply(alloc: Global, command: TwoLists, a: &str, b: &str) -> Result<String, Fault>
    ensures { IsReplyTo (of_two_lists command (numbers_of a.now) (numbers_of b.now)) result }
{
    let left = numbers(alloc, a)?;
    let right = numbers(alloc, b)?;
    let left = RangeSet2::new(left).ok_or(Fault::NotSorted)?;
    let right = RangeSet2::new(right).ok_or(Fault::NotSorted)?;
    let line = two_sets_reply(alloc, command, &left, right.as_ref())?;
    Ok(line)
}

/// The line of a command with two sets.
fn two_sets_reply(
    alloc: Global,
    command: TwoLists,
    left: &RangeSet2<i64>,
    right: RangeSetRef<'_, i64>,
) -> Result<String, AllocError>
    ensures { IfOk result (IsReplyText (of_two_lists command left.now right.entry.boundaries.now)) }
{
    match command {
        TwoLists::Union => set_line(alloc, left.union(right)?),
        TwoLists::Intersection => set_line(alloc, left.intersection(right)?),
        TwoLists::Difference => set_line(alloc, left.difference(right)?),
        TwoLists::SymmetricDifference => set_line(alloc, left.symmetric_difference(right)?),
        TwoLists::Disjoint => truth_line(alloc, left.is_disjoint(right)),
        TwoLists::Subset => truth_line(alloc, left.is_subset(right)),
        TwoLists::Superset => truth_line(alloc, left.is_superset(right)),
    }
}

/// The line of a command with a list and a number.
fn list_and_number_reply(
    alloc: Global,
    command: ListAndNumber,
    a: &str,
    n: i64,
) -> Result<String, Fault>
    ensures { IsReplyTo (of_list_and_number command (numbers_of a.now) n) result }
{
    let list = numbers(alloc, a)?;
    let set = RangeSet2::new(list).ok_or(Fault::NotSorted)?;
    let line = set_and_number_reply(alloc, command, &set, n)?;
    Ok(line)
}

/// The line of a command with a set and a number.
fn set_and_number_reply(
    alloc: Global,
    command: ListAndNumber,
    set: &RangeSet2<i64>,
    n: i64,
) -> Result<String, AllocError>
    ensures { IfOk result (IsReplyText (of_list_and_number command set.now n)) }
{
    match command {
        ListAndNumber::Contains => truth_line(alloc, set.contains(&n)),
        ListAndNumber::Split => {
            let (left, right) = set.split(n);
            parts_line(alloc, left.boundaries(), right.boundaries())
        }
    }
}

/// The line of the list that a JSON text holds.
fn json_reply(alloc: Global, text: &str) -> Result<String, Fault>
    ensures { IsReplyTo (of_json text.now) result }
{
    let value = Value::from_str(alloc, text)?;
    let set = RangeSet2::from_json(alloc, &value)?;
    let line = set_line(alloc, set)?;
    Ok(line)
}

/// The boundaries of a set.
pub fn set_line(alloc: Global, set: RangeSet2<i64>) -> Result<String, AllocError>
    ensures { IfOk result (λ line. string_bytes line ≡ list_text set ++ 10 ∷ []) }
{
    let mut line = String::new(alloc);
    push_list(&mut line, set.boundaries())?;
    line.push('\n')?;
    Ok(line)
}

/// Two lists with a space between them.
pub fn parts_line(alloc: Global, left: &[i64], right: &[i64]) -> Result<String, AllocError>
    ensures { IfOk result (λ line.
        string_bytes line ≡ (list_text left.now ++ 32 ∷ list_text right.now) ++ 10 ∷ []) }
{
    let mut line = String::new(alloc);
    push_list(&mut line, left)?;
    line.push(' ')?;
    push_list(&mut line, right)?;
    line.push('\n')?;
    Ok(line)
}

/// `true` or `false`.
pub fn truth_line(alloc: Global, truth: bool) -> Result<String, AllocError>
    ensures { IfOk result (λ line. string_bytes line ≡ truth_text truth ++ 10 ∷ []) }
{
    String::from_str(alloc, if truth { "true\n" } else { "false\n" })
}

/// The ranges of a set, as its Debug text has them.
pub fn debug_line(alloc: Global, set: &RangeSet2<i64>) -> Result<String, AllocError>
    ensures { IfOk result (λ line. string_bytes line ≡ set_text signed_decimal set.now ++ 10 ∷ []) }
{
    let mut line = String::new(alloc);
    write!(line, "{set:?}\n")?;
    Ok(line)
}

/// The boundaries of a set as a JSON array.
pub fn array_line(alloc: Global, set: &RangeSet2<i64>) -> Result<String, AllocError>
    ensures { IfOk result (λ line. string_bytes line ≡ array_text set.now ++ 10 ∷ []) }
{
    let mut line = set.to_json()?.to_string(alloc)?;
    line.push('\n')?;
    Ok(line)
}

/// Appends a list as one word: `-` for the empty one, else its numbers joined by commas.
fn push_list(line: &mut String, items: &[i64]) -> Result<(), AllocError>
    ensures { OnOk result (string_bytes line.new ≡ string_bytes line.old ++ list_text items.now) }
{
    let Some((first, rest)) = items.split_first() else {
        return line.push_str("-");
    };
    write!(line, "{first}")?;
    for n in rest {
        write!(line, ",{n}")?;
    }
    Ok(())
}

/// Why a request has no line of its own.
#[derive(Clone, Copy, Drop)]
pub enum Fault {
    /// Memory ran out.
    NoMemory,
    /// A list isn't strictly sorted.
    NotSorted,
    /// A JSON text isn't an array of whole numbers of i64.
    BadJson,
}

impl From<AllocError> for Fault {
    ghost use Rattle.std.specs.Prelude.{◌≡◌};
    ghost use Rattle.range_calc_answers.specs.declared.answering.Fault.TheVariants.{NoMemory};

    ghost from_gives = { λ _ fault. fault ≡ NoMemory };

    fn from(_refused: AllocError) -> Fault {
        Fault::NoMemory
    }
}

impl From<Error> for Fault {
    ghost use Rattle.range_calc_answers.specs.Faults.{IsFaultOfText};

    ghost from_gives = { IsFaultOfText };

    fn from(error: Error) -> Fault {
        if error.is_memory() {
            Fault::NoMemory
        } else {
            Fault::BadJson
        }
    }
}

impl From<JsonError> for Fault {
    ghost use Rattle.std.specs.Prelude.{◌≡◌};
    ghost use Rattle.range_calc_answers.specs.Faults.{fault_of_value};

    ghost from_gives = { λ error fault. fault ≡ fault_of_value error };

    fn from(error: JsonError) -> Fault {
        match error {
            JsonError::NotArray => Fault::BadJson,
            JsonError::NotInteger { index: _ } => Fault::BadJson,
            JsonError::OutOfMemory => Fault::NoMemory,
        }
    }
}
