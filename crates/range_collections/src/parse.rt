//! Sets read from a text of ranges, and why a text is not read as one. Where it stops being one is
//! found character by character: a table says what may follow what.
ghost use Rattle.std.specs.Prelude.{◌≡◌, ◌≢◌, ◌↔◌, ◌≤◌, true, false, Any, length, IsOk, IfOk, IfErr, IfSome};
ghost use Rattle.std.specs.Option.{is_some};
ghost use Rattle.range_merge.specs.Boundaries.{member};
ghost use Rattle.range_collections.specs.Ranges.{IsInRange};
ghost use Rattle.range_collections.specs.ParseErrors.{IsFaultIn};
ghost use Rattle.range_collections.specs.Reading.{parts_of, range_up_to, range_in, is_ranges, ranges_in};
ghost use Rattle.range_collections.specs.declared.parse.ParseError.TheVariants.{OutOfMemory};
ghost use Rattle.range_collections.specs.Scanning.{after, expected, is_end, kind_of};

use crate::range_set::RangeSet;
use crate::range_set::many_ranges::{Aside, add, finished};
use crate::range_set_range::RangeSetRange;
use crate::whole_number::WholeNumber;
use range_entry::EntryClone;
use std::alloc::{AllocError, Global};
use std::default::MadeWith;
use std::error::Error;
use std::fmt;

/// Why a text isn't read as a set.
#[derive(Clone, Copy, Debug, PartialEq, Eq, Drop)]
pub enum ParseError {
    /// The text is one of ranges up to the byte `at`, where something else was expected.
    Malformed { at: usize, expected: Expected },
    /// A number doesn't fit the type.
    OutOfRange,
    /// Memory ran out.
    OutOfMemory,
}

/// What was expected in a text.
#[derive(Clone, Copy, Debug, PartialEq, Eq, Drop)]
pub enum Expected {
    /// A number, or a further digit of one. After the two dots a comma or the end may stand as
    /// well.
    Number,
    /// One of the two dots of a range.
    Dot,
    /// A comma, or the end of the text.
    Comma,
}

impl fmt::Display for Expected {
    ghost use Rattle.std.specs.Prelude.{Some};
    ghost use Rattle.range_collections.specs.ParseErrors.{expected_text};

    ghost output = { λ expected. Some (expected_text expected) };

    fn fmt<W: fmt::Write>(&self, f: &mut fmt::Formatter<W>) -> fmt::Result {
        match self {
            Expected::Number => f.write_str("a number"),
            Expected::Dot => f.write_str("a dot"),
            Expected::Comma => f.write_str("a comma or the end"),
        }
    }
}

impl fmt::Display for ParseError {
    ghost use Rattle.std.specs.Prelude.{Some};
    ghost use Rattle.range_collections.specs.ParseErrors.{parse_error_text};

    ghost output = { λ error. Some (parse_error_text error) };

    fn fmt<W: fmt::Write>(&self, f: &mut fmt::Formatter<W>) -> fmt::Result {
        match self {
            ParseError::Malformed { at, expected } => {
                write!(f, "{expected} was expected at byte {at}")
            }
            ParseError::OutOfRange => f.write_str("a number is past those of its type"),
            ParseError::OutOfMemory => f.write_str("memory ran out"),
        }
    }
}

impl Error for ParseError {}

impl From<AllocError> for ParseError {
    ghost use Rattle.std.specs.Prelude.{◌≡◌};
    ghost use Rattle.range_collections.specs.declared.parse.ParseError.TheVariants.{OutOfMemory};

    ghost from_gives = { λ _ error. error ≡ OutOfMemory };

    fn from(_refused: AllocError) -> Self {
        Self::OutOfMemory
    }
}

impl<T: EntryClone + WholeNumber + MadeWith<Global> + Drop, const N: usize> RangeSet<T, N> {
    /// Reads ranges like `0..10, 20..`: in any order, with commas between them and blanks around
    /// each. A text of blanks is the empty set.
    ///
    /// One range that fits inline asks for no memory. An error gives the byte at which the text
    /// stops being one of ranges, and what was expected there; or it says that a number doesn't fit
    /// its type. It says only of a text of ranges that memory ran out.
    pub fn parse(alloc: Global, text: &str) -> Result<Self, ParseError>
        ensures ok { IfOk result (λ set. is_ranges T.number text.now ≡ true) }
        ensures members { IfOk result (λ set. (x : T) → (member T.cmp set x ≡ true) ↔ Any (λ range. IsInRange T.cmp range x) (ranges_in T.number text.now)) }
        ensures succeeds { length (parts_of text.now) ≤ 1 → 2 ≤ N → is_ranges T.number text.now ≡ true → IsOk result }
        ensures malformed { IfErr result (λ error. error ≢ OutOfMemory → is_ranges T.number text.now ≡ false) }
        ensures fault { IfErr result (λ error. error ≢ OutOfMemory → IsFaultIn text.now error) }
        ensures out_of_memory { IfErr result (λ error. error ≡ OutOfMemory → is_ranges T.number text.now ≡ true) }
    {
        match read(alloc, text) {
            Ok(Some(set)) => Ok(set),
            Ok(None) => Err(fault_in(text)),
            Err(refused) => {
                check_ranges::<T>(text)?;
                Err(ParseError::from(refused))
            }
        }
    }
}

impl<T: WholeNumber + Drop> RangeSetRange<T> {
    /// Reads one range like `0..10` or `20..`, with blanks around it, or returns `None` where the
    /// text isn't that.
    #[inline]
    pub fn parse(text: &str) -> Option<Self>
        ensures { result ≡ range_in T.number text.now }
    {
        range_in(text)
    }
}

/// Checks that `RangeSet::parse` reads the text, unless memory runs out, or says why it doesn't. It
/// takes no memory.
pub fn check_ranges<T: WholeNumber + Drop>(text: &str) -> Result<(), ParseError>
    ensures ok { IsOk result ↔ (is_ranges T.number text.now ≡ true) }
    ensures fault { IfErr result (IsFaultIn text.now) }
{
    if is_ranges::<T>(text) {
        Ok(())
    } else {
        Err(fault_in(text))
    }
}

// The set of the ranges of a text, if it is one of blanks, or of ranges with commas between them.
fn read<T: Ord + WholeNumber + MadeWith<Global> + Drop, const N: usize>(
    alloc: Global,
    text: &str,
) -> Result<Option<RangeSet<T, N>>, AllocError>
    ensures ok { IfOk result (λ read. is_some read ≡ is_ranges T.number text.now) }
    ensures members { IfOk result (λ read. IfSome read (λ set. (x : T) → (member T.cmp set x ≡ true) ↔ Any (λ range. IsInRange T.cmp range x) (ranges_in T.number text.now))) }
    ensures succeeds { length (parts_of text.now) ≤ 1 → 2 ≤ N → IsOk result }
{
    let mut set = RangeSet::empty(alloc);
    let mut aside = Aside::new(alloc);
    for part in text.split(',') {
        match range_in(part) {
            Some(range) => add(&mut set, &mut aside, range)?,
            None => {
                if !text.trim().is_empty() {
                    return Ok(None);
                }
            }
        }
    }
    Ok(Some(finished(alloc, set, aside)?))
}

// Whether the text is one of blanks, or of ranges with commas between them.
fn is_ranges<T: WholeNumber + Drop>(text: &str) -> bool
    ensures { result ≡ is_ranges T.number text.now }
{
    text.trim().is_empty() || text.split(',').all(|part| range_in::<T>(part).is_some())
}

// The range that a part of a text writes, if it writes one.
fn range_in<T: WholeNumber + Drop>(part: &str) -> Option<RangeSetRange<T>>
    ensures { result ≡ range_in T.number part.now }
{
    let (start, after) = part.trim().split_once('.')?;
    let start = T::read(start)?;
    range_up_to(start, after.strip_prefix('.')?)
}

// The range from the start on, up to the end if one is written.
fn range_up_to<T: WholeNumber + Drop>(start: T, end: &str) -> Option<RangeSetRange<T>>
    ensures { result ≡ range_up_to T.number start end.now }
{
    if end.is_empty() {
        return Some(RangeSetRange::from(start..));
    }
    let end = T::read(end)?;
    Some(RangeSetRange::from(start..end))
}

// What a character is in the text of a list of ranges.
#[derive(Clone, Copy, Drop)]
enum Kind {
    Blank,
    Comma,
    Dot,
    Sign,
    Digit,
    Other,
}

impl Kind {
    // The kind of a character.
    fn of(c: char) -> Kind
        ensures { result ≡ kind_of c }
    {
        if c == ',' {
            Kind::Comma
        } else if c == '.' {
            Kind::Dot
        } else if c == '+' || c == '-' {
            Kind::Sign
        } else if c.is_ascii_digit() {
            Kind::Digit
        } else if c.is_whitespace() {
            Kind::Blank
        } else {
            Kind::Other
        }
    }
}

// How far the text of a list of ranges is read.
#[derive(Clone, Copy, Drop)]
enum State {
    // At the start of the text.
    First,
    // After a comma.
    Start,
    // After the sign of a start, and inside of one.
    StartSign,
    InStart,
    // After one dot, and after both.
    OneDot,
    End,
    // After the sign of an end, and inside of one.
    EndSign,
    InEnd,
    // After a range and a blank.
    After,
}

impl State {
    // What is expected there.
    fn expected(self) -> Expected
        ensures { result ≡ expected self }
    {
        match self {
            State::First | State::Start | State::StartSign | State::End | State::EndSign => {
                Expected::Number
            }
            State::InStart | State::OneDot => Expected::Dot,
            State::InEnd | State::After => Expected::Comma,
        }
    }

    // Whether the text may end there.
    fn is_end(self) -> bool
        ensures { result ≡ is_end self }
    {
        match self {
            State::First | State::End | State::InEnd | State::After => true,
            State::Start | State::StartSign | State::InStart | State::OneDot | State::EndSign =>
                false,
        }
    }

    // The state after a character of this kind, if it may stand there.
    fn after(self, kind: Kind) -> Option<State>
        ensures { result ≡ after self kind }
    {
        match (self, kind) {
            (State::First, Kind::Blank) => Some(State::First),
            (State::Start, Kind::Blank) => Some(State::Start),
            (State::First | State::Start, Kind::Sign) => Some(State::StartSign),
            (State::First | State::Start, Kind::Digit) => Some(State::InStart),
            (State::StartSign | State::InStart, Kind::Digit) => Some(State::InStart),
            (State::InStart, Kind::Dot) => Some(State::OneDot),
            (State::OneDot, Kind::Dot) => Some(State::End),
            (State::End, Kind::Sign) => Some(State::EndSign),
            (State::End | State::EndSign | State::InEnd, Kind::Digit) => Some(State::InEnd),
            (State::End | State::InEnd | State::After, Kind::Blank) => Some(State::After),
            (State::End | State::InEnd | State::After, Kind::Comma) => Some(State::Start),
            _ => None,
        }
    }
}

// Why a text that writes no ranges doesn't: the first byte that may not stand where it does, or
// else a number.
fn fault_in(text: &str) -> ParseError
    ensures { IsFaultIn text.now result }
{
    let mut state = State::First;
    for (at, c) in text.char_indices() {
        match state.after(Kind::of(c)) {
            Some(next) => state = next,
            None => {
                let expected = state.expected();
                return ParseError::Malformed { at, expected };
            }
        }
    }
    if state.is_end() {
        ParseError::OutOfRange
    } else {
        let expected = state.expected();
        ParseError::Malformed {
            at: text.len(),
            expected,
        }
    }
}
