//! What a line asks, and the limit that the arguments ask for. Both are read without memory.
ghost use Rattle.std.specs.Prelude.{◌≡◌, [], ◌∷◌, ◌-◌, ◌≤◌, IfSome};
ghost use Rattle.range_track_answers.specs.Requests.{request_of, asked_by, words_of, words_after, number_of, is_numeral};
ghost use Rattle.range_track_answers.specs.Limit.{limit_of, texts};

use range_tracker::Command;
use std::ops::Range;
use std::str;

/// The most bytes of a line that asks something.
pub const MOST_BYTES: usize = 64;

/// What a line asks.
#[derive(Debug, Drop)]
pub enum Request {
    /// To do a command.
    Do(Command),
    /// Whether each offset of the range is there.
    Has(Range<u64>),
    /// Which offsets below the number aren't there.
    Missing(u64),
    /// Which offsets are there.
    Ranges,
}

impl Request {
    /// What the line asks, if it asks something.
    pub fn of(line: &[u8]) -> Option<Request>
        ensures { result ≡ request_of line.now }
    {
        if line.len() > MOST_BYTES {
            return None;
        }
        match str::from_utf8(line) {
            Ok(text) => of_text(text),
            Err(_) => None,
        }
    }
}

/// What the text asks, if it asks something.
fn of_text(text: &str) -> Option<Request>
    ensures { result ≡ asked_by (words_of text.now) }
{
    match cut(text) {
        (word, None) => of_word(word),
        (word, Some(rest)) => of_words(word, rest),
    }
}

/// The first word of the text, and what comes after its blank, if there is one.
fn cut(text: &str) -> (&str, Option<&str>)
    ensures { words_of text.now ≡ result.0.now ∷ words_after result.1 }
{
    match text.split_once(' ') {
        Some((word, rest)) => (word, Some(rest)),
        None => (text, None),
    }
}

/// What a word alone asks, if it asks something.
fn of_word(word: &str) -> Option<Request>
    ensures { result ≡ asked_by (word.now ∷ []) }
{
    match word {
        "ranges" => Some(Request::Ranges),
        _ => None,
    }
}

/// What a word asks with those after it, if it asks something.
fn of_words(word: &str, rest: &str) -> Option<Request>
    ensures { result ≡ asked_by (word.now ∷ words_of rest.now) }
{
    match cut(rest) {
        (n, None) => of_number(word, n),
        (start, Some(rest)) => of_two_words(word, start, rest),
    }
}

/// What two words ask with those after them, if they ask something.
fn of_two_words(word: &str, start: &str, rest: &str) -> Option<Request>
    ensures { result ≡ asked_by (word.now ∷ start.now ∷ words_of rest.now) }
{
    match cut(rest) {
        (end, None) => of_range(word, start, end),
        (_, Some(_)) => None,
    }
}

/// What a word asks with one number, if it asks something.
fn of_number(word: &str, n: &str) -> Option<Request>
    ensures { result ≡ asked_by (word.now ∷ n.now ∷ []) }
{
    match word {
        "missing" => Some(Request::Missing(number(n)?)),
        _ => None,
    }
}

/// What a word asks with two numbers, if it asks something.
fn of_range(word: &str, start: &str, end: &str) -> Option<Request>
    ensures { result ≡ asked_by (word.now ∷ start.now ∷ end.now ∷ []) }
{
    let start = number(start)?;
    let end = number(end)?;
    match word {
        "+" => Some(Request::Do(Command::Add(start..end))),
        "-" => Some(Request::Do(Command::Forget(start..end))),
        "?" => Some(Request::Has(start..end)),
        _ => None,
    }
}

/// The most boundaries that there may be where no argument says so.
const USUAL_LIMIT: usize = 1_000_000;

/// The limit that the arguments ask for, if they are none or one number that leaves room for two
/// more.
pub fn limit_asked(words: &[String]) -> Option<usize>
    ensures value { result ≡ limit_of (texts words.now) }
    ensures within { IfSome result (λ limit. limit ≤ usize.MAX - 2) }
{
    match words.len() {
        0 => Some(USUAL_LIMIT),
        1 => limit_written(words[0].as_str()),
        _ => None,
    }
}

/// The limit that the word writes, if it writes one.
fn limit_written(word: &str) -> Option<usize>
    ensures value { result ≡ limit_of (word.now ∷ []) }
    ensures within { IfSome result (λ limit. limit ≤ usize.MAX - 2) }
{
    let limit = number(word)?;
    if limit <= u64::MAX - 2 {
        Some(limit as usize)
    } else {
        None
    }
}

/// The number of u64 that the word writes in 1 to 20 digits, if it writes one.
pub fn number(word: &str) -> Option<u64>
    ensures { result ≡ number_of word.now }
{
    if is_numeral(word) {
        word.parse::<u64>().ok()
    } else {
        None
    }
}

/// Whether the word is 1 to 20 digits.
fn is_numeral(word: &str) -> bool
    ensures { result ≡ is_numeral word.now }
{
    match word.len() {
        1..=20 => word.bytes().all(|byte| byte.is_ascii_digit()),
        _ => false,
    }
}
