//! What the words of a command ask. They are read without memory, and each list of them is built
//! afterwards.
ghost use Rattle.std.specs.Prelude.{◌≡◌, [], ◌∷◌, IfOk, codes};
ghost use Rattle.std.specs.Option.{option_map, option_and_then};
ghost use Rattle.range_collections.specs.Reading.{signed_number};
ghost use Rattle.range_calc_answers.specs.Words.{of_list, of_two_lists, of_list_and_number, is_list, list_of, numbers_of, one_list, two_lists, list_and_number, asked_of_both, asked_by, texts};
ghost use Rattle.range_calc_answers.specs.Requests.{meaning_of};

use smallvec::SmallVec;
use std::alloc::{AllocError, Global};

/// What the words ask, with each list still as its word.
#[derive(Clone, Copy, Drop)]
pub enum Request<'a> {
    /// A command with one list.
    OfList(OneList, &'a str),
    /// A command with two lists.
    OfTwoLists(TwoLists, &'a str, &'a str),
    /// A command with a list and a number.
    OfListAndNumber(ListAndNumber, &'a str, i64),
    /// The list that a JSON text holds.
    OfJson(&'a str),
}

impl<'a> Request<'a> {
    /// What the words ask, if they ask something.
    pub fn of(words: &'a [String]) -> Option<Request<'a>>
        ensures { asked_by (texts words.now) ≡ option_map meaning_of result }
    {
        match words.len() {
            2 => two_words(words[0].as_str(), words[1].as_str()),
            3 => three_words(words[0].as_str(), words[1].as_str(), words[2].as_str()),
            _ => None,
        }
    }
}

/// A command with one list.
#[derive(Clone, Copy)]
pub enum OneList {
    /// The numbers that are no members.
    Not,
    /// The ranges as text.
    Show,
    /// The boundaries as a JSON array.
    ToJson,
}

impl OneList {
    /// The command with this word, if there is one.
    pub fn named(word: &str) -> Option<OneList>
        ensures { one_list word.now ≡ result }
    {
        match word {
            "not" => Some(OneList::Not),
            "show" => Some(OneList::Show),
            "to_json" => Some(OneList::ToJson),
            _ => None,
        }
    }
}

/// A command with two lists.
#[derive(Clone, Copy)]
pub enum TwoLists {
    /// What is a member of one of the two, or of both.
    Union,
    /// What is a member of both.
    Intersection,
    /// What is a member of the left and not of the right.
    Difference,
    /// What is a member of one of the two and not of the other.
    SymmetricDifference,
    /// Whether nothing is a member of both.
    Disjoint,
    /// Whether every member of the left is one of the right.
    Subset,
    /// Whether every member of the right is one of the left.
    Superset,
}

impl TwoLists {
    /// The command with this word, if there is one.
    pub fn named(word: &str) -> Option<TwoLists>
        ensures { two_lists word.now ≡ result }
    {
        match word {
            "union" => Some(TwoLists::Union),
            "intersection" => Some(TwoLists::Intersection),
            "difference" => Some(TwoLists::Difference),
            "symmetric_difference" => Some(TwoLists::SymmetricDifference),
            "disjoint" => Some(TwoLists::Disjoint),
            "subset" => Some(TwoLists::Subset),
            "superset" => Some(TwoLists::Superset),
            _ => None,
        }
    }
}

/// A command with a list and a number.
#[derive(Clone, Copy)]
pub enum ListAndNumber {
    /// Whether the number is a member.
    Contains,
    /// The members below the number, and those from it on.
    Split,
}

impl ListAndNumber {
    /// The command with this word, if there is one.
    pub fn named(word: &str) -> Option<ListAndNumber>
        ensures { list_and_number word.now ≡ result }
    {
        match word {
            "contains" => Some(ListAndNumber::Contains),
            "split" => Some(ListAndNumber::Split),
            _ => None,
        }
    }
}

/// The words that are answered where none are given.
pub fn default_words(alloc: Global) -> Result<Vec<String>, AllocError>
    ensures { IfOk result (λ words.
        texts words.items ≡ codes "union" ∷ codes "0,10" ∷ codes "20" ∷ []) }
{
    let union = String::from_str(alloc, "union")?;
    let left = String::from_str(alloc, "0,10")?;
    let right = String::from_str(alloc, "20")?;
    Ok(vec![in alloc; union, left, right]?)
}

/// The numbers of a list word, in order.
pub fn numbers(alloc: Global, word: &str) -> Result<SmallVec<i64, 2>, AllocError>
    ensures { IfOk result (λ list. list.items ≡ numbers_of word.now) }
{
    word.split(',')
        .filter_map(|part| number(part))
        .collect(alloc)
}

/// What a command with one more word asks, if it asks something. The text of `json` may be any
/// word.
fn two_words<'a>(command: &'a str, word: &'a str) -> Option<Request<'a>>
    ensures { asked_by (command.now ∷ word.now ∷ []) ≡ option_map meaning_of result }
{
    if command == "json" {
        Some(Request::OfJson(word))
    } else {
        of_list(command, word)
    }
}

/// What a command with two more words asks, if it asks something.
fn three_words<'a>(command: &'a str, a: &'a str, b: &'a str) -> Option<Request<'a>>
    ensures { asked_by (command.now ∷ a.now ∷ b.now ∷ []) ≡ option_map meaning_of result }
{
    of_list_and_number(command, a, b).or(of_two_lists(command, a, b))
}

/// What a command with one list asks of the word, if it is one.
fn of_list<'a>(command: &'a str, a: &'a str) -> Option<Request<'a>>
    ensures { option_and_then (λ found. option_map (of_list found) (list_of a.now)) (one_list command.now) ≡
        option_map meaning_of result }
{
    let command = OneList::named(command)?;
    if is_list(a) {
        Some(Request::OfList(command, a))
    } else {
        None
    }
}

/// What a command with two lists asks of two words, if they are lists.
fn of_two_lists<'a>(command: &'a str, a: &'a str, b: &'a str) -> Option<Request<'a>>
    ensures { option_and_then (λ found. asked_of_both (of_two_lists found) (list_of a.now) (list_of b.now))
        (two_lists command.now) ≡ option_map meaning_of result }
{
    let command = TwoLists::named(command)?;
    if is_list(a) && is_list(b) {
        Some(Request::OfTwoLists(command, a, b))
    } else {
        None
    }
}

/// What a command with a list and a number asks of two words, if they are these.
fn of_list_and_number<'a>(command: &'a str, a: &'a str, n: &'a str) -> Option<Request<'a>>
    ensures { option_and_then (λ found. asked_of_both (of_list_and_number found)
        (list_of a.now) (signed_number 63 n.now)) (list_and_number command.now) ≡ option_map meaning_of result }
{
    let command = ListAndNumber::named(command)?;
    let n = number(n)?;
    if is_list(a) {
        Some(Request::OfListAndNumber(command, a, n))
    } else {
        None
    }
}

/// Whether the word is `-`, or numbers joined by commas.
fn is_list(word: &str) -> bool
    ensures { result ≡ is_list word.now }
{
    word == "-" || word.split(',').all(|part| number(part).is_some())
}

/// The whole number that the word writes, if it is one within i64.
fn number(word: &str) -> Option<i64>
    ensures { result ≡ signed_number 63 word.now }
{
    word.parse::<i64>().ok()
}
