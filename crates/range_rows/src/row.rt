//! The words of a row, read from left to right.
use range_collections::{
    Connective, Expected, JsonError, ParseError, RangeSet2, RangeSetRange, Run, WholeNumber,
};
use range_tests_kit::lists::own;
use serde_json::Value;
use std::alloc::Global;
use std::cmp::Ordering;
use std::default::MadeWith;
use std::ops::Range;

/// A type of numbers, or of characters.
#[derive(Clone, Copy, PartialEq, Eq)]
pub enum Kind {
    Char,
    I128,
    I64,
    I32,
    I16,
    I8,
    Isize,
    U128,
    U64,
    U32,
    U16,
    U8,
    Usize,
}

/// A value that stands in a row as a word.
pub trait Word: Sized {
    /// The value of a word, if it has one.
    fn read(word: &str) -> Option<Self>;
}

/// A number, which is written in decimal digits.
pub trait Number: WholeNumber {}

impl Number for i128 {}

impl Number for i64 {}

impl Number for i32 {}

impl Number for i16 {}

impl Number for i8 {}

impl Number for isize {}

impl Number for u128 {}

impl Number for u64 {}

impl Number for u32 {}

impl Number for u16 {}

impl Number for u8 {}

impl Number for usize {}

impl<T: Number> Word for T {
    fn read(word: &str) -> Option<T> {
        WholeNumber::read(word)
    }
}

/// A character stands for itself, or is written as its number in hexadecimal digits after `U+`.
impl Word for char {
    fn read(word: &str) -> Option<char> {
        if let Some(digits) = word.strip_prefix("U+") {
            return char::from_u32(u32::from_str_radix(digits, 16).ok()?);
        }
        let mut all = word.chars();
        let first = all.next()?;
        all.next().is_none().then_some(first)
    }
}

/// A range that may have no start, and no end.
#[derive(Drop)]
pub enum Part<T> {
    Range(RangeSetRange<T>),
    Until(T),
    Full,
}

/// What of a row isn't read yet.
#[derive(Drop)]
pub struct Row<'a> {
    rest: &'a str,
}

impl<'a> Row<'a> {
    /// The row of this line.
    pub fn new(line: &'a str) -> Row<'a> {
        Row { rest: line.trim() }
    }

    /// Whether all is read.
    pub fn is_read(&self) -> bool {
        self.rest.is_empty()
    }

    /// The type of the values, if the next word names one, and else `i64`.
    pub fn kind(&mut self) -> Kind {
        let Some((word, rest)) = self.rest.split_once(' ') else {
            return Kind::I64;
        };
        let Some(kind) = kind_of(word) else {
            return Kind::I64;
        };
        self.rest = rest;
        kind
    }

    /// A text between quotes, written as in JSON.
    pub fn text(&mut self, alloc: Global) -> Option<String> {
        match self.json(alloc)? {
            Value::String(text) => Some(text),
            _ => None,
        }
    }

    /// A value in JSON.
    pub fn json(&mut self, alloc: Global) -> Option<Value> {
        Value::from_str(alloc, self.json_text()?).ok()
    }

    /// The text of a value in JSON, up to the sign `=` or to the end.
    pub fn json_text(&mut self) -> Option<&'a str> {
        let (text, rest) = match self.rest.split_once(" = ") {
            Some((text, _)) => (text, self.rest.strip_prefix(text)?.trim_start()),
            None => (self.rest, ""),
        };
        self.rest = rest;
        Some(text)
    }

    /// Why a text is not read, if the row says that it isn't.
    pub fn refusal(&mut self) -> Option<Option<ParseError>> {
        if let Some(rest) = self.rest.strip_prefix("expected ") {
            self.rest = rest;
            let expected = self.expected()?;
            return Some(Some(ParseError::Malformed {
                at: self.value()?,
                expected,
            }));
        }
        if self.rest == "out_of_range" {
            self.rest = "";
            return Some(Some(ParseError::OutOfRange));
        }
        Some(None)
    }

    // What was expected, up to the byte.
    fn expected(&mut self) -> Option<Expected> {
        let expected = match self.word()? {
            "number" => Expected::Number,
            "dot" => Expected::Dot,
            "comma" => Expected::Comma,
            _ => return None,
        };
        (self.word()? == "at").then_some(expected)
    }

    /// Why a value in JSON is not read.
    pub fn json_refusal(&mut self) -> Option<JsonError> {
        match self.word()? {
            "not_array" => Some(JsonError::NotArray),
            "not_integer" => Some(JsonError::NotInteger {
                index: self.value()?,
            }),
            _ => None,
        }
    }

    // The next word.
    fn word(&mut self) -> Option<&'a str> {
        if self.rest.is_empty() {
            return None;
        }
        let (word, rest) = match self.rest.split_once(' ') {
            Some((word, rest)) => (word, rest.trim_start()),
            None => (self.rest, ""),
        };
        self.rest = rest;
        Some(word)
    }

    /// The sign `=`, before what is answered.
    pub fn equals(&mut self) -> Option<()> {
        (self.word()? == "=").then_some(())
    }

    /// A value.
    pub fn value<T: Word>(&mut self) -> Option<T> {
        T::read(self.word()?)
    }

    /// A value, or `none`.
    pub fn value_if_any<T: Word>(&mut self) -> Option<Option<T>> {
        let word = self.word()?;
        if word == "none" {
            return Some(None);
        }
        Some(Some(T::read(word)?))
    }

    /// `true` or `false`.
    pub fn truth(&mut self) -> Option<bool> {
        match self.word()? {
            "true" => Some(true),
            "false" => Some(false),
            _ => None,
        }
    }

    /// How one of two stands to the other in order.
    pub fn order(&mut self) -> Option<Ordering> {
        match self.word()? {
            "less" => Some(Ordering::Less),
            "equal" => Some(Ordering::Equal),
            "greater" => Some(Ordering::Greater),
            _ => None,
        }
    }

    /// Whose a run is, and how long it is.
    pub fn run(&mut self) -> Option<Run> {
        match (self.word()?, self.value()?) {
            ("left", length) => Some(Run::Left(length)),
            ("right", length) => Some(Run::Right(length)),
            ("both", 1) => Some(Run::Both),
            _ => None,
        }
    }

    /// A range with an end.
    pub fn range<T: Word + Drop>(&mut self) -> Option<Range<T>> {
        match range_of(self.word()?)? {
            RangeSetRange::Range(range) => Some(range),
            RangeSetRange::RangeFrom(_) => None,
        }
    }

    /// A range, with an end or without.
    pub fn any_range<T: Word + Drop>(&mut self) -> Option<RangeSetRange<T>> {
        range_of(self.word()?)
    }

    /// The start of a range without an end.
    pub fn range_from<T: Word + Drop>(&mut self) -> Option<T> {
        match range_of(self.word()?)? {
            RangeSetRange::Range(_) => None,
            RangeSetRange::RangeFrom(range) => Some(range.start),
        }
    }

    /// A range, or `none`.
    pub fn range_if_any<T: Word + Drop>(&mut self) -> Option<Option<RangeSetRange<T>>> {
        let word = self.word()?;
        if word == "none" {
            return Some(None);
        }
        Some(Some(range_of(word)?))
    }

    /// A range that may have no start, and no end.
    pub fn part<T: Word + Drop>(&mut self) -> Option<Part<T>> {
        let word = self.word()?;
        let Some(end) = word.strip_prefix("..") else {
            return Some(Part::Range(range_of(word)?));
        };
        if end.is_empty() {
            return Some(Part::Full);
        }
        Some(Part::Until(T::read(end)?))
    }

    /// Ranges with commas between them, or `-` for none.
    pub fn ranges<T: Word + Drop>(&mut self, alloc: Global) -> Option<Vec<RangeSetRange<T>>> {
        ranges_of(alloc, self.word()?)
    }

    /// Values with commas between them, or `-` for none.
    pub fn list<T: Word + Drop>(&mut self, alloc: Global) -> Option<Vec<T>> {
        list_of(alloc, self.word()?)
    }

    /// The set of a list of boundaries.
    pub fn set<T: Word + Ord + MadeWith<Global> + Drop + Copy>(
        &mut self,
        alloc: Global,
    ) -> Option<RangeSet2<T>> {
        own(alloc, self.list(alloc)?.as_slice())
    }

    /// The sets of all lists of boundaries up to the sign `=`, which is read, or `none`.
    pub fn sets<T: Word + Ord + MadeWith<Global> + Drop + Copy>(
        &mut self,
        alloc: Global,
    ) -> Option<Vec<RangeSet2<T>>> {
        let (given, rest) = self.rest.split_once(" = ")?;
        self.rest = rest;
        sets_of(alloc, given)
    }

    /// A connective: its answers where neither side is on, the left alone is, the right alone is,
    /// and both are.
    pub fn connective(&mut self) -> Option<Connective> {
        match self.word()?.as_bytes() {
            [neither, left, right, both] => Some(Connective {
                neither: *neither == b'1',
                left: *left == b'1',
                right: *right == b'1',
                both: *both == b'1',
            }),
            _ => None,
        }
    }
}

// The type that a word names.
fn kind_of(word: &str) -> Option<Kind> {
    match word {
        "char" => Some(Kind::Char),
        "i128" => Some(Kind::I128),
        "i64" => Some(Kind::I64),
        "i32" => Some(Kind::I32),
        "i16" => Some(Kind::I16),
        "i8" => Some(Kind::I8),
        "isize" => Some(Kind::Isize),
        "u128" => Some(Kind::U128),
        "u64" => Some(Kind::U64),
        "u32" => Some(Kind::U32),
        "u16" => Some(Kind::U16),
        "u8" => Some(Kind::U8),
        "usize" => Some(Kind::Usize),
        _ => None,
    }
}

// The range of a word, if it is one with a start.
fn range_of<T: Word + Drop>(word: &str) -> Option<RangeSetRange<T>> {
    let (start, end) = word.split_once("..")?;
    let start = T::read(start)?;
    if end.is_empty() {
        return Some(RangeSetRange::from(start..));
    }
    Some(RangeSetRange::from(start..T::read(end)?))
}

// The values of a word, if it is a list.
fn list_of<T: Word + Drop>(alloc: Global, word: &str) -> Option<Vec<T>> {
    let mut items = Vec::new(alloc);
    if word == "-" {
        return Some(items);
    }
    for part in word.split(',') {
        items.push(T::read(part)?).ok()?;
    }
    Some(items)
}

// The ranges of a word, if it has some.
fn ranges_of<T: Word + Drop>(alloc: Global, word: &str) -> Option<Vec<RangeSetRange<T>>> {
    let mut ranges = Vec::new(alloc);
    if word == "-" {
        return Some(ranges);
    }
    for part in word.split(',') {
        ranges.push(range_of(part)?).ok()?;
    }
    Some(ranges)
}

// The sets of words, each of which is a list of boundaries.
fn sets_of<T: Word + Ord + MadeWith<Global> + Drop + Copy>(
    alloc: Global,
    words: &str,
) -> Option<Vec<RangeSet2<T>>> {
    let mut sets = Vec::new(alloc);
    if words == "none" {
        return Some(sets);
    }
    for word in words.split(' ') {
        sets.push(own(alloc, list_of(alloc, word)?.as_slice())?)
            .ok()?;
    }
    Some(sets)
}
