//! Texts that sets are read from and written as.
use crate::row::{Kind, Row};
use crate::table::Table;
use range_collections::{RangeSet2, RangeSetRange, WholeNumber, check_ranges};
use range_tests_kit::lists::prints;
use serde_json::Value;
use std::alloc::Global;
use std::fmt::{Debug, Display};

/// What is read or written.
#[derive(Clone, Copy)]
pub enum Text {
    Parse,
    ParseRange,
    ToString,
    Json,
}

pub const TABLES: [Text; 4] = [Text::Parse, Text::ParseRange, Text::ToString, Text::Json];

impl Table for Text {
    fn file(&self) -> &'static str {
        match self {
            Text::Parse => "parse.txt",
            Text::ParseRange => "parse_range.txt",
            Text::ToString => "to_string.txt",
            Text::Json => "json.txt",
        }
    }

    fn holds(&self, alloc: Global, row: &mut Row) -> Option<bool> {
        match (self, row.kind()) {
            (Text::Parse, Kind::I64) => parse(alloc, row),
            (Text::Parse, Kind::U8) => parse_bytes(alloc, row),
            (Text::ParseRange, Kind::U8) => parse_range(alloc, row),
            (Text::ToString, kind) => to_string(kind, alloc, row),
            (Text::Json, Kind::I64) => json(alloc, row),
            _ => None,
        }
    }
}

// The set of a text of ranges, or why it is none, which a check without memory says as well.
fn parse(alloc: Global, row: &mut Row) -> Option<bool> {
    let text = row.text(alloc)?;
    row.equals()?;
    let checked = check_ranges::<i64>(text.as_str()).err();
    let found = RangeSet2::<i64>::parse(alloc, text.as_str());
    let want = row.refusal()?;
    let is_right = match found {
        Ok(set) => want.is_none() && set.boundaries() == row.list(alloc)?.as_slice(),
        Err(error) => want == Some(error),
    };
    Some(is_right && checked == want)
}

// The same of small numbers.
fn parse_bytes(alloc: Global, row: &mut Row) -> Option<bool> {
    let text = row.text(alloc)?;
    row.equals()?;
    let checked = check_ranges::<u8>(text.as_str()).err();
    let found = RangeSet2::<u8>::parse(alloc, text.as_str());
    let want = row.refusal()?;
    let is_right = match found {
        Ok(set) => want.is_none() && set.boundaries() == row.list(alloc)?.as_slice(),
        Err(error) => want == Some(error),
    };
    Some(is_right && checked == want)
}

// One range of a text.
fn parse_range(alloc: Global, row: &mut Row) -> Option<bool> {
    let text = row.text(alloc)?;
    row.equals()?;
    Some(RangeSetRange::<u8>::parse(text.as_str()) == row.range_if_any()?)
}

// The text of a set and of its view, and that of its Debug form.
fn to_string(kind: Kind, alloc: Global, row: &mut Row) -> Option<bool> {
    match kind {
        Kind::Char => characters_to_string(row.set(alloc)?, alloc, row),
        Kind::I64 => numbers_to_string(row.set::<i64>(alloc)?, alloc, row),
        Kind::I32 => numbers_to_string(row.set::<i32>(alloc)?, alloc, row),
        Kind::I8 => numbers_to_string(row.set::<i8>(alloc)?, alloc, row),
        Kind::U8 => numbers_to_string(row.set::<u8>(alloc)?, alloc, row),
        _ => None,
    }
}

fn numbers_to_string<T: Ord + WholeNumber + Drop>(
    set: RangeSet2<T>,
    alloc: Global,
    row: &mut Row,
) -> Option<bool> {
    are_written(&set, &set.as_ref(), alloc, row)
}

// Each character stands between quotes, as Rust prints it.
fn characters_to_string(set: RangeSet2<char>, alloc: Global, row: &mut Row) -> Option<bool> {
    are_written(&set, &set.as_ref(), alloc, row)
}

// Whether a set and its view have the text that stands in the row, which the set's Debug form has
// between braces.
fn are_written<S: Display + Debug, V: Display>(
    set: &S,
    view: &V,
    alloc: Global,
    row: &mut Row,
) -> Option<bool> {
    row.equals()?;
    let text = row.text(alloc)?;
    let want = text.as_str();
    Some(reads(alloc, set, want) && reads(alloc, view, want) && is_braced(alloc, set, want))
}

// Whether the value has this text.
fn reads<T: Display>(alloc: Global, value: &T, want: &str) -> bool {
    match format!(in alloc; "{value}") {
        Ok(text) => text.as_str() == want,
        Err(_) => false,
    }
}

// Whether the Debug text of the value is that, between braces.
fn is_braced<T: Debug>(alloc: Global, value: &T, want: &str) -> bool {
    match format!(in alloc; "RangeSet{{{want}}}") {
        Ok(braced) => prints(alloc, value, braced.as_str()),
        Err(_) => false,
    }
}

// Whether a set is written as this value, with this text.
fn is_written(alloc: Global, set: &RangeSet2<i64>, want: &str) -> Option<bool> {
    let json = set.to_json().ok()?;
    let is_same = json == Value::from_str(alloc, want).ok()?;
    Some(is_same && json.to_string(alloc).ok()?.as_str() == want)
}

// The set of a value in JSON and what that is written as, or why it is none.
fn json(alloc: Global, row: &mut Row) -> Option<bool> {
    let value = row.json(alloc)?;
    row.equals()?;
    match RangeSet2::from_json(alloc, &value) {
        Ok(set) => {
            let is_right = set.boundaries() == row.list(alloc)?.as_slice();
            Some(is_right && is_written(alloc, &set, row.json_text()?)?)
        }
        Err(error) => Some(row.json_refusal() == Some(error)),
    }
}
