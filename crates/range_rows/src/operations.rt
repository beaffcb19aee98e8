//! The four operations in every form: the list that each gives, how often it may compare, and whose
//! boundaries stay.
use crate::row::{Kind, Row};
use crate::table::Table;
use range_collections::{Comparisons, RangeSet2};
use range_tests_kit::elements::Lettered;
use range_tests_kit::forms::{FORMS, Form, OPERATIONS, Operation};
use range_tests_kit::lists::{lettered, own};
use std::alloc::Global;

/// Two lists, and what each operation gives of them.
#[derive(Clone, Copy)]
pub struct Operations;

pub const TABLES: [Operations; 1] = [Operations];

impl Table for Operations {
    fn file(&self) -> &'static str {
        "operations.txt"
    }

    fn holds(&self, alloc: Global, row: &mut Row) -> Option<bool> {
        match row.kind() {
            Kind::I64 => every_form(alloc, row),
            _ => None,
        }
    }
}

// An operation of two lists, what it gives, and how many comparisons it may take.
#[derive(Clone, Copy)]
struct Case<'a> {
    op: Operation,
    left: &'a [i64],
    right: &'a [i64],
    want: &'a [i64],
    most: u128,
}

fn every_form(alloc: Global, row: &mut Row) -> Option<bool> {
    let (left, right) = (row.list(alloc)?, row.list(alloc)?);
    row.equals()?;
    let (wants, most) = (lists(alloc, row)?, row.value()?);
    let mut hold = true;
    for (op, want) in OPERATIONS.iter().zip(&wants) {
        let case = Case {
            op: *op,
            left: left.as_slice(),
            right: right.as_slice(),
            want: want.as_slice(),
            most,
        };
        hold = case.holds(alloc) && hold;
    }
    Some(hold)
}

// The lists of all operations.
fn lists(alloc: Global, row: &mut Row) -> Option<Vec<Vec<i64>>> {
    let mut lists = Vec::new(alloc);
    for _ in OPERATIONS {
        lists.push(row.list(alloc)?).ok()?;
    }
    Some(lists)
}

impl Case<'_> {
    // Whether each form gives the list, and of equal boundaries the left one stays.
    fn holds(&self, alloc: Global) -> bool {
        for form in FORMS {
            if self.numbers(alloc, form) != Some(true) || self.letters(alloc, form) != Some(true) {
                return false;
            }
        }
        true
    }

    // Whether the form gives the list, in no more comparisons than it may take.
    fn numbers(&self, alloc: Global, form: Form) -> Option<bool> {
        let (left, right) = (own::<i64, 2>(alloc, self.left)?, own(alloc, self.right)?);
        let mut count = Comparisons::new();
        let outcome = form.call(self.op, alloc, left, right, &mut count);
        Some(outcome.gives(self.want) && count.made() <= self.most)
    }

    // Whether the form gives the left list's items, with the letter `a`, and those of the right one
    // that the left has no equal to, with `b`.
    fn letters(&self, alloc: Global, form: Form) -> Option<bool> {
        let (a, b) = (
            lettered(alloc, self.left, b'a').ok()?,
            lettered(alloc, self.right, b'b').ok()?,
        );
        let made = made_of(alloc, form, self.op, a.as_slice(), b.as_slice())?;
        Some(are_lettered(made.boundaries(), self.want, self.left))
    }
}

// What the form makes of both sides.
fn made_of(
    alloc: Global,
    form: Form,
    op: Operation,
    a: &[Lettered],
    b: &[Lettered],
) -> Option<RangeSet2<Lettered>> {
    let (left, right) = (own(alloc, a)?, own(alloc, b)?);
    form.call(op, alloc, left, right, &mut Comparisons::new())
        .made
}

// Whether the items are these numbers, those of the left list with the letter `a` and all others
// with `b`.
fn are_lettered(items: &[Lettered], want: &[i64], left: &[i64]) -> bool {
    for (item, number) in items.iter().zip(want) {
        let letter = if left.contains(number) { b'a' } else { b'b' };
        if item.number != *number || item.letter != letter {
            return false;
        }
    }
    items.len() == want.len()
}
