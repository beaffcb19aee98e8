//! Merges over a state that refuses one of its advances, each in turn: the merge is refused exactly
//! there, makes no advance afterwards, and its comparisons stay within twice the weight of the
//! lists.
ghost use Rattle.std.specs.Prelude.{◌≡◌, ⊤, false};

use range_collections::{Comparisons, RangeSetRef};
use range_merge::{MergeState, MergeStateMut, merge};
use range_tests_kit::lists::numbers;
use range_tests_kit::membership::{TABLES, connective};
use std::alloc::AllocError;

// The unread items of both sides, whether each side is on, and what was done so far.
#[derive(Drop)]
struct Refusing<'a, K> {
    a: &'a [K],
    b: &'a [K],
    ac: bool,
    bc: bool,
    // How many advances are made until one is refused, how many were made, and how many refused.
    until: usize,
    made: usize,
    refused: usize,
}

impl<'a, K> Refusing<'a, K> {
    // All items of both slices unread, both sides off, and `until` advances before one is refused.
    fn new(a: &'a [K], b: &'a [K], until: usize) -> Self
        ensures left { result.a.now ≡ a.now }
        ensures right { result.b.now ≡ b.now }
        ensures left_off { result.ac ≡ false }
        ensures right_off { result.bc ≡ false }
    {
        Refusing {
            a,
            b,
            ac: false,
            bc: false,
            until,
            made: 0,
            refused: 0,
        }
    }

    // One more advance, or a refusal.
    fn advance(&mut self) -> Result<(), AllocError>
        ensures left { self.new.a ≡ self.old.a }
        ensures right { self.new.b ≡ self.old.b }
        ensures left_on { self.new.ac ≡ self.old.ac }
        ensures right_on { self.new.bc ≡ self.old.bc }
    {
        if self.made == self.until {
            self.refused = self.refused.saturating_add(1);
            return Err(AllocError);
        }
        self.made = self.made.saturating_add(1);
        Ok(())
    }
}

impl<'a, K> MergeState for Refusing<'a, K> {
    type Item = K;

    ghost left = { λ s. s.a.now };

    ghost right = { λ s. s.b.now };

    fn a_len(&self) -> usize {
        self.a.len()
    }

    fn b_len(&self) -> usize {
        self.b.len()
    }

    fn a_at(&self, i: usize) -> &K {
        &self.a[i]
    }

    fn b_at(&self, i: usize) -> &K {
        &self.b[i]
    }
}

impl<'a, K> MergeStateMut for Refusing<'a, K> {
    ghost left_on = { λ s. s.ac };

    ghost right_on = { λ s. s.bc };

    ghost output = { λ _ _. ⊤ };

    ghost fixed = { λ _. 0 };

    ghost can_stop = { false };

    ghost is_infallible = { λ _. ⊥ };

    fn advance_a(&mut self, n: usize, _take: bool) -> Result<bool, AllocError> {
        self.advance()?;
        self.ac = self.ac != (n % 2 == 1);
        self.a = &self.a[n..];
        Ok(true)
    }

    fn advance_b(&mut self, n: usize, _take: bool) -> Result<bool, AllocError> {
        self.advance()?;
        self.bc = self.bc != (n % 2 == 1);
        self.b = &self.b[n..];
        Ok(true)
    }

    fn advance_both(&mut self, _take: bool) -> Result<bool, AllocError> {
        self.advance()?;
        self.ac = !self.ac;
        self.bc = !self.bc;
        self.a = &self.a[1..];
        self.b = &self.b[1..];
        Ok(true)
    }

    fn ac(&self) -> bool {
        self.ac
    }

    fn bc(&self) -> bool {
        self.bc
    }
}

// Two lists of boundaries, how many runs they have, and twice their weight.
#[derive(Clone, Copy)]
struct Row<'a> {
    left: &'a [i64],
    right: &'a [i64],
    runs: usize,
    most: u128,
}

// Whether the merge whose advance after `until` is refused ends there, or at the end where it makes
// no more of them.
fn ends_rightly(table: [u8; 4], row: &Row, until: usize) -> bool {
    let (Some(left), Some(right)) = (RangeSetRef::new(row.left), RangeSetRef::new(row.right)) else {
        return false;
    };
    let mut state = Refusing::new(left.boundaries(), right.boundaries(), until);
    let mut count = Comparisons::new();
    let answer = merge(&mut state, &connective(table), &mut count).ok();
    let want = if until < row.runs {
        (None, until, 1)
    } else {
        (Some(true), row.runs, 0)
    };
    (answer, state.made, state.refused) == want && count.made() <= row.most
}

// The first connective and the first advance at which it doesn't.
fn first_wrong(row: &Row) -> Option<([u8; 4], usize)> {
    for table in TABLES {
        for until in 0..=row.runs.saturating_add(1) {
            if !ends_rightly(table, row, until) {
                return Some((table, until));
            }
        }
    }
    None
}

#[test]
fn merges_end_at_a_refused_advance(rt: HostRuntime) -> Result<(), AllocError> {
    let (low, high) = (numbers(rt.alloc(), 0, 64)?, numbers(rt.alloc(), 64, 128)?);
    #[rattlefmt::skip]
    let rows: [Row; 7] = [
        Row { left: &[], right: &[], runs: 0, most: 0 },
        Row { left: &[0, 10], right: &[20], runs: 2, most: 6 },
        Row { left: &[0, 2, 4], right: &[1, 3, 5], runs: 6, most: 12 },
        Row { left: &[0, 10], right: &[0, 10], runs: 2, most: 4 },
        Row { left: &[0, 5], right: &[5, 10], runs: 3, most: 6 },
        Row { left: &[], right: &[1, 2, 3], runs: 1, most: 4 },
        Row { left: low.as_slice(), right: high.as_slice(), runs: 2, most: 28 },
    ];
    for (number, row) in rows.iter().enumerate() {
        assert_eq!(rt; first_wrong(row), None, "row {number}");
    }
    Ok(())
}
