//! Lists whose boundaries alternate in runs of given lengths: every form of every operation
//! compares at most twice as often as both weigh together, and a slice is as it was behind what is
//! written.

use crate::merging::gives_written;
use crate::operations::wrong_of;
use range_collections::RangeSetRef;
use range_tests_kit::generator::Generator;
use range_tests_kit::lists::{numbers, set_of};
use range_tests_kit::membership::{Stands, TABLES, connective};
use std::alloc::{AllocError, Global};
use std::test::Fail;

// Two lists of the numbers from 0 to below `end`, and how many comparisons they may take.
#[derive(Drop)]
struct Sides {
    left: Vec<i64>,
    right: Vec<i64>,
    end: i64,
    most: u128,
}

impl Sides {
    // Runs of these lengths, of the left list and of the right one in turn. Where one is 0, the
    // next number is in both.
    fn of(alloc: Global, runs: &[u32]) -> Result<Sides, AllocError> {
        let mut sides = Sides {
            left: Vec::new(alloc),
            right: Vec::new(alloc),
            end: 0,
            most: 0,
        };
        let mut on_left = true;
        for run in runs {
            sides.push_run(*run, on_left)?;
            on_left = on_left == (*run == 0);
        }
        Ok(sides)
    }

    fn push_run(&mut self, run: u32, on_left: bool) -> Result<(), AllocError> {
        for _ in 0..run.max(1) {
            self.push(run == 0 || on_left, run == 0 || !on_left)?;
        }

        // Twice a run's binary digits, and twice one for a number that is in both.
        let digits = u32::BITS.saturating_sub(run.max(1).leading_zeros());
        self.most = self.most.saturating_add(2 * digits as u128);
        Ok(())
    }

    // The next number, on these sides.
    fn push(&mut self, on_left: bool, on_right: bool) -> Result<(), AllocError> {
        if on_left {
            self.left.push(self.end)?;
        }
        if on_right {
            self.right.push(self.end)?;
        }
        self.end = self.end.saturating_add(1);
        Ok(())
    }

    // Whether all forms give what they should, and none compares too often.
    fn hold(&self, alloc: Global) -> Result<bool, AllocError> {
        let points = numbers(alloc, -1, self.end.saturating_add(1))?;
        let (left, right) = (self.left.as_slice(), self.right.as_slice());
        Ok(wrong_of(alloc, points.as_slice(), left, right, self.most)?.is_none())
    }

    // Whether each operation writes what it should to a slice, and nothing after it.
    fn are_written(&self, alloc: Global) -> Result<bool, AllocError> {
        let points = numbers(alloc, -1, self.end.saturating_add(1))?;
        let (left, right) = (self.left.as_slice(), self.right.as_slice());
        let stands = Stands::of(alloc, points.as_slice(), left, right)?;
        let (Some(set), Some(that)) = (set_of(alloc, left), RangeSetRef::new(right)) else {
            return Ok(false);
        };
        for table in TABLES {
            let op = connective(table);
            if op.neither {
                continue;
            }
            let want = stands.turns(alloc, table, false)?;
            if !gives_written(&set, that, &op, want.as_slice()) {
                return Ok(false);
            }
        }
        Ok(true)
    }
}

// A pattern of lengths, and how often it comes.
#[derive(Clone, Copy)]
struct Row {
    runs: &'static [u32],
    times: usize,
}

// Runs just below a power of two have the fewest comparisons for their items, and those just above
// it are found last.
#[rattlefmt::skip]
const ROWS: [Row; 22] = [
    Row { runs: &[1], times: 24 },
    Row { runs: &[2], times: 12 },
    Row { runs: &[3], times: 12 },
    Row { runs: &[4], times: 8 },
    Row { runs: &[5], times: 8 },
    Row { runs: &[6], times: 8 },
    Row { runs: &[7], times: 8 },
    Row { runs: &[8], times: 8 },
    Row { runs: &[0], times: 16 },
    Row { runs: &[1, 7], times: 6 },
    Row { runs: &[0, 1, 3], times: 6 },
    Row { runs: &[3, 4, 5, 6, 7], times: 3 },
    Row { runs: &[15, 16, 17, 1], times: 2 },
    Row { runs: &[0, 7, 0, 6, 3, 1], times: 4 },

    // Whole runs come first, for six rounds. From here on short ones are read, too.
    Row { runs: &[1], times: 120 },
    Row { runs: &[0, 1], times: 60 },
    Row { runs: &[3], times: 60 },
    Row { runs: &[7], times: 34 },
    Row { runs: &[1, 2, 3], times: 30 },
    Row { runs: &[3, 4, 5, 6, 7], times: 9 },
    Row { runs: &[8, 1, 9, 2, 7], times: 8 },
    Row { runs: &[0, 7, 0, 6, 3, 1], times: 12 },
];

// Whether all hold of the pattern, so often.
fn row_holds(alloc: Global, row: Row) -> Result<bool, AllocError> {
    let mut runs = Vec::new(alloc);
    for _ in 0..row.times {
        runs.extend_from_slice(row.runs)?;
    }
    Sides::of(alloc, runs.as_slice())?.hold(alloc)
}

#[test]
fn runs_of_given_lengths_cost_their_digits(rt: HostRuntime) -> Result<(), Fail> {
    for row in ROWS {
        let holds = row_holds(rt.alloc(), row)?;
        assert!(rt; holds, "runs of {:?}, {} times", row.runs, row.times);
    }
    Ok(())
}

// What made-up runs are as long as.
const LENGTHS: [u32; 12] = [0, 1, 1, 1, 2, 3, 4, 5, 6, 7, 8, 16];

// Up to 16 of them.
fn made_up_runs(draws: &mut Generator, alloc: Global) -> Result<Vec<u32>, AllocError> {
    let mut runs = Vec::new(alloc);
    for _ in 0..draws.below(17) {
        if let Some(run) = draws.one_of(&LENGTHS) {
            runs.push(*run)?;
        }
    }
    Ok(runs)
}

#[test]
fn made_up_runs_cost_their_digits(rt: HostRuntime) -> Result<(), Fail> {
    let mut draws = Generator::new();
    for number in 0..100 {
        let runs = made_up_runs(&mut draws, rt.alloc())?;
        let holds = Sides::of(rt.alloc(), runs.as_slice())?.hold(rt.alloc())?;
        assert!(rt; holds, "pair {number}: runs of {runs:?}");
    }
    Ok(())
}

// `n` runs, each as long as one of these says.
fn short_runs(draws: &mut Generator, alloc: Global, n: usize) -> Result<Vec<u32>, AllocError> {
    let mut runs = Vec::new(alloc);
    for _ in 0..n {
        if let Some(run) = draws.one_of(&[0, 1, 1, 1, 2, 3]) {
            runs.push(*run)?;
        }
    }
    Ok(runs)
}

#[test]
fn a_slice_is_as_it_was_behind_short_runs(rt: HostRuntime) -> Result<(), Fail> {
    let mut draws = Generator::new();
    for n in 60..80 {
        let runs = short_runs(&mut draws, rt.alloc(), n)?;
        let written = Sides::of(rt.alloc(), runs.as_slice())?.are_written(rt.alloc())?;
        assert!(rt; written, "runs of {runs:?}");
    }
    Ok(())
}
