//! One advance of a state over a list: what it answers where a copy or memory may be refused.
use crate::elements::{Flagged, FlaggedCopier};
use crate::starving::Answer;
use range_merge::{MergeState, MergeStateMut, SmallVecMergeState};
use smallvec::SmallVec;
use std::alloc::{AllocError, Global};

/// Past items of the left list, past items of the right one, or past one of each.
#[derive(Clone, Copy, Debug)]
pub enum Advance {
    Left(usize),
    Right(usize),
    Both,
}

/// The lists that are advanced over.
pub const LEFT: [i64; 3] = [0, 2, 4];

pub const RIGHT: [i64; 3] = [1, 3, 5];

/// An advance, how many items of the left list and of the right one it copies, and those items.
#[derive(Clone, Copy)]
pub struct Row {
    pub advance: Advance,
    pub lefts: usize,
    pub rights: usize,
    pub items: &'static [i64],
}

#[rattlefmt::skip]
pub const ROWS: [Row; 7] = [
    Row { advance: Advance::Left(1), lefts: 1, rights: 0, items: &[0] },
    Row { advance: Advance::Left(2), lefts: 2, rights: 0, items: &[0, 2] },
    Row { advance: Advance::Left(3), lefts: 3, rights: 0, items: &[0, 2, 4] },
    Row { advance: Advance::Right(1), lefts: 0, rights: 1, items: &[1] },
    Row { advance: Advance::Right(2), lefts: 0, rights: 2, items: &[1, 3] },
    Row { advance: Advance::Right(3), lefts: 0, rights: 3, items: &[1, 3, 5] },
    Row { advance: Advance::Both, lefts: 1, rights: 0, items: &[0] },
];

impl Advance {
    // What the call says, where there are enough items.
    fn made<S: MergeStateMut>(self, state: &mut S, take: bool) -> Option<Result<bool, AllocError>> {
        let (left, right) = (state.a_len(), state.b_len());
        match self {
            Advance::Left(n) if n >= 1 && n <= left => Some(state.advance_a(n, take)),
            Advance::Right(n) if n >= 1 && n <= right => Some(state.advance_b(n, take)),
            Advance::Both if left >= 1 && right >= 1 => Some(state.advance_both(take)),
            _ => None,
        }
    }
}

/// An advance over two lists, the items that the list of the state begins with, at most two, and
/// whether the advance takes what it passes, and those items, if it does.
#[derive(Clone, Copy)]
pub struct Passing<'a> {
    pub advance: Advance,
    pub left: &'a [Flagged],
    pub right: &'a [Flagged],
    pub first: &'a [Flagged],
    pub taken: Option<&'a [Flagged]>,
}

impl<'a> Passing<'a> {
    pub fn answer(&self, alloc: Global) -> Answer {
        let Ok(list) = SmallVec::from_slice(alloc, self.first) else {
            return Answer::Wrong;
        };
        let mut state: SmallVecMergeState<Flagged, FlaggedCopier, 2> = SmallVecMergeState::new(
            self.left,
            self.right,
            list,
            &FlaggedCopier,
        );
        match self.advance.made(&mut state, self.taken.is_some()) {
            Some(Ok(goes_on)) => {
                let list = state.result();
                let parts = list.as_slice().split_at_checked(self.first.len());
                Answer::right_if(goes_on && parts == Some((self.first, self.taken.unwrap_or(&[]))))
            }
            Some(Err(_)) => Answer::Refused,
            None => Answer::Wrong,
        }
    }
}
