//! A process whose memory is taken away for a test, so that a call's requests are refused: with no
//! room left all of them, and with a little more room in each round fewer, until none is.
//!
//! A program can't make the library's allocator refuse. So the address space is taken in blocks,
//! which are never written to, and in each round every hole that is left. Each test runs in a
//! process of its own.
ghost use Rattle.std.specs.Prelude.{◌≤◌};

use std::alloc::{AllocError, Global};

/// What a call answers where memory may be refused.
#[derive(Clone, Copy, PartialEq, Eq)]
pub enum Answer {
    /// Out of memory, with everything left as it was.
    Refused,
    /// The answer with ample memory.
    Right,
    /// Anything else.
    Wrong,
}

impl Answer {
    /// The answer with ample memory, if it is that.
    pub fn right_if(right: bool) -> Answer {
        if right { Answer::Right } else { Answer::Wrong }
    }
}

/// A call whose requests for memory are refused, and what it is given, which is made while there is
/// memory.
pub trait Call {
    type Given: Drop;

    fn given(&self) -> Option<Self::Given>;

    fn answer(&self, given: Self::Given) -> Answer;
}

/// How many bytes are given back at a time.
const SPARE: usize = 4_096;

/// What is taken, and the blocks that are given back one after the other.
#[derive(Drop)]
pub struct Starved {
    alloc: Global,
    taken: Vec<Vec<u8>>,
    spares: Vec<Vec<u8>>,
}

/// Takes blocks of this size until one is refused or enough are taken.
fn take(alloc: Global, blocks: &mut Vec<Vec<u8>>, size: usize, most: usize) {
    for _ in 0..most {
        let Ok(block) = Vec::with_capacity(alloc, size) else {
            return;
        };
        if blocks.push(block).is_err() {
            return;
        }
    }
}

/// Takes blocks of each size from the greatest on, down to 4,096 bytes.
fn take_address_space(alloc: Global, blocks: &mut Vec<Vec<u8>>) {
    for power in (12..47u32).rev() {
        take(alloc, blocks, 1 << power, 40_000);
    }
}

/// Takes what is left, in blocks of each size that the allocator keeps apart.
fn take_holes(alloc: Global, blocks: &mut Vec<Vec<u8>>) {
    for power in (11..16u32).rev() {
        take(alloc, blocks, 1 << power, 1_000);
    }
    for sixteenths in (0..66usize).rev() {
        take(alloc, blocks, 16 * sixteenths + 8, 1_000);
    }
}

impl Starved {
    /// Takes the address space, but for what is given back in 4,000 rounds.
    pub fn new(alloc: Global) -> Result<Starved, AllocError> {
        Starved::with_rounds(alloc, 4_000)
    }

    /// Takes the address space, but for what is given back in `rounds` rounds.
    pub fn with_rounds(alloc: Global, rounds: usize) -> Result<Starved, AllocError> {
        let mut taken = Vec::with_capacity(alloc, 262_144)?;
        let mut spares = Vec::with_capacity(alloc, rounds)?;
        take(alloc, &mut spares, SPARE, rounds);
        take_address_space(alloc, &mut taken);
        Ok(Starved {
            alloc,
            taken,
            spares,
        })
    }

    /// Leaves this many bytes, and nothing else, and gives the allocator.
    pub fn leave(&mut self, room: usize) -> Global
        requires room { room ≤ 4096 }
    {
        take_holes(self.alloc, &mut self.taken);
        self.give_back();
        take(self.alloc, &mut self.taken, SPARE - room, 1);
        self.alloc
    }

    /// What the call answers with this room, and with nothing else left.
    pub fn answer_in<C: Call>(&mut self, room: usize, call: &C) -> Answer
        requires room { room ≤ 4096 }
    {
        self.give_back();
        let Some(given) = call.given() else {
            return Answer::Wrong;
        };
        let _alloc = self.leave(room);
        call.answer(given)
    }

    /// The least room, in steps of 16 bytes, with which the call gives the answer that it has with
    /// ample memory, if it is refused with less and gives that answer with more.
    pub fn room_for<C: Call>(&mut self, call: &C) -> Option<usize> {
        let mut least = None;
        for round in 0..100usize {
            let room = 16 * round;
            match (self.answer_in(room, call), least) {
                (Answer::Refused, None) | (Answer::Right, Some(_)) => {}
                (Answer::Right, None) => least = Some(room),
                _ => return None,
            }
        }
        least
    }

    /// Whether the call is refused where no room is left, and then until it gives the answer with
    /// ample memory, which it gives with more room, too.
    pub fn refuses<C: Call>(&mut self, call: &C) -> bool {
        matches!(self.room_for(call), Some(room) if room > 0)
    }

    /// Whether the call gives the answer with ample memory where each request is refused.
    pub fn needs_none<C: Call>(&mut self, call: &C) -> bool {
        self.refuses_a_byte() && self.answer_in(0, call) == Answer::Right
    }

    /// Whether the call is refused, as above, where it needs memory, and else needs none.
    pub fn agrees<C: Call>(&mut self, call: &C, needs_memory: bool) -> bool {
        if needs_memory {
            self.refuses(call)
        } else {
            self.needs_none(call)
        }
    }

    /// Whether one byte is refused where no room is left.
    pub fn refuses_a_byte(&mut self) -> bool {
        let alloc = self.leave(0);
        Vec::<u8>::with_capacity(alloc, 1).is_err()
    }

    /// Gives one block back.
    fn give_back(&mut self) {
        drop(self.spares.pop());
    }
}
