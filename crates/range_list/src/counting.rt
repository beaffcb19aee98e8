//! How many items chunks have, and how many lie between two places, by the lengths of the chunks:
//! no item is read.
ghost use Rattle.std.specs.Prelude.{◌≡◌, ◌≤◌, ◌-◌, length};
ghost use Rattle.range_list.specs.Chunks.{flat, AreShort};
ghost use Rattle.range_list.specs.Places.{place_in, IsPlace};

use crate::chunk::Chunk;
use crate::chunk_list::ChunkList;
use crate::mark::Mark;
use crate::place::Place;

/// How many items the chunks have.
pub fn len_of<T, M: Mark>(chunks: &[Chunk<T, M>]) -> u128
    requires { AreShort M.FULL chunks.now }
    ensures { result ≡ length (flat chunks.now) }
{
    let count = chunks.len();
    let mut len: u128 = 0;
    for i in 0..count {
        let more = chunks[i].len();
        len += more as u128;
    }
    len
}

/// How many items lie between two places.
pub fn len_between<T, M: Mark>(chunks: &ChunkList<T, M>, from: Place, to: Place) -> u128
    requires from { IsPlace chunks.now from }
    requires to { IsPlace chunks.now to }
    requires ordered { place_in chunks.now from ≤ place_in chunks.now to }
    ensures { result ≡ place_in chunks.now to - place_in chunks.now from }
{
    if from.chunk > to.chunk {
        return 0;
    }
    let all = chunks.list.as_slice();
    len_of(&all[from.chunk..to.chunk]) + to.index as u128 - from.index as u128
}
