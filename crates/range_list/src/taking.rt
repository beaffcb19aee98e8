//! Items taken out at the ends, which takes no memory.
ghost use Rattle.std.specs.Prelude.{◌≡◌, ◌+◌, ◌++◌, ◌∷◌, [], ℕ, None, MatchOption, IfSome};
ghost use Rattle.std.specs.Option.{option_to_list};
ghost use Rattle.range_list.specs.Chunks.{flat, AreShort, KnowMarks};

use crate::chunk::Chunk;
use crate::chunk_list::ChunkList;
use crate::mark::Mark;

/// Takes the first two items out, or the only one.
pub fn take_two<T: Drop, M: Mark>(chunks: &mut ChunkList<T, M>) -> Option<(T, Option<T>)>
    requires { M.of 2 ≡ M.of 0 }
    ensures items { MatchOption result ((flat chunks.old ≡ []) × (flat chunks.new ≡ []))
        (λ two. flat chunks.old ≡ two.0 ∷ (option_to_list two.1 ++ flat chunks.new)) }
    ensures only { IfSome result (λ two. two.1 ≡ None → flat chunks.new ≡ []) }
{
    let first = take_first(&mut chunks.list)?;
    let second = take_first(&mut chunks.list);
    Some((first, second))
}

// Takes the first item out: one less stands before each other one.
fn take_first<T: Drop, M: Mark>(chunks: &mut Vec<Chunk<T, M>>) -> Option<T>
    requires { AreShort M.FULL chunks.old.items }
    ensures short { AreShort M.FULL chunks.new.items }
    ensures marks { (n : ℕ) → KnowMarks M.of n chunks.old.items → KnowMarks M.of (n + 1) chunks.new.items }
    ensures item { MatchOption result ((flat chunks.old.items ≡ []) × (flat chunks.new.items ≡ []))
        (λ item. flat chunks.old.items ≡ item ∷ flat chunks.new.items) }
{
    if chunks.is_empty() {
        return None;
    }
    if chunks[0].rest.is_empty() {
        let Chunk { first, .. } = chunks.remove(0);
        return Some(first);
    }
    Some(chunks[0].take_first())
}

/// Takes the last item out.
pub fn take_last<T: Drop, M: Mark>(chunks: &mut ChunkList<T, M>) -> Option<T>
    ensures { MatchOption result ((flat chunks.old ≡ []) × (flat chunks.new ≡ []))
        (λ item. flat chunks.old ≡ flat chunks.new ++ item ∷ []) }
{
    let last = chunks.len().checked_sub(1)?;
    match chunks.list[last].rest.pop() {
        Some(item) => Some(item),
        None => {
            let Chunk { first, .. } = chunks.list.remove(last);
            Some(first)
        }
    }
}
