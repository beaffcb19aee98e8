//! Items taken out at the ends of a list.
ghost use Rattle.std.specs.Prelude.{◌≡◌, ◌++◌, ◌∷◌, [], None, MatchOption, IfSome};
ghost use Rattle.std.specs.Option.{option_to_list};
ghost use Rattle.range_list.specs.Lists.{joined};

use crate::list::Chunks;
use crate::list::counting::option_len;
use crate::mark::Mark;
use crate::taking::{take_last, take_two};

impl<T: Drop, M: Mark> Chunks<T, M> {
    /// Takes the first two items out, or the only one. It takes no memory.
    pub fn pop_first_two(&mut self) -> Option<(T, Option<T>)>
        requires alike { M.of 2 ≡ M.of 0 }
        ensures items { MatchOption result ((joined self.old ≡ []) × (joined self.new ≡ []))
            (λ two. joined self.old ≡ two.0 ∷ (option_to_list two.1 ++ joined self.new)) }
        ensures only { IfSome result (λ two. two.1 ≡ None → joined self.new ≡ []) }
    {
        let two = take_two(&mut self.chunks)?;
        self.len -= 1 + option_len(&two.1);
        Some(two)
    }

    /// Takes the last item out. It takes no memory.
    pub fn pop_last(&mut self) -> Option<T>
        ensures { MatchOption result ((joined self.old ≡ []) × (joined self.new ≡ []))
            (λ item. joined self.old ≡ joined self.new ++ item ∷ []) }
    {
        let item = take_last(&mut self.chunks)?;
        self.len -= 1;
        Some(item)
    }
}
