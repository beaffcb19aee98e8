//! A law of the program's answers: a function that does nothing, and whose contract is a theorem on
//! the words of the other contracts.
ghost use Rattle.std.specs.Prelude.{◌≡◌, ℕ, ℤ, List, [], ◌∷◌, Some, codes};
ghost use Rattle.std.specs.Ordering.{int_cmp};
ghost use Rattle.range_merge.specs.Connective.{Means, union_table};
ghost use Rattle.range_calc_answers.specs.Line.{list_text};
ghost use Rattle.range_calc_answers.specs.Outcome.{IsOutcome};
ghost use Rattle.range_calc_answers.specs.Words.{asked_by, list_of};
ghost use Rattle.range_calc_answers.specs.declared.answering.Status.TheVariants.{Answered};

/// What answers `union` and two words that write lists is the text of the one list of their union.
pub fn union_answers_the_one_list()
    ensures { (left right line : List ℕ) (a b : List ℤ) →
        list_of left ≡ Some a → list_of right ≡ Some b →
        IsOutcome (asked_by (codes "union" ∷ left ∷ right ∷ [])) Answered line →
        (items : List ℤ) × Means int_cmp union_table items a b × (line ≡ list_text items) }
{}
