//! Laws of what the exports return: functions that do nothing, and whose contracts are theorems on
//! the words of the other contracts.
ghost use Rattle.std.specs.Prelude.{◌≡◌, ◌<◌, ◌≤◌, ℕ, Bool, true, false, IsTrue, List, Option, Some, None, length, take, drop, slice_get};
ghost use Rattle.std.specs.Ordering.{is_le};
ghost use Rattle.std.specs.Str.{IsUtf8};
ghost use Rattle.std.specs.declared.ops.Bound.TheVariants.{Unbounded};
ghost use Rattle.range_collections.specs.Boundaries.{member};
ghost use Rattle.range_collections.specs.Connective.{Table, Means};
ghost use Rattle.range_collections.specs.Ranges.{range_end};
ghost use Rattle.range_collections.specs.Reading.{is_ranges};
ghost use Rattle.range_c.specs.Answers.{AreAscending, AnswersList};
ghost use Rattle.range_c.specs.FromLeast.{MeansFrom, AnswersFrom};
ghost use Rattle.range_c.specs.InPlace.{ChangesList, ChangesWithin};
ghost use Rattle.range_c.specs.Parts.{TellsRange, range_told};
ghost use Rattle.range_c.specs.Ranges.{IsUnionFrom, IsUnionOf};
ghost use Rattle.range_c.specs.Reading.{TellsText, numbers_in};
ghost use Rattle.range_c.specs.Text.{AnswersText};

use range_collections::RangeSetRange;

/// The length that is returned is that of the one list that means the operation, whether or not the
/// buffer has room for it.
pub fn a_list_is_told_by_its_length<T: Ord>()
    ensures told { (f : Table) (a b old new items : List T) (n : ℕ) →
        f false false ≡ false → AnswersList T.cmp f a b old new n →
        AreAscending T.cmp a b → Means T.cmp f items a b → n ≡ length items }
{}

/// A buffer of the length that was returned is enough: the operation that had no room is done in
/// it.
pub fn a_buffer_of_the_length_told_is_enough<T: Ord>()
    ensures enough { (f : Table) (a b items : List T) (short short_new long long_new : List T)
        (told n : ℕ) → Means T.cmp f items a b →
        ChangesWithin T.cmp f a b short short_new told → length short < told →
        told ≤ length long → ChangesWithin T.cmp f a b long long_new n →
        Means T.cmp f (take n long_new) a b }
{}

/// Where a range has no end, what stood in the place for it stays.
pub fn the_place_of_an_end_stays_where_a_range_has_none<T>()
    ensures stays { (range : RangeSetRange T) (old_start old_end start end : T)
        (old_has_end has_end answer : Bool) → range_end range ≡ Unbounded →
        TellsRange (Some range) old_start old_end old_has_end start end has_end answer →
        end ≡ old_end }
{}

/// Two buffers that have room get the same list.
pub fn each_buffer_gets_the_same_list<T: Ord>()
    ensures same { (f : Table) (a b old new old2 new2 : List T) (n m : ℕ) →
        AnswersList T.cmp f a b old new n → AnswersList T.cmp f a b old2 new2 m →
        n ≤ length old → m ≤ length old2 → take n new ≡ take m new2 }
{}

/// What stands in a buffer past the list that it gets stays.
pub fn what_stands_past_a_list_stays<T: Ord>()
    ensures list { (f : Table) (a b old new : List T) (n i : ℕ) →
        AnswersList T.cmp f a b old new n → n ≤ length old → n ≤ i →
        slice_get new i ≡ slice_get old i }
    ensures from_least { (least : T) (f : Table) (a b old new : List T) (n i : ℕ) →
        AnswersFrom T.cmp least f a b old new n → n ≤ length old → n ≤ i →
        slice_get new i ≡ slice_get old i }
{}

/// A buffer that is too short for what it is to hold stays as it was.
pub fn a_buffer_that_is_too_short_stays<T: Ord>()
    ensures list { (f : Table) (a b old new : List T) (n : ℕ) →
        ChangesList T.cmp f a b old new n → length old < n → new ≡ old }
    ensures within { (f : Table) (a b old new : List T) (n : ℕ) →
        ChangesWithin T.cmp f a b old new n → length old < n → new ≡ old }
    ensures text { (text old new : List ℕ) (n : ℕ) →
        AnswersText text old new n → length old < length text → new ≡ old }
{}

/// A text stands in a buffer that has room for it, and what stands after it stays.
pub fn a_text_stands_in_its_buffer()
    ensures text { (text old new : List ℕ) (n : ℕ) →
        AnswersText text old new n → length text ≤ length old → take (length text) new ≡ text }
    ensures rest { (text old new : List ℕ) (n : ℕ) →
        AnswersText text old new n → length text ≤ length old →
        drop (length text) new ≡ drop (length text) old }
{}

/// What is returned for a list changed in a buffer, and of one from the least number on, is its
/// length; and it has the members of the connective, there of the numbers from the least one on.
pub fn a_list_in_a_buffer_is_pinned<T: Ord>()
    ensures told { (f : Table) (a b old new items : List T) (n : ℕ) →
        Means T.cmp f items a b → ChangesList T.cmp f a b old new n → n ≡ length items }
    ensures members { (f : Table) (a b old new : List T) (n : ℕ) (x : T) →
        ChangesList T.cmp f a b old new n → n ≤ length old →
        member T.cmp (take n new) x ≡ f (member T.cmp a x) (member T.cmp b x) }
    ensures told_from { (least : T) (f : Table) (a b old new items : List T) (n : ℕ) →
        MeansFrom T.cmp least f items a b → AnswersFrom T.cmp least f a b old new n →
        n ≡ length items }
    ensures members_from { (least : T) (f : Table) (a b old new : List T) (n : ℕ) (x : T) →
        AnswersFrom T.cmp least f a b old new n → n ≤ length old →
        is_le (T.cmp least x) ≡ true →
        member T.cmp (take n new) x ≡ f (member T.cmp a x) (member T.cmp b x) }
{}

/// A union of ranges none of which is without an end is that of ranges that all have one.
pub fn ranges_with_ends_are_united_alike<P, T: Ord>()
    ensures { (first last : P → T) (ranges front : List P) →
        IsUnionFrom T.cmp first last ranges None front None →
        IsUnionOf T.cmp first last ranges front }
{}

/// If there is a range, it is written; if there is none, nothing is.
pub fn a_range_is_told_where_there_is_one<T>()
    ensures there { (range : RangeSetRange T) (old_start old_end start end : T)
        (old_has_end has_end answer : Bool) →
        TellsRange (Some range) old_start old_end old_has_end start end has_end answer →
        IsTrue answer × (range ≡ range_told start end has_end) }
    ensures nothing { (old_start old_end start end : T) (old_has_end has_end answer : Bool) →
        TellsRange None old_start old_end old_has_end start end has_end answer →
        (start ≡ old_start) × (end ≡ old_end) × (has_end ≡ old_has_end) }
{}

/// A text of ranges is recognized, and how many numbers it has is written.
pub fn a_text_of_ranges_is_told_as_one<T>()
    ensures { (number : List ℕ → Option T) (text : List ℕ) (status told : ℕ) →
        TellsText number text status told → IsUtf8 text → is_ranges number text ≡ true →
        (status ≡ 0) × (told ≡ numbers_in number text) }
{}
