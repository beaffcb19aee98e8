//! The operations on two sets, each as the places where its connective changes.
ghost use Rattle.std.specs.Prelude.{◌≡◌, false, true, not};
ghost use Rattle.range_merge.specs.Connective.{Table, differ, union_table, intersection_table, difference_table, symmetric_difference_table, table_of};

/// A boolean operation on two sides (a connective), and where it changes.
pub trait MergeOperation {
    // The table from whether the left and the right side are on.
    ghost connective: { Self → Table };

    /// Whether the result changes where the left side alone does, while the right is as `bc` says.
    fn takes_a(&self, bc: bool) -> bool
        ensures { result ≡ differ (connective self.now false bc) (connective self.now true bc) };

    /// Whether the result changes where the right side alone does, while the left is as `ac` says.
    fn takes_b(&self, ac: bool) -> bool
        ensures { result ≡ differ (connective self.now ac false) (connective self.now ac true) };

    /// Whether the result changes where both sides do, which stood as `ac` and `bc` say.
    fn takes_both(&self, ac: bool, bc: bool) -> bool
        ensures { result ≡
            differ (connective self.now ac bc) (connective self.now (not ac) (not bc)) };

    /// The result where both sides are off.
    fn when_off(&self) -> bool
        ensures { result ≡ connective self.now false false };
}

/// In the left set or in the right.
pub struct UnionOp;

/// In the left set and in the right.
pub struct IntersectionOp;

/// In the left set and not in the right.
pub struct DiffOp;

/// In one of the two sets and not in the other.
pub struct XorOp;

/// Any of the sixteen connectives, by its four results.
#[derive(Clone, Copy, Debug, PartialEq, Eq)]
pub struct Connective {
    /// The result where both sides are off.
    pub neither: bool,
    /// The result where the left side alone is on.
    pub left: bool,
    /// The result where the right side alone is on.
    pub right: bool,
    /// The result where both sides are on.
    pub both: bool,
}

impl MergeOperation for UnionOp {
    ghost connective = { λ _. union_table };

    #[inline(always)]
    fn takes_a(&self, bc: bool) -> bool {
        !bc
    }

    #[inline(always)]
    fn takes_b(&self, ac: bool) -> bool {
        !ac
    }

    #[inline(always)]
    fn takes_both(&self, ac: bool, bc: bool) -> bool {
        ac == bc
    }

    #[inline(always)]
    fn when_off(&self) -> bool {
        false
    }
}

impl MergeOperation for IntersectionOp {
    ghost connective = { λ _. intersection_table };

    #[inline(always)]
    fn takes_a(&self, bc: bool) -> bool {
        bc
    }

    #[inline(always)]
    fn takes_b(&self, ac: bool) -> bool {
        ac
    }

    #[inline(always)]
    fn takes_both(&self, ac: bool, bc: bool) -> bool {
        ac == bc
    }

    #[inline(always)]
    fn when_off(&self) -> bool {
        false
    }
}

impl MergeOperation for DiffOp {
    ghost connective = { λ _. difference_table };

    #[inline(always)]
    fn takes_a(&self, bc: bool) -> bool {
        !bc
    }

    #[inline(always)]
    fn takes_b(&self, ac: bool) -> bool {
        ac
    }

    #[inline(always)]
    fn takes_both(&self, ac: bool, bc: bool) -> bool {
        ac != bc
    }

    #[inline(always)]
    fn when_off(&self) -> bool {
        false
    }
}

impl MergeOperation for XorOp {
    ghost connective = { λ _. symmetric_difference_table };

    #[inline(always)]
    fn takes_a(&self, _bc: bool) -> bool {
        true
    }

    #[inline(always)]
    fn takes_b(&self, _ac: bool) -> bool {
        true
    }

    #[inline(always)]
    fn takes_both(&self, _ac: bool, _bc: bool) -> bool {
        false
    }

    #[inline(always)]
    fn when_off(&self) -> bool {
        false
    }
}

impl MergeOperation for Connective {
    ghost connective = { λ op. table_of op.neither op.left op.right op.both };

    #[inline(always)]
    fn takes_a(&self, bc: bool) -> bool {
        self.answer(false, bc) != self.answer(true, bc)
    }

    #[inline(always)]
    fn takes_b(&self, ac: bool) -> bool {
        self.answer(ac, false) != self.answer(ac, true)
    }

    #[inline(always)]
    fn takes_both(&self, ac: bool, bc: bool) -> bool {
        self.answer(ac, bc) != self.answer(!ac, !bc)
    }

    #[inline(always)]
    fn when_off(&self) -> bool {
        self.neither
    }
}

impl Connective {
    // The result where the sides are as `ac` and `bc` say.
    #[inline(always)]
    fn answer(&self, ac: bool, bc: bool) -> bool
        ensures { result ≡
            table_of self.now.neither self.now.left self.now.right self.now.both ac bc }
    {
        match (ac, bc) {
            (false, false) => self.neither,
            (true, false) => self.left,
            (false, true) => self.right,
            (true, true) => self.both,
        }
    }
}
