//! Boundaries that are still unread.
ghost use Rattle.std.specs.Prelude.{List};
ghost use Rattle.std.specs.Iterator.{YieldsFirstBy, YieldsLastBy};

/// Boundaries by reference that follow one another, taken from both ends.
pub trait Unread<'a, T>: Drop {
    // Those that are still unread.
    ghost unread: { Self → List T };

    /// Takes the first one out.
    fn take_first(&mut self) -> Option<&'a T>
        ensures { YieldsFirstBy (λ x. x.now) unread self.old result self.new };

    /// Takes the last one out.
    fn take_last(&mut self) -> Option<&'a T>
        ensures { YieldsLastBy (λ x. x.now) unread self.old result self.new };
}

impl<'a, T> Unread<'a, T> for &'a [T] {
    ghost unread = { λ list. list.now };

    #[inline(always)]
    fn take_first(&mut self) -> Option<&'a T> {
        let (first, rest) = self.split_first()?;
        *self = rest;
        Some(first)
    }

    #[inline(always)]
    fn take_last(&mut self) -> Option<&'a T> {
        let (last, rest) = self.split_last()?;
        *self = rest;
        Some(last)
    }
}
