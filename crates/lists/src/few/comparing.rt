//! Comparing and printing such lists, as the slices of what they hold.

ghost use Rattle.std.specs.Prelude.{◌≡◌};
ghost use Rattle.std.specs.Cmp.{on_equiv, on_per};
ghost use Rattle.std.specs.Cmp.Lexicographic.{pointwise, lists_per, lists_equiv};
ghost use Rattle.lists.specs.Few.{few_items};

use super::Few;
use std::fmt;

impl<T: Copy + PartialEq, const N: usize> PartialEq for Few<T, N> {
    ghost eq = { λ x y. pointwise T.eq (few_items x) (few_items y) };

    ghost laws = { on_per few_items (lists_per T.laws) };

    fn eq(&self, other: &Few<T, N>) -> bool {
        self.as_slice() == other.as_slice()
    }
}

impl<T: Copy + Eq, const N: usize> Eq for Few<T, N> {
    ghost laws = { on_equiv few_items (lists_equiv T.Eq.laws) };
}

impl<T: Copy + fmt::Debug, const N: usize> fmt::Debug for Few<T, N> {
    fn fmt<W: fmt::Write>(&self, f: &mut fmt::Formatter<W>) -> fmt::Result {
        f.debug_list().entries(self.as_slice()).finish()
    }
}
