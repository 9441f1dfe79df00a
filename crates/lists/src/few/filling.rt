//! Making, filling and reading such lists.

ghost use Rattle.std.specs.Prelude.{◌≡◌, ℕ, ◌+◌, ◌-◌, List, [], ◌∷◌, ◌++◌, length, take, if◌then◌else◌, nat_lt, nat_le, Some, None, Ok, Err};
ghost use Rattle.std.specs.Option.{option_map};
ghost use Rattle.lists.specs.Few.{few_items};

use super::Few;

impl<T: Copy, const N: usize> Few<T, N> {
    /// None yet; copies of `filler` lie in the places that hold none.
    pub fn new(filler: T) -> Few<T, N>
        ensures { few_items result ≡ [] }
    {
        Few {
            items: [filler; N],
            len: 0,
        }
    }

    /// The things of a slice; absent where there are more than fit. Copies of `filler` lie in the places behind them.
    pub fn from_slice(filler: T, items: &[T]) -> Option<Few<T, N>>
        ensures { option_map few_items result ≡ (if nat_le (length items.now) N then Some items.now else None) }
    {
        if items.len() > N {
            return None;
        }
        let mut few = Few::new(filler);
        few.append_what_fits(items);
        Some(few)
    }

    /// How many there are.
    pub fn len(&self) -> usize
        ensures { result ≡ length (few_items self.now) }
    {
        self.as_slice().len()
    }

    /// The things, in order.
    pub fn as_slice(&self) -> &[T]
        ensures { result.now ≡ few_items self.now }
    {
        &self.items[..self.len]
    }

    /// Puts one more behind the others; gives it back, and changes nothing, where there is no room.
    pub fn push(&mut self, item: T) -> Result<(), T>
        ensures answer { result ≡ (if nat_lt (length (few_items self.old)) N then Ok tt else Err item) }
        ensures after { few_items self.new ≡ take N (few_items self.old ++ item ∷ []) }
    {
        if self.len == N {
            return Err(item);
        }
        self.items[self.len] = item;
        self.len += 1;
        Ok(())
    }

    /// Puts the things of a slice behind the others, in order, as far as there is room.
    #[tactic(auto, using(crate::proofs::Cuts::written))]
    pub fn append_what_fits(&mut self, items: &[T])
        ensures { few_items self.new ≡ take N (few_items self.old ++ items.now) }
    {
        let count = (N - self.len).min(items.len());
        let room = &mut self.items[..];
        room[self.len..self.len + count].copy_from_slice(&items[..count]);
        self.len += count;
    }
}
