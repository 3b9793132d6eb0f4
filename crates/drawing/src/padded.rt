// A list at the front of an array, as in `front`, where what is past the items is known: blanks.
ghost use Rattle.std.specs.Prelude.{◌≡◌, ◌<◌, ◌≤◌, ◌++◌, ◌∷◌, [], ⊤, length};

use crate::front::Item;
use std::alloc::AllocError;
use std::marker::Model;

// Contracts see the list. What is past the items is blank, so that the list gives the array back, and a list may be copied.
#[derive(Copy)]
pub struct Padded<T: Item, const N: usize> {
    count: usize,
    items: [T; N],
}

impl<T: Item, const N: usize> Model for Padded<T, N> {
    ghost use Rattle.std.specs.Prelude.{◌≡◌, ◌≤◌, List, length, take};
    ghost use Rattle.std.proofs.Common.{length-take-le, subst, sym};
    ghost use Rattle.drawing.specs.Padded.{padded};

    ghost Value = { List T };

    ghost view = { λ f. take f.count f.items };

    ghost invariant = { λ f. (f.count ≤ N) × (length f.items ≡ N) × (padded T.blank N (take f.count f.items) ≡ f.items) };

    ghost inverse = { λ l. record { count = length l; items = padded T.blank N l } };

    ghost inverse_ok = { λ f h i. record {
      count = length-take-le f.count f.items (subst (λ n. f.count ≤ n) (sym h.1) h.0) i;
      items = h.2 i;
    } };
}

impl<T: Item, const N: usize> Clone for Padded<T, N> {
    ghost is_clone = { λ f g. g ≡ f };

    ghost is_infallible = { λ _. ⊤ };

    fn clone(&self) -> Result<Self, AllocError> {
        Ok(*self)
    }
}

#[tactic(auto, using(crate::proofs::Fronts::fronts))]
impl<T: Item, const N: usize> Padded<T, N> {
    ghost use Rattle.drawing.specs.Padded.{padded};

    // The empty list.
    pub fn new() -> Self
        ensures { result ≡ [] }
    {
        let blank = T::blank();
        Padded {
            count: 0,
            items: [blank; N],
        }
    }

    pub fn push(&mut self, item: T)
        requires { length self.old < N }
        ensures { self.new ≡ self.old ++ item ∷ [] }
    {
        self.items[self.count] = item;
        self.count += 1;
    }

    pub fn len(&self) -> usize
        ensures is { result ≡ length self.now }
        ensures few { result ≤ N }
    {
        self.count
    }

    pub fn as_slice(&self) -> &[T]
        ensures is { result.now ≡ self.now }
        ensures few { length self.now ≤ N }
    {
        &self.items[..self.count]
    }

    // The whole array: the items, and the blanks behind them.
    pub fn as_array(&self) -> &[T; N]
        ensures { result.now ≡ padded T.blank N self.now }
    {
        &self.items
    }
}
