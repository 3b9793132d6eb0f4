// A list of at most N items, at the front of an array: there is no heap, and a list of the kit's would be one thing more to trust.
ghost use Rattle.std.specs.Prelude.{◌≡◌, ◌<◌, ◌≤◌, ◌++◌, ◌∷◌, [], length};

use std::marker::Model;

// An item of a `Padded`, and what stands in the array where no item does.
pub trait Item: Copy {
    ghost blank: { Self };

    fn blank() -> Self
        ensures { result ≡ blank };
}

// Contracts see the list, and nothing of what is past it. Where that has to be known, as in a list that may be copied, it is a `Padded`,
// as the two of a drawing are.
#[derive(Drop)]
pub struct Front<T: Copy, const N: usize> {
    count: usize,
    items: [T; N],
}

impl<T: Copy, const N: usize> Model for Front<T, N> {
    ghost use Rattle.std.specs.Prelude.{◌≡◌, ◌≤◌, List, length, take};

    ghost Value = { List T };

    ghost view = { λ f. take f.count f.items };

    ghost invariant = { λ f. (f.count ≤ N) × (length f.items ≡ N) };
}

#[tactic(auto, using(crate::proofs::Fronts::fronts))]
impl<T: Copy, const N: usize> Front<T, N> {
    // The empty list. What is past the items is blank.
    pub fn new(blank: T) -> Self
        ensures { result ≡ [] }
    {
        Front {
            count: 0,
            items: [blank; N],
        }
    }

    pub fn push(&mut self, item: T)
        requires { length self.old < N }
        ensures { self.new ≡ self.old ++ item ∷ [] }
    {
        self.items[self.count] = item;
        self.count += 1;
    }

    pub fn len(&self) -> usize
        ensures is { result ≡ length self.now }
        ensures few { result ≤ N }
    {
        self.count
    }

    pub fn as_slice(&self) -> &[T]
        ensures is { result.now ≡ self.now }
        ensures few { length self.now ≤ N }
    {
        &self.items[..self.count]
    }
}

#[cfg(test)]
mod tests {
    use super::*;

    #[test]
    fn holds_what_is_pushed(rt: HostRuntime) {
        let mut list = Front::<u8, 3>::new(7);
        assert_eq!(rt; list.len(), 0);
        list.push(0);
        list.push(7);
        assert_eq!(rt; list.as_slice(), [0, 7].as_slice());
        list.push(255);
        assert_eq!(rt; list.len(), 3);
        assert_eq!(rt; list.as_slice(), [0, 7, 255].as_slice());
    }
}
