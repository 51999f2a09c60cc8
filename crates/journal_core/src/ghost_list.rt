//! A list that stands in proofs alone.

ghost use Rattle.std.specs.Prelude.{◌≡◌, ◌-◌, ℕ, List, [], ◌∷◌, ◌++◌, max};
ghost use Rattle.std.specs.Borrow.{ftrue};

use std::fmt::{self, Debug, Formatter, Write};
use std::marker::{Model, PhantomData};

/// A list that only proofs read, as `items`, and how many more may come to it, as `room`. It takes no memory, and its
/// calls do nothing at run time. A recorder that stores little, or nothing, has one to say what it was told.
pub struct GhostList<T> {
    marker: PhantomData<T>,
    /// What is in the list, in order.
    pub ghost items: { List T },
    /// How many more may come.
    pub ghost room: { ℕ },
}

impl<T> Model for GhostList<T> {
    ghost also_owns = { λ _. ftrue };
}

impl<T> Drop for GhostList<T> {
    fn drop(self) {
        let Self { marker: _ } = self;
    }
}

// There is nothing to show.
impl<T> Debug for GhostList<T> {
    fn fmt<W: Write>(&self, f: &mut Formatter<W>) -> Result<(), fmt::Error> {
        f.write_str("GhostList")
    }
}

// It owns nothing.
unsafe impl<T> Send for GhostList<T> {}

impl<T> GhostList<T> {
    /// Nothing, and nothing may come.
    pub fn new() -> GhostList<T>
        ensures items { result.items ≡ [] }
        ensures room { result.room ≡ 0 }
    {
        GhostList {
            marker: PhantomData,
        }
    }

    /// One more.
    #[inline(always)]
    pub fn and(&self, _item: &T) -> GhostList<T>
        ensures items { result.items ≡ self.now.items ++ _item.now ∷ [] }
        ensures room { result.room ≡ self.now.room - 1 }
    {
        GhostList {
            marker: PhantomData,
        }
    }

    /// The same, to which so many may come.
    #[inline(always)]
    pub fn with_room(&self, _more: usize) -> GhostList<T>
        ensures items { result.items ≡ self.now.items }
        ensures room { result.room ≡ max self.now.room _more }
    {
        GhostList {
            marker: PhantomData,
        }
    }
}
