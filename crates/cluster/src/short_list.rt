ghost use Rattle.std.specs.Prelude.{◌≡◌, ◌<◌, ◌≤◌, [], ◌∷◌, ◌++◌, length};

use std::marker::Model;

// A list of at most so many, which lies in the value and is copied with it: the library's vectors of fixed capacity are not `Copy`.
#[derive(Clone, Copy)]
pub struct ShortList<T, const CAP: usize> {
    cells: [T; CAP],
    len: usize,
}

impl<T, const CAP: usize> Model for ShortList<T, CAP> {
    ghost use Rattle.std.specs.Prelude.{◌≡◌, ◌≤◌, ◌++◌, length, take, drop};
    ghost use Rattle.std.proofs.Common.{arith, take-append-drop, length-take-le};
    ghost use Rattle.cluster.specs.ShortLists.{ShortList as Listed};

    ghost Value = { Listed T };

    ghost view = { λ l. record { items = take l.len l.cells; spare = drop l.len l.cells } };

    ghost invariant = { λ l. (l.len ≤ CAP) × (length l.cells ≡ CAP) };

    ghost inverse = { λ v. record { cells = v.items ++ v.spare; len = length v.items } };

    ghost inverse_ok = { λ l h i. record {
      cells = take-append-drop l.len l.cells i;
      len = length-take-le l.len l.cells (omega (arith, h.0, h.1)) i;
    } };
}

impl<T: Copy, const CAP: usize> ShortList<T, CAP> {
    // An empty one; the blank stands in the places that are not used.
    pub(crate) fn new(blank: T) -> Self
        ensures { result.items ≡ [] }
    {
        ShortList {
            cells: [blank; CAP],
            len: 0,
        }
    }

    pub(crate) fn len(&self) -> usize
        ensures is { result ≡ length self.now.items }
        ensures fits { result ≤ CAP }
    {
        self.len
    }

    pub(crate) fn as_slice(&self) -> &[T]
        ensures is { result.now ≡ self.now.items }
        ensures fits { length result.now ≤ CAP }
    {
        &self.cells[..self.len]
    }

    // Adds one behind the others.
    pub(crate) fn push(&mut self, item: T)
        requires { length self.old.items < CAP }
        ensures { self.new.items ≡ self.old.items ++ item ∷ [] }
    {
        self.cells[self.len] = item;
        self.len += 1;
    }
}
