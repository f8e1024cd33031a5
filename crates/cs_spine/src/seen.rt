//! What a cell of `once_cell` holds once it is set, as a token that takes no bytes. A note of that crate says the same, but is
//! read and compared through `&mut` alone. A `Seen` is read, copied and compared through `&`, so that several may hold it and
//! send it to other threads. `Seen::of` takes one from a note that has learned a value, and `again` copies it. `agrees` says that
//! two of one cell tell one value, since a cell is set once. `recall` reads the cell again, which is set. The crate stands on
//! `once_cell` alone and knows nothing of logs. Its proofs are by hand, since a token owns a fact and no memory. Its tests stand
//! in `cs_spine_tests`.

ghost use Rattle.std.specs.Prelude.{◌≡◌, ℕ, IsSome, Some};
ghost use denote.Sharing.{said};
ghost use Rattle.once_cell.specs.Once.{cell_name};
ghost use Rattle.cs_spine.specs.seen.Holds.{held};

use once_cell::race::{Note, OnceBox};
use std::marker::{Model, PhantomData};

/// That the cell named `cell` holds `value`, now and for as long as there is such a cell. It takes no bytes.
pub struct Seen<T> {
    marker: PhantomData<T>,
    pub ghost cell: { ℕ },
    pub ghost value: { T },
}

impl<T> Model for Seen<T> {
    ghost also_owns = { λ s. held T.row s.cell s.value };

    ghost also_shares = { λ s _ κ. said (held T.row s.cell s.value) κ };
}

impl<T> Seen<T> {
    /// What a note has learned of its cell. The note stays as it was.
    pub fn of(note: &mut Note<T>) -> Seen<T>
        requires { IsSome note.old.known }
        ensures { (result.cell ≡ note.old.cell) × (note.old.known ≡ Some result.value) × (note.new ≡ note.old) }
    {
        let _ = note;
        Seen {
            marker: PhantomData,
        }
    }

    /// A second token that says the same.
    pub fn again(&self) -> Seen<T>
        ensures { result ≡ self.now }
    {
        Seen {
            marker: PhantomData,
        }
    }

    /// Two tokens of one cell tell one value, whichever threads took them.
    pub fn agrees(&self, other: &Seen<T>)
        requires { self.now.cell ≡ other.now.cell }
        ensures { self.now.value ≡ other.now.value }
    {}

    /// Lets a note of the same cell know the value, whatever it knew.
    fn teach(&self, note: &mut Note<T>)
        requires { note.old.cell ≡ self.now.cell }
        ensures { (note.new.cell ≡ note.old.cell) × (note.new.known ≡ Some self.now.value) }
    {}

    /// What the cell holds: it is set, so there is nothing to test. It takes no memory.
    pub fn recall<'c>(&self, cell: &'c OnceBox<T>) -> &'c T
        requires { self.now.cell ≡ cell_name cell.now }
        ensures { result.now ≡ self.now.value }
    {
        let mut note = cell.note();
        self.teach(&mut note);
        match cell.get_as(&mut note) {
            Some(value) => value,
            None => unreachable!(),
        }
    }
}

impl<T> Drop for Seen<T> {
    fn drop(self) {
        let Seen { marker: _ } = self;
    }
}

unsafe impl<T> Send for Seen<T> {}

unsafe impl<T> Sync for Seen<T> {}
