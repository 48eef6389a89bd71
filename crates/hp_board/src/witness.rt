//! What a note knows of a cell, readable through a `&`.

ghost use Rattle.std.specs.Prelude.{◌≡◌, ℕ, IfSome};
ghost use Rattle.std.specs.declared.option.Option.{Option};
ghost use Rattle.std.specs.Coded.{coded_option};
ghost use denote.Sharing.{said};
ghost use Rattle.once_cell.specs.Once.{noted, Agrees};

use once_cell::race::Note;
use std::marker::{Model, PhantomData};

/// What a note knew of its cell when the witness was taken. It takes no space at run time, and unlike a note it can be
/// shared.
pub struct Witness<T> {
    marker: PhantomData<T>,
    pub ghost cell: { ℕ },
    pub ghost known: { Option T } by { coded_option T.code },
}

impl<T> Model for Witness<T> {
    ghost also_owns = { λ s. noted T.row s.cell s.known };

    ghost also_shares = { λ s _ κ. said (noted T.row s.cell s.known) κ };
}

impl<T> Witness<T> {
    /// A witness of what the note knows. The note keeps it.
    pub fn of(note: &mut Note<T>) -> Witness<T>
        ensures { (note.new ≡ note.old) × (result.cell ≡ note.old.cell) × (result.known ≡ note.old.known) }
    {
        Witness {
            marker: PhantomData,
        }
    }

    /// Two witnesses of the same cell know the same value, where both know one.
    pub fn agrees(&self, other: &Witness<T>)
        requires { self.now.cell ≡ other.now.cell }
        ensures { IfSome other.now.known (Agrees self.now.known) }
    {}
}

impl<T> Drop for Witness<T> {
    fn drop(self) {
        let Witness { marker: _ } = self;
    }
}

unsafe impl<T> Send for Witness<T> {}

unsafe impl<T> Sync for Witness<T> {}
