//! What is known of one cell.

ghost use Rattle.std.specs.Prelude.{◌≡◌, IfNone, IfSome, IfOk, IfErr, None, Some};
ghost use Rattle.once_cell.specs.Once.{cell_name};
ghost use Rattle.hp_board.specs.Passes.{fact, Agrees};

use crate::witness::Witness;
use once_cell::race::{Note, OnceBox};
use std::marker::Model;

/// What is known of a cell: the note learns more, the witness can be read through a `&`. Neither takes space at run
/// time.
#[derive(Drop)]
pub(crate) struct Known<T> {
    note: Note<T>,
    witness: Witness<T>,
}

impl<T> Model for Known<T> {
    ghost use Rattle.std.specs.Prelude.{◌≡◌};
    ghost use Rattle.hp_board.specs.Passes.{Fact, fact_code, fact};

    ghost Value = { Fact T };

    ghost coded = { fact_code T.code };

    ghost view = { λ k. fact k.note.cell k.note.known };

    ghost invariant = { λ k. (k.witness.cell ≡ k.note.cell) × (k.witness.known ≡ k.note.known) };
}

impl<T: Drop> Known<T> {
    /// Nothing is known of the cell.
    pub(crate) fn new(cell: &OnceBox<T>) -> Known<T>
        ensures { result ≡ fact (cell_name cell.now) None }
    {
        let mut note = cell.note();
        let witness = Witness::of(&mut note);
        Known { note, witness }
    }

    /// Reads the cell, once. A value that was known is found again.
    pub(crate) fn look<'a>(&mut self, cell: &'a OnceBox<T>) -> Option<&'a T>
        requires { self.old.cell ≡ cell_name cell.now }
        ensures cell { self.new.cell ≡ self.old.cell }
        ensures none { IfNone result ((self.old.known ≡ None) × (self.new.known ≡ None)) }
        ensures some { IfSome result (λ r. (self.new.known ≡ Some r.now) × Agrees self.old.known r.now) }
    {
        let found = cell.get_as(&mut self.note);
        self.witness = Witness::of(&mut self.note);
        found
    }

    /// Sets the cell, once. A cell that is already set keeps its value, which is then known, and the box comes back.
    pub(crate) fn post(&mut self, cell: &OnceBox<T>, value: Box<T>) -> Result<(), Box<T>>
        requires { self.old.cell ≡ cell_name cell.now }
        ensures cell { self.new.cell ≡ self.old.cell }
        ensures known { (x : T) × (self.new.known ≡ Some x) × Agrees self.old.known x }
        ensures ok { IfOk result (λ _. (self.new.known ≡ Some value.value) × (self.old.known ≡ None)) }
        ensures err { IfErr result (λ b. b.value ≡ value.value) }
    {
        let done = cell.set_as(value, &mut self.note);
        self.witness = Witness::of(&mut self.note);
        done
    }

    /// Two that know a value of the same cell know the same value.
    pub(crate) fn agrees(&self, other: &Known<T>)
        requires { self.now.cell ≡ other.now.cell }
        ensures { IfSome other.now.known (Agrees self.now.known) }
    {
        self.witness.agrees(&other.witness);
    }
}
