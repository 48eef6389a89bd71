//! Cells that are set once, and passes, which hold what a thread knows of them.

ghost use Rattle.std.specs.Prelude.{◌≡◌, ℕ, ◌<◌, length, All, IfOk, IfErr, IfNone, IfSome, None};
ghost use Rattle.hp_board.specs.Passes.{IsPassOf, Learns, AgreeAt, cells_of, known_at};

use crate::known::Known;
use once_cell::race::OnceBox;
use std::alloc::{AllocError, Global};
use std::marker::Model;

/// A boxed value, ready to be posted: posting it allocates nothing.
#[derive(Drop)]
pub struct Posted<T> {
    value: Box<T>,
}

impl<T> Model for Posted<T> {
    ghost Value = { T };

    ghost coded = { T.code };

    ghost view = { λ p. p.value.value };
}

impl<T> Posted<T> {
    /// Boxes a value. If memory runs out, the value is dropped.
    pub fn new(alloc: Global, value: T) -> Result<Posted<T>, AllocError>
    where
        T: Drop,
        ensures { IfOk result (λ p. p ≡ value) }
    {
        Ok(Posted {
            value: Box::new(alloc, value)?,
        })
    }

    /// The value in the box.
    pub fn get(&self) -> &T
        ensures { result.now ≡ self.now }
    {
        &*self.value
    }
}

/// Cells that are set once. In contracts they are their names.
#[derive(Drop)]
pub struct OnceCells<T> {
    cells: Vec<OnceBox<T>>,
}

impl<T> Model for OnceCells<T> {
    ghost use Rattle.std.specs.Prelude.{ℕ, List, map};
    ghost use Rattle.once_cell.specs.Once.{cell_name};

    ghost Value = { List ℕ };

    ghost view = { λ c. map cell_name c.cells.items };
}

/// What one thread knows of a board's cells: for each cell nothing, or its value. It only grows.
///
/// It holds nothing at run time but its length, so using it allocates nothing.
#[derive(Drop)]
pub struct Pass<T> {
    known: Vec<Known<T>>,
}

impl<T> Model for Pass<T> {
    ghost use Rattle.std.specs.Prelude.{List};
    ghost use Rattle.hp_board.specs.Passes.{Fact, facts_code};

    ghost Value = { List (Fact T) };

    ghost coded = { facts_code T.code };

    ghost view = { λ p. p.known.items };
}

impl<T: Drop> OnceCells<T> {
    /// A number of cells, none of which is set.
    pub fn new(alloc: Global, count: usize) -> Result<OnceCells<T>, AllocError>
        ensures { IfOk result (λ c. length c ≡ count) }
    {
        let mut cells = Vec::new(alloc);
        for _ in 0..count {
            cells.push(OnceBox::new(alloc))?;
        }
        Ok(OnceCells { cells })
    }

    /// A pass that knows nothing.
    pub fn pass(&self, alloc: Global) -> Result<Pass<T>, AllocError>
        ensures cells { IfOk result (IsPassOf self.now) }
        ensures new { IfOk result (All (λ f. f.known ≡ None)) }
    {
        let mut known = Vec::with_capacity(alloc, self.cells.len())?;
        for cell in &self.cells {
            known.push(Known::new(cell))?;
        }
        Ok(Pass { known })
    }

    /// Looks at cell `j`, by one read.
    pub fn look(&self, j: usize, mut pass: Pass<T>) -> (Option<&T>, Pass<T>)
        requires cell { j < length self.now }
        requires pass { IsPassOf self.now pass }
        ensures none { IfNone result.0 ((known_at pass j ≡ None) × (result.1 ≡ pass)) }
        ensures some { IfSome result.0 (λ r. Learns pass j r.now result.1) }
        ensures pass { IsPassOf self.entry.now result.1 }
    {
        let found = pass.known[j].look(&self.cells[j]);
        (found, pass)
    }

    /// Sets cell `i`. If it was already set, both arguments come back, and the pass knows the value in the cell.
    pub fn post(
        &self,
        i: usize,
        posted: Posted<T>,
        mut pass: Pass<T>,
    ) -> Result<Pass<T>, (Posted<T>, Pass<T>)>
        requires cell { i < length self.now }
        requires pass { IsPassOf self.now pass }
        ensures ok { IfOk result (λ p.
            Learns pass i posted p × IsPassOf self.now p × (known_at pass i ≡ None)) }
        ensures err { IfErr result (λ r.
            (r.0 ≡ posted) × IsPassOf self.now r.1 × ((x : T) × Learns pass i x r.1)) }
    {
        let Posted { value } = posted;
        match pass.known[i].post(&self.cells[i], value) {
            Ok(()) => Ok(pass),
            Err(value) => Err((Posted { value }, pass)),
        }
    }
}

/// Two passes of the same cells know the same value of a cell, where both know one. At run time it only runs an empty
/// loop.
pub fn meet<T: Drop>(one: &Pass<T>, other: &Pass<T>)
    requires { cells_of one.now ≡ cells_of other.now }
    ensures { (i : ℕ) → i < length one.now → AgreeAt one.now other.now i }
{
    for i in 0..one.known.len() {
        one.known[i].agrees(&other.known[i]);
    }
}
