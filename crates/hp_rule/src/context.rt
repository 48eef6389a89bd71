//! The context of a statement.

ghost use Rattle.std.specs.Prelude.{◌≡◌};
ghost use Rattle.hp_model.specs.Refusals.{item_at};
ghost use Rattle.hp_model.specs.Scopes.{knowing_row, knowing_value};
ghost use Rattle.hp_rule.specs.Named.{names_in};
ghost use Rattle.hp_rule.specs.Places.{steps};

use crate::known_names::KnownNames;
use crate::place::Place;
use std::alloc::Global;

/// Where a statement or a body stands, and what it may name. The scope is all that it may name besides rows and values.
#[derive(Clone, Copy)]
pub struct Context<'a, S> {
    /// The allocator of paths and of what is read.
    pub alloc: Global,
    /// The place.
    pub place: Place<'a>,
    /// What may be named besides rows and values.
    pub scope: S,
    /// The names of rows and values in scope.
    pub names: KnownNames<'a>,
}

impl<S: Copy> Context<'_, S> {
    /// The context of an item of this list.
    pub fn item(&self, position: usize) -> Context<'_, S>
        ensures place { steps result.place ≡ item_at (steps self.now.place) position }
        ensures scope { result.scope ≡ self.now.scope }
        ensures names { result.names ≡ self.now.names }
    {
        Context {
            place: self.place.item(position),
            ..*self
        }
    }

    /// The context inside a statement whose name means a row.
    pub fn with_row<'b>(&'b self, newest: &'b str) -> Context<'b, S>
        ensures place { result.place ≡ self.entry.now.place }
        ensures scope { result.scope ≡ self.entry.now.scope }
        ensures names { names_in result.names ≡ knowing_row newest.entry.now (names_in self.entry.now.names) }
    {
        Context {
            names: self.names.with_row(newest),
            ..*self
        }
    }

    /// The context inside a statement whose name means a value.
    pub fn with_value<'b>(&'b self, newest: &'b str) -> Context<'b, S>
        ensures place { result.place ≡ self.entry.now.place }
        ensures scope { result.scope ≡ self.entry.now.scope }
        ensures names { names_in result.names ≡ knowing_value newest.entry.now (names_in self.entry.now.names) }
    {
        Context {
            names: self.names.with_value(newest),
            ..*self
        }
    }
}
