//! What is known where an expression stands.

ghost use Rattle.std.specs.Prelude.{option_map};
ghost use Rattle.hp_rule.specs.Libraries as libraries;
ghost use Rattle.hp_analysis.specs.Declarations as declarations;
ghost use Rattle.hp_analysis.specs.Knowledge.{AreKnown};
ghost use Rattle.hp_analysis.specs.Places as places;

use crate::kinds::columns::Columns;
use crate::kinds::declaration::Declaration;
use crate::kinds::known::Known;
use crate::kinds::rows::Rows;
use crate::kinds::sort::Sort;
use crate::kinds::sorts::Sorts;
use hp_query::Entry;
use hp_rule::Library;
use hp_value::ClassNo;
use std::alloc::Global;

/// A library, and what is declared of its signals.
#[derive(Clone, Copy, Debug)]
pub(crate) struct Base<'a> {
    pub alloc: Global,
    pub library: &'a Library,
    pub declared: &'a Declaration,
}

/// What is known where an expression or a statement stands.
#[derive(Clone, Copy)]
pub(crate) struct Scope<'a> {
    /// The allocator of paths.
    pub alloc: Global,
    pub library: &'a Library,
    pub declared: &'a Declaration,
    /// What is known of the occurrence's parts; `None` in the body of a script, which has no occurrence.
    pub columns: Option<&'a Columns<'a>>,
    /// What was found of readings of these parts, in their order.
    pub known: &'a [Known<'a>],
    pub rows: Rows<'a>,
    pub values: Sorts<'a>,
    /// The condition of the rule whose action it is.
    pub condition: &'a [Entry],
    ghost right: { AreKnown (libraries.library library.now) (declarations.declared declared.now)
        (option_map (λ c. places.columns c.now) columns) known.now },
}

impl Scope<'_> {
    ghost use Rattle.std.specs.Prelude.{◌≡◌};
    ghost use Rattle.hp_model.specs.Kinds as model;
    ghost use Rattle.hp_analysis.specs.Kinded.{sort};
    ghost use Rattle.hp_analysis.specs.Scopes.{scope_in};

    /// The library and the declaration.
    pub(crate) fn base(&self) -> Base<'_>
        ensures library { result.library ≡ self.entry.now.library }
        ensures declared { result.declared ≡ self.entry.now.declared }
    {
        Base {
            alloc: self.alloc,
            library: self.library,
            declared: self.declared,
        }
    }

    /// The scope inside a statement that binds a name to a row of a class.
    pub(crate) fn bound<'b>(&'b self, newest: &'b str, class: ClassNo) -> Scope<'b>
        ensures scope { scope_in result
            ≡ model.with_name newest.entry.now class (scope_in self.entry.now) }
        ensures library { result.library ≡ self.entry.now.library }
        ensures declared { result.declared ≡ self.entry.now.declared }
        ensures condition { result.condition ≡ self.entry.now.condition }
    {
        Scope {
            alloc: self.alloc,
            library: self.library,
            declared: self.declared,
            columns: self.columns,
            known: self.known,
            rows: self.rows.bound(newest, class),
            values: self.values,
            condition: self.condition,
        }
    }

    /// The scope inside a statement whose name means a value of a sort.
    pub(crate) fn holding<'b>(&'b self, newest: &'b str, given: Sort) -> Scope<'b>
        ensures scope { scope_in result
            ≡ model.with_sort newest.entry.now (sort given) (scope_in self.entry.now) }
        ensures library { result.library ≡ self.entry.now.library }
        ensures declared { result.declared ≡ self.entry.now.declared }
        ensures condition { result.condition ≡ self.entry.now.condition }
    {
        Scope {
            alloc: self.alloc,
            library: self.library,
            declared: self.declared,
            columns: self.columns,
            known: self.known,
            rows: self.rows,
            values: self.values.bound(newest, given),
            condition: self.condition,
        }
    }
}
