//! What is known of the occurrences of a rule.

ghost use Rattle.std.specs.Prelude.{Some};
ghost use Rattle.hp_analysis.specs.Bases as bases;
ghost use Rattle.hp_analysis.specs.Knowledge.{AreKnown};
ghost use Rattle.hp_analysis.specs.Places as places;

use crate::kinds::columns::Columns;
use crate::kinds::known::{Known, known_of};
use crate::kinds::rows::Rows;
use crate::kinds::scope::{Base, Scope};
use crate::kinds::sorts::{NamedSort, Sorts};
use hp_query::Entry;
use hp_rule::EventExpr;
use std::alloc::AllocError;

/// What is known of the occurrences of a rule.
#[derive(Debug, Drop)]
pub(crate) struct Occurred<'a> {
    pub base: Base<'a>,
    pub columns: Columns<'a>,
    // What is known of readings of parts with many patterns.
    known: Vec<Known<'a>>,
    ghost right: { AreKnown (bases.library base) (bases.declared base)
        (Some (places.columns columns)) known.items },
}

impl<'a> Occurred<'a> {
    ghost use Rattle.std.specs.Prelude.{◌≡◌, IfOk, map};
    ghost use Rattle.hp_detect.specs.Mapped.{event};
    ghost use Rattle.hp_query.specs.Mapped.{entry};
    ghost use Rattle.hp_model.specs.Kinds.{columns_by};
    ghost use Rattle.hp_analysis.specs.Places.{columns};
    ghost use Rattle.hp_analysis.specs.Scopes.{scope_in, scope_there};

    /// What is known of the occurrences of an event, which statements may fire its rule without or not.
    pub(crate) fn of(
        base: Base<'a>,
        fired: bool,
        expr: &'a EventExpr,
    ) -> Result<Occurred<'a>, AllocError>
        ensures library { IfOk result (λ o. o.base.library ≡ base.entry.library) }
        ensures declared { IfOk result (λ o. o.base.declared ≡ base.entry.declared) }
        ensures columns { IfOk result (λ o. columns o.columns ≡ columns_by fired (event expr.entry.now)) }
    {
        let columns = Columns::of_rule(base.alloc, fired, expr)?;
        let known = known_of(base, &columns)?;
        Ok(Occurred {
            base,
            columns,
            known,
        })
    }

    /// What occurs for a rule that no statement fires. No reading has been looked at yet.
    pub(crate) fn unseen(base: Base<'a>, expr: &'a EventExpr) -> Result<Occurred<'a>, AllocError> {
        let columns = Columns::of(base.alloc, expr)?;
        Ok(Occurred {
            base,
            columns,
            known: Vec::new(base.alloc),
        })
    }

    /// What is known after these entries of a rule's condition, with the sorts of their values. An action has all of
    /// them.
    pub(crate) fn asked<'b>(&'b self, entries: &'b [Entry], found: &'b [NamedSort]) -> Scope<'b>
        ensures library { result.library ≡ self.entry.now.base.library }
        ensures declared { result.declared ≡ self.entry.now.base.declared }
        ensures condition { result.condition ≡ entries.entry }
        ensures scope { scope_in result
            ≡ scope_there (columns self.entry.now.columns) (map entry entries.entry.now) found.entry.now }
    {
        Scope {
            alloc: self.base.alloc,
            library: self.base.library,
            declared: self.base.declared,
            columns: Some(&self.columns),
            known: &self.known,
            rows: Rows::Entries(entries),
            values: Sorts::Found(found),
            condition: entries,
        }
    }
}
