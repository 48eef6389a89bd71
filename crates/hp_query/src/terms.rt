//! Terms of aggregates: expressions over the rows of an answer, merged one after another.

ghost use Rattle.std.specs.Prelude.{◌≡◌, [], ◌∷◌, Ok, Some, None, IfOk, IfSome, map, option_map};
ghost use Rattle.hp_model.specs.State.{Objects, rows_of};
ghost use Rattle.hp_model.specs.Values.{integer};
ghost use Rattle.hp_model.specs.Conditions as model;
ghost use Rattle.hp_model.specs.Expressions.{bound};
ghost use Rattle.hp_model.specs.Firing.{boolean_value};
ghost use Rattle.hp_value.specs.Mapped as mapped;
ghost use Rattle.hp_value.specs.Mapped.{Meets, environment, expression, keyed_row, outcome, value};
ghost use Rattle.hp_query.specs.Looks.{ObjectsRise};
ghost use Rattle.hp_query.specs.Candidates.{tested};
ghost use Rattle.hp_query.specs.Mapped.{merge};

use crate::by_end::{greatest_key, key_range, least_key};
use crate::by_key::is_key_of;
use crate::candidates::{Asked, find_candidates};
use crate::look::Look;
use crate::query::is_selected;
use hp_value::{Arithmetic, Cause, Comparison, Expr, Halt, Key, KeyedRow, Value};
use std::alloc::{AllocError, Global};

/// How a term's value goes into what the terms before it gave.
#[derive(Clone, Copy)]
pub(crate) enum Merge {
    /// It is added.
    Sum,
    /// It takes the place of the other one if it comes before that in this comparison, which is `Less` or `Greater`.
    Preferred(Comparison),
}

impl Merge {
    /// The value of the terms so far, with one more. `None` means that there was no term.
    ///
    /// `Kind` means that a sum's term is no integer, that one of another merge is a boolean, or that it is of another
    /// kind than the one before it. `Overflow` means that a partial sum is outside the range of `i64`.
    fn with_term(self, so_far: Option<Value>, term: Value) -> Result<Value, Cause>
        ensures { outcome value result ≡ merge self (option_map value so_far) (value term) }
    {
        match self {
            Merge::Sum => sum_with(so_far, &term),
            Merge::Preferred(comparison) => preferred_with(comparison, so_far, term),
        }
    }
}

// The sum of the terms so far, with one more.
fn sum_with(so_far: Option<Value>, term: &Value) -> Result<Value, Cause>
    ensures { outcome value result ≡ model.added (option_map value so_far) (value term.now) }
{
    let sum = match so_far {
        Some(sum) => sum.as_int()?,
        None => 0,
    };
    Ok(Value::Int(Arithmetic::Plus.calculate(sum, term.as_int()?)?))
}

// The one of the terms so far and one more that comes first in a comparison.
fn preferred_with(
    comparison: Comparison,
    so_far: Option<Value>,
    term: Value,
) -> Result<Value, Cause>
    ensures { outcome value result
        ≡ model.preferred (mapped.comparison comparison) (option_map value so_far) (value term) }
{
    let Some(held) = so_far else {
        comparison.compare(&term, &term)?;
        return Ok(term);
    };
    if comparison.compare(&term, &held)? {
        return Ok(term);
    }
    Ok(held)
}

/// The terms of an aggregate.
#[derive(Clone, Copy)]
pub(crate) struct Terms<'a> {
    /// The rows that have a term: those of a class for which a predicate is true.
    pub(crate) asked: Asked<'a>,
    /// The expression that is evaluated for each of these rows.
    pub(crate) term: &'a Expr,
    /// How the values are merged.
    pub(crate) merge: Merge,
}

impl Terms<'_> {
    /// The terms of the class's rows, merged in key order; `None` if there are none.
    ///
    /// For each row the predicate is first, then the term, then their merging, and the first fault on this way is the
    /// fault. The least or the greatest key of the class, or of a range of its keys, is read at one end, if the look
    /// finds it there. After an error the look may allow fewer worlds, and nothing else has changed.
    pub(crate) fn merged<L: Look>(&self, alloc: Global, look: &mut L) -> Result<Option<Value>, Halt>
        ensures goes_on { L.goes_on look.old look.new }
        ensures asks { L.asks self.now.asked.class look.old look.new }
        ensures narrows { (world : Objects) → L.allows look.new world → L.allows look.old world }
        ensures value { let asked = self.now.asked in
            (world : Objects) → ObjectsRise world → L.allows look.new world
            → Meets (option_map value) result
            (model.merged (merge self.now.merge) (environment asked.env.now) asked.name.now
            (expression asked.predicate.now) (expression self.now.term.now) None (rows_of asked.class world)) }
    {
        if let Some(key) = self.end_key(alloc, look)? {
            return Ok(Some(Value::Int(key)));
        }
        self.merged_candidates(alloc, look)
    }

    // The least or the greatest key, where that is what is asked for, and it is found at the end of its range.
    fn end_key<L: Look>(&self, alloc: Global, look: &mut L) -> Result<Option<Key>, AllocError>
        ensures goes_on { L.goes_on look.old look.new }
        ensures asks { L.asks self.now.asked.class look.old look.new }
        ensures narrows { (world : Objects) → L.allows look.new world → L.allows look.old world }
        ensures key { let asked = self.now.asked in
            IfOk result (λ found. IfSome found (λ key. (world : Objects) → ObjectsRise world → L.allows look.new world
            → Ok (Some (integer key)) ≡ model.merged (merge self.now.merge) (environment asked.env.now) asked.name.now
            (expression asked.predicate.now) (expression self.now.term.now) None (rows_of asked.class world))) }
    {
        if !is_key_of(self.asked.name, self.term) {
            return Ok(None);
        }
        let Some(range) = key_range(alloc, &self.asked)? else {
            return Ok(None);
        };
        match self.merge {
            Merge::Preferred(Comparison::Less) => least_key(alloc, self.asked.class, &range, look),
            Merge::Preferred(Comparison::Greater) => {
                greatest_key(alloc, self.asked.class, &range, look)
            }
            _ => Ok(None),
        }
    }

    // The terms of the rows for which the predicate can be true, merged.
    fn merged_candidates<L: Look>(&self, alloc: Global, look: &mut L) -> Result<Option<Value>, Halt>
        ensures goes_on { L.goes_on look.old look.new }
        ensures asks { L.asks self.now.asked.class look.old look.new }
        ensures narrows { (world : Objects) → L.allows look.new world → L.allows look.old world }
        ensures value { let asked = self.now.asked in
            (world : Objects) → ObjectsRise world → L.allows look.new world
            → Meets (option_map value) result
            (model.merged (merge self.now.merge) (environment asked.env.now) asked.name.now
            (expression asked.predicate.now) (expression self.now.term.now) None (rows_of asked.class world)) }
    {
        let found = find_candidates(alloc, &self.asked, look)?;
        self.merged_of(alloc, found.rows(), found.are_selected())
    }

    // The terms of the given objects for which the predicate is true, merged. Where it is known to be true of all, it
    // isn't tested.
    fn merged_of(
        &self,
        alloc: Global,
        objects: &[KeyedRow],
        are_selected: bool,
    ) -> Result<Option<Value>, Halt>
        ensures { let asked = self.now.asked in
            Meets (option_map value) result
            (model.merged (merge self.now.merge) (environment asked.env.now) asked.name.now
            (tested are_selected (expression asked.predicate.now)) (expression self.now.term.now) None
            (map keyed_row objects.now)) }
    {
        let mut so_far = None;
        for object in objects {
            so_far = self.with_object(alloc, so_far, object, are_selected)?;
        }
        Ok(so_far)
    }

    // What the terms so far merge to with one more object.
    fn with_object(
        &self,
        alloc: Global,
        so_far: Option<Value>,
        object: &KeyedRow,
        is_known: bool,
    ) -> Result<Option<Value>, Halt>
        ensures { let asked = self.now.asked in
            Meets (option_map value) result
            (model.merged (merge self.now.merge) (environment asked.env.now) asked.name.now
            (tested is_known (expression asked.predicate.now)) (expression self.now.term.now) (option_map value so_far)
            (keyed_row object.now ∷ [])) }
    {
        if !self.has_term(object, is_known)? {
            return Ok(so_far);
        }
        let asked = self.asked;
        let env = asked.env.bound(asked.name, object.key, &object.row);
        let term = self.term.eval(alloc, &env)?;
        Ok(Some(self.merge.with_term(so_far, term)?))
    }

    // Whether an object has a term: the predicate is known to be true of it, or it is.
    fn has_term(&self, object: &KeyedRow, is_known: bool) -> Result<bool, Cause>
        ensures { let asked = self.now.asked in
            outcome (λ b. b) result
            ≡ boolean_value (bound asked.name.now (keyed_row object.now) (environment asked.env.now))
            (tested is_known (expression asked.predicate.now)) }
    {
        if is_known {
            return Ok(true);
        }
        is_selected(&self.asked, object)
    }
}
