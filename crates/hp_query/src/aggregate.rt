//! Aggregates: what a `let` computes.

ghost use Rattle.std.specs.Prelude.{◌≡◌, List, None, length, option_map};
ghost use Rattle.hp_model.specs.Values.{KeyedRow};
ghost use Rattle.hp_model.specs.State.{Objects, rows_of};
ghost use Rattle.hp_model.specs.Conditions as model;
ghost use Rattle.hp_value.specs.Mapped.{Meets, environment, expression, value, outcome};
ghost use Rattle.hp_query.specs.Looks.{ObjectsRise, AsksEach, AsksAlone, aggregate_classes};
ghost use Rattle.hp_query.specs.Mapped as mapped;

use crate::by_end::is_key_in_range;
use crate::candidates::Asked;
use crate::look::Look;
use crate::query::{Query, count_answer, is_always_true};
use crate::terms::{Merge, Terms};
use hp_value::{Arithmetic, Cause, ClassNo, Comparison, Env, Expr, Halt, Key, Value};
use std::alloc::Global;

/// What a `let` computes. In a [`Query`] of an aggregate the name is the variable: it means the row that is tested, and
/// later on nothing.
#[derive(Debug, Drop)]
pub enum Aggregate {
    /// The number of rows of a query's answer, at most the largest signed integer of 64 bits.
    Count(Query),
    /// The sum of a term over the rows of a query's answer; 0 for no row.
    Sum {
        /// The query.
        rows: Query,
        /// The expression that is added up, under the query's variable.
        term: Box<Expr>,
    },
    /// The least value of a term over the rows of a query's answer. Integers are ordered by size, and texts by their
    /// bytes.
    Least {
        /// The query.
        rows: Query,
        /// The expression whose values are compared, under the query's variable.
        term: Box<Expr>,
    },
    /// The greatest value, in the same order.
    Greatest {
        /// The query.
        rows: Query,
        /// The expression whose values are compared, under the query's variable.
        term: Box<Expr>,
    },
    /// One more than the greatest key of a class's objects; 1 if it has none.
    Next(ClassNo),
    /// The value of an expression.
    Single(Box<Expr>),
}

impl Aggregate {
    /// The query whose class is looked at row by row, if there is one. The look counts all objects of a class, a key is
    /// read at one end of its range, and `Next` and `Single` have no query. No answer depends on it.
    pub fn scanned(&self) -> Option<&Query> {
        match self {
            Aggregate::Count(rows) if is_always_true(&rows.predicate) => None,
            Aggregate::Least { rows, term } | Aggregate::Greatest { rows, term }
                if is_key_in_range(rows.name.as_str(), &rows.predicate, term) => { None }
            Aggregate::Count(rows)
            | Aggregate::Sum { rows, .. }
            | Aggregate::Least { rows, .. }
            | Aggregate::Greatest { rows, .. } => Some(rows),
            Aggregate::Next(_) | Aggregate::Single(_) => None,
        }
    }
}

impl PartialEq for Aggregate {
    ghost use Rattle.std.specs.Ordering.{on};
    ghost use Rattle.std.specs.Cmp.{on_equiv, partial_equiv_from_equiv};
    ghost use Rattle.hp_query.specs.Mapped.{aggregate};
    ghost use Rattle.hp_query.specs.Same.{aggregate_same, aggregate_equiv};

    ghost eq = { on aggregate aggregate_same };

    ghost laws = { partial_equiv_from_equiv (on_equiv aggregate aggregate_equiv) };

    fn eq(&self, other: &Aggregate) -> bool {
        match (self, other) {
            (Aggregate::Count(q), Aggregate::Count(r)) => q == r,
            (Aggregate::Sum { rows: q, term: a }, Aggregate::Sum { rows: r, term: b })
            | (Aggregate::Least { rows: q, term: a }, Aggregate::Least { rows: r, term: b })
            | (
                Aggregate::Greatest { rows: q, term: a },
                Aggregate::Greatest { rows: r, term: b },
            ) => { q == r && **a == **b }
            (Aggregate::Next(c), Aggregate::Next(d)) => c == d,
            (Aggregate::Single(a), Aggregate::Single(b)) => **a == **b,
            _ => false,
        }
    }
}

impl Eq for Aggregate {
    ghost use Rattle.std.specs.Cmp.{on_equiv};
    ghost use Rattle.hp_query.specs.Mapped.{aggregate};
    ghost use Rattle.hp_query.specs.Same.{aggregate_equiv};

    ghost laws = { on_equiv aggregate aggregate_equiv };
}

/// The value of an aggregate. `None` is that of the least or the greatest of no row.
///
/// This project's own choices: the rows are taken in ascending key order, and the first fault counts. For one row the
/// predicate is first, then the term, then what it makes of the terms before it.
///
/// `Kind` means that a predicate gives no boolean, that a sum's term is no integer, or that a least or greatest value's
/// term is a boolean or of another kind than the first. `Overflow` means that a partial sum is outside the range of
/// `i64`, or that the greatest key is `i64::MAX`. Other causes are those of an expression. After an error the look may
/// allow fewer worlds, and nothing else has changed.
pub fn aggregated<L: Look>(
    alloc: Global,
    aggregate: &Aggregate,
    env: &Env,
    look: &mut L,
) -> Result<Option<Value>, Halt>
    ensures goes_on { L.goes_on look.old look.new }
    ensures asks { AsksEach L.asks (aggregate_classes (mapped.aggregate aggregate.now)) look.old look.new }
    ensures alone { AsksAlone L.asks_count L.asks_greatest (mapped.aggregate aggregate.now) look.old look.new }
    ensures narrows { (world : Objects) → L.allows look.new world → L.allows look.old world }
    ensures value { (world : Objects) → ObjectsRise world → L.allows look.new world
        → Meets (option_map value) result
        (model.aggregated world (environment env.now) (mapped.aggregate aggregate.now)) }
{
    match aggregate {
        Aggregate::Count(query) => {
            let count = count_answer(alloc, query, env, look)?;
            Ok(Some(count_value(count)))
        }
        Aggregate::Sum { rows, term } => {
            let sum = merged_terms(alloc, rows, term, Merge::Sum, env, look)?;
            Ok(Some(sum.unwrap_or(Value::Int(0))))
        }
        Aggregate::Least { rows, term } => {
            let least = Merge::Preferred(Comparison::Less);
            merged_terms(alloc, rows, term, least, env, look)
        }
        Aggregate::Greatest { rows, term } => {
            let greatest = Merge::Preferred(Comparison::Greater);
            merged_terms(alloc, rows, term, greatest, env, look)
        }
        Aggregate::Next(class) => {
            let greatest = look.greatest_key(alloc, *class)?;
            Ok(Some(key_after(greatest)?))
        }
        Aggregate::Single(expr) => Ok(Some(expr.eval(alloc, env)?)),
    }
}

/// The value of a statement `let`, which must have one.
///
/// `Missing` means that it is the least or the greatest of no row. The other errors are those of [`aggregated`].
pub fn let_value<L: Look>(
    alloc: Global,
    aggregate: &Aggregate,
    env: &Env,
    look: &mut L,
) -> Result<Value, Halt>
    ensures goes_on { L.goes_on look.old look.new }
    ensures asks { AsksEach L.asks (aggregate_classes (mapped.aggregate aggregate.now)) look.old look.new }
    ensures alone { AsksAlone L.asks_count L.asks_greatest (mapped.aggregate aggregate.now) look.old look.new }
    ensures narrows { (world : Objects) → L.allows look.new world → L.allows look.old world }
    ensures value { (world : Objects) → ObjectsRise world → L.allows look.new world
        → Meets value result (model.let_of world (environment env.now) (mapped.aggregate aggregate.now)) }
{
    let found = aggregated(alloc, aggregate, env, look)?;
    Ok(found.ok_or(Cause::Missing)?)
}

// The terms of the rows of a query's answer, merged in key order; `None` if there are none.
fn merged_terms<L: Look>(
    alloc: Global,
    rows: &Query,
    term: &Expr,
    merge: Merge,
    env: &Env,
    look: &mut L,
) -> Result<Option<Value>, Halt>
    ensures goes_on { L.goes_on look.old look.new }
    ensures asks { L.asks rows.now.class look.old look.new }
    ensures narrows { (world : Objects) → L.allows look.new world → L.allows look.old world }
    ensures value { let asked = mapped.query rows.now in
        (world : Objects) → ObjectsRise world → L.allows look.new world
        → Meets (option_map value) result (model.merged (mapped.merge merge) (environment env.now) asked.name
        asked.predicate (expression term.now) None (rows_of asked.class world)) }
{
    let asked = Asked::new(rows, env);
    Terms { asked, term, merge }.merged(alloc, look)
}

// The number of rows, as a value.
fn count_value(count: usize) -> Value
    ensures { (rows : List KeyedRow) → length rows ≡ count → value result ≡ model.row_count rows }
{
    Value::Int(i64::try_from(count).unwrap_or(i64::MAX))
}

// The key after the greatest one of a class; 1 if the class has no object. `Overflow` means that there is none.
fn key_after(greatest: Option<Key>) -> Result<Value, Cause>
    ensures { outcome value result ≡ model.key_after greatest }
{
    match greatest {
        Some(key) => Ok(Value::Int(Arithmetic::Plus.calculate(key, 1)?)),
        None => Ok(Value::Int(1)),
    }
}
