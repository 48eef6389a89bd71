//! Queries and their answers.

ghost use Rattle.std.specs.Prelude.{◌≡◌, ℤ, IsTrue, Some, is_some, string_bytes, true, map};
ghost use Rattle.std.specs.Option.{option_copied};
ghost use Rattle.hp_model.specs.Expressions.{bound, constant};
ghost use Rattle.hp_model.specs.Values.{boolean};
ghost use Rattle.hp_model.specs.State.{Objects};
ghost use Rattle.hp_model.specs.Firing.{boolean_value};
ghost use Rattle.hp_model.specs.Conditions as model;
ghost use Rattle.hp_value.specs.Mapped.{Meets, outcome, keyed_row, environment, expression};
ghost use Rattle.hp_query.specs.ByKey.{first_test, key_asked, key_equated};
ghost use Rattle.hp_query.specs.Candidates.{counted};
ghost use Rattle.hp_query.specs.Looks.{ObjectsRise};
ghost use Rattle.hp_query.specs.Looks as looks;
ghost use Rattle.hp_query.specs.Mapped as mapped;
ghost use Rattle.hp_query.specs.Parts.{field_asked};
ghost use Rattle.hp_query.specs.Mapped.{keyed_rows};

use crate::by_key::asks_key;
use crate::candidates::{Asked, Candidates, find_candidates};
use crate::look::Look;
use crate::part::asked_field;
use hp_value::{Cause, ClassNo, Env, Expr, Halt, KeyedRow, Value};
use std::alloc::{AllocError, Global};

/// A query: the rows of a class for which a predicate is true. HiPAC's conditions are lists of queries.
#[derive(Debug, PartialEq, Eq, Drop)]
pub struct Query {
    /// The query's name. In its predicate it means the row that is tested, and later on the first row of its answer.
    pub name: String,
    /// The class whose objects are tested.
    pub class: ClassNo,
    /// The test of each row. It has to give a boolean.
    pub predicate: Box<Expr>,
}

impl Query {
    /// Whether the predicate begins by comparing the key. The query then mostly looks at one row, whatever the size of
    /// its class. No answer depends on it.
    pub fn asks_key(&self) -> bool
        ensures { let asked = mapped.query self.now in
            result ≡ is_some (key_equated asked.name (first_test asked.predicate)) }
    {
        asks_key(self.name.as_str(), &self.predicate)
    }

    /// The field whose index serves the query ([`asked_field`]). No answer depends on it.
    pub fn asked_field(&self) -> Option<&str>
        ensures { let asked = mapped.query self.now in
            option_copied result ≡ field_asked asked.name asked.predicate }
    {
        asked_field(self.name.as_str(), &self.predicate)
    }
}

/// The answer of a query: the rows of its class for which its predicate is true, in ascending key order.
///
/// Each row is tested under the query's name, which hides an outer name. This project's own choices: the first fault in
/// key order is the query's fault, and a predicate that gives no boolean is the cause `Kind`. After an error the look
/// may allow fewer worlds, and nothing else has changed.
pub fn answer<L: Look>(
    alloc: Global,
    query: &Query,
    env: &Env,
    look: &mut L,
) -> Result<Vec<KeyedRow>, Halt>
    ensures goes_on { L.goes_on look.old look.new }
    ensures asks { L.asks query.now.class look.old look.new }
    ensures asks_row { let asked = mapped.query query.now in
        (key : ℤ) → key_asked (environment env.now) asked.name asked.predicate ≡ Some key
        → L.asks_row asked.class key look.old look.new }
    ensures narrows { (world : Objects) → L.allows look.new world → L.allows look.old world }
    ensures answer { let asked = mapped.query query.now in
        (world : Objects) → ObjectsRise world → L.allows look.new world
        → Meets keyed_rows result (model.answer (environment env.now) asked.name asked.class asked.predicate world) }
{
    selected_rows(
        alloc,
        query.name.as_str(),
        query.class,
        &query.predicate,
        env,
        look,
    )
}

/// The rows of a class, in ascending key order, for which a predicate is true, each tested under a name.
///
/// This does what [`answer`] does, for a caller that has no [`Query`]. If the predicate begins by asking for one key,
/// or for a part of the class that the look finds, no other rows are read.
pub fn selected_rows<L: Look>(
    alloc: Global,
    name: &str,
    class: ClassNo,
    predicate: &Expr,
    env: &Env,
    look: &mut L,
) -> Result<Vec<KeyedRow>, Halt>
    ensures goes_on { L.goes_on look.old look.new }
    ensures asks { L.asks class look.old look.new }
    ensures asks_row { (key : ℤ) → key_asked (environment env.now) name.now (expression predicate.now) ≡ Some key
        → L.asks_row class key look.old look.new }
    ensures narrows { (world : Objects) → L.allows look.new world → L.allows look.old world }
    ensures answer { (world : Objects) → ObjectsRise world → L.allows look.new world
        → Meets keyed_rows result (model.answer (environment env.now) name.now class (expression predicate.now) world) }
{
    let asked = Asked {
        name,
        class,
        predicate,
        env,
    };
    match find_candidates(alloc, &asked, look)? {
        Candidates::Selected(rows) => Ok(rows),
        found => selected(alloc, &asked, found.rows()),
    }
}

/// The number of rows of a query's answer. It makes no list of them. If every object of the class is in the answer, the
/// look counts them.
///
/// The errors are those of [`answer`].
pub(crate) fn count_answer<L: Look>(
    alloc: Global,
    query: &Query,
    env: &Env,
    look: &mut L,
) -> Result<usize, Halt>
    ensures goes_on { L.goes_on look.old look.new }
    ensures asks { L.asks query.now.class look.old look.new }
    ensures asks_count { looks.is_always_true (mapped.query query.now).predicate ≡ true
        → L.asks_count query.now.class look.old look.new }
    ensures narrows { (world : Objects) → L.allows look.new world → L.allows look.old world }
    ensures count { let asked = mapped.query query.now in
        (world : Objects) → ObjectsRise world → L.allows look.new world
        → Meets (λ n. n) result
        (counted (model.answer (environment env.now) asked.name asked.class asked.predicate world)) }
{
    if is_always_true(&query.predicate) {
        return Ok(look.count(alloc, query.class)?);
    }
    let asked = Asked::new(query, env);
    let found = find_candidates(alloc, &asked, look)?;
    if found.are_selected() {
        return Ok(found.rows().len());
    }
    Ok(count_selected(&asked, found.rows())?)
}

/// Whether a predicate is the constant `true`.
pub(crate) fn is_always_true(predicate: &Expr) -> bool
    ensures test { result ≡ looks.is_always_true (expression predicate.now) }
    ensures told { IsTrue result → expression predicate.now ≡ constant (boolean true) }
{
    match predicate {
        Expr::Constant(constant) => matches!(constant.value(), Value::Bool(true)),
        _ => false,
    }
}

/// The number of the given objects for which a predicate is true.
fn count_selected(asked: &Asked<'_>, objects: &[KeyedRow]) -> Result<usize, Cause>
    ensures { outcome (λ n. n) result ≡ counted (model.selected (environment asked.now.env.now) asked.now.name.now
        (expression asked.now.predicate.now) (map keyed_row objects.now)) }
{
    let mut count = 0;
    for object in objects {
        if is_selected(asked, object)? {
            count += 1;
        }
    }
    Ok(count)
}

/// Those of the given objects for which a predicate is true, each tested under a name.
fn selected(alloc: Global, asked: &Asked<'_>, objects: &[KeyedRow]) -> Result<Vec<KeyedRow>, Halt>
    ensures { Meets keyed_rows result (model.selected (environment asked.now.env.now) asked.now.name.now
        (expression asked.now.predicate.now) (map keyed_row objects.now)) }
{
    let mut rows = Vec::new(alloc);
    for object in objects {
        if is_selected(asked, object)? {
            rows.push(object.clone()?).map_err(AllocError::from)?;
        }
    }
    Ok(rows)
}

/// Whether a predicate is true of an object, whose row its name means.
pub(crate) fn is_selected(asked: &Asked<'_>, object: &KeyedRow) -> Result<bool, Cause>
    ensures { outcome (λ b. b) result
        ≡ boolean_value (bound asked.now.name.now (keyed_row object.now) (environment asked.now.env.now))
        (expression asked.now.predicate.now) }
{
    let env = asked.env.bound(asked.name, object.key, &object.row);
    asked.predicate.boolean(&env)
}
