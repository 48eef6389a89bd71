//! The rows of a class for which a predicate can be true.

ghost use Rattle.std.specs.Prelude.{◌≡◌, ℤ, Some, true, map, string_bytes, IfOk, IfSome};
ghost use Rattle.hp_model.specs.State.{Objects, rows_of};
ghost use Rattle.hp_value.specs.Mapped.{keyed_row, environment, expression};
ghost use Rattle.hp_query.specs.ByKey.{IsFalseElsewhere, key_asked};
ghost use Rattle.hp_query.specs.Candidates.{AreCandidates, IsTrueOfEach};
ghost use Rattle.hp_query.specs.Looks.{ObjectsRise};
ghost use Rattle.hp_query.specs.declared.candidates.Candidates.TheVariants.{One};
ghost use Rattle.hp_query.specs.Mapped.{candidate_rows, are_selected};

use crate::by_key::asked_key;
use crate::collect::objects_of;
use crate::look::Look;
use crate::part::asked_part;
use crate::query::Query;
use hp_value::{ClassNo, Env, Expr, Key, KeyedRow, ObjectList};
use std::alloc::{AllocError, Global};
use std::sync::Arc;

/// A class, and a predicate that is tested on its rows under a name.
#[derive(Clone, Copy)]
pub(crate) struct Asked<'a> {
    /// The name of the row that is tested.
    pub(crate) name: &'a str,
    /// The class.
    pub(crate) class: ClassNo,
    /// The test of each row.
    pub(crate) predicate: &'a Expr,
    /// The environment of the test, without the row.
    pub(crate) env: &'a Env<'a>,
}

impl<'a> Asked<'a> {
    /// What a query asks for.
    pub(crate) fn new(query: &'a Query, env: &'a Env<'a>) -> Asked<'a>
        ensures name { result.name.now ≡ string_bytes query.entry.now.name }
        ensures class { result.class ≡ query.entry.now.class }
        ensures predicate { expression result.predicate.now ≡ expression query.entry.now.predicate.value }
        ensures env { environment result.env.now ≡ environment env.entry.now }
    {
        Asked {
            name: query.name.as_str(),
            class: query.class,
            predicate: &query.predicate,
            env,
        }
    }
}

/// Rows of a class in ascending key order: all but some for which a predicate is false, without a fault.
#[derive(Drop)]
pub(crate) enum Candidates {
    /// The row with the one key that the predicate asks for, if there is such a row.
    One(Option<KeyedRow>),
    /// The rows of the part that the predicate asks for.
    Part(Vec<KeyedRow>),
    /// The rows of the part that the predicate asks for, of each of which it is known to be true.
    Selected(Vec<KeyedRow>),
    /// All rows.
    All(Arc<ObjectList>),
}

impl Candidates {
    /// The rows.
    pub(crate) fn rows(&self) -> &[KeyedRow]
        ensures { map keyed_row result.now ≡ candidate_rows self.now }
    {
        match self {
            Candidates::One(row) => row.as_slice(),
            Candidates::Part(rows) | Candidates::Selected(rows) => rows,
            Candidates::All(objects) => objects.rows(),
        }
    }

    /// Whether the predicate is known to be true of each row.
    pub(crate) fn are_selected(&self) -> bool
        ensures { result ≡ are_selected self.now }
    {
        matches!(self, Candidates::Selected(_))
    }
}

/// The rows for which the predicate can be true. If it begins by asking for one key, or for a part of the class that
/// the look finds, no other rows are read.
///
/// An error means that memory ran out. The look may then allow fewer worlds, and nothing else has changed.
pub(crate) fn find_candidates<L: Look>(
    alloc: Global,
    asked: &Asked<'_>,
    look: &mut L,
) -> Result<Candidates, AllocError>
    ensures goes_on { L.goes_on look.old look.new }
    ensures asks { L.asks asked.now.class look.old look.new }
    ensures asks_row { (key : ℤ)
        → key_asked (environment asked.now.env.now) asked.now.name.now (expression asked.now.predicate.now) ≡ Some key
        → L.asks_row asked.now.class key look.old look.new }
    ensures narrows { (world : Objects) → L.allows look.new world → L.allows look.old world }
    ensures rows { IfOk result (λ found. (world : Objects) → ObjectsRise world → L.allows look.new world
        → AreCandidates (environment asked.now.env.now) asked.now.name.now (expression asked.now.predicate.now)
        (candidate_rows found) (rows_of asked.now.class world)) }
    ensures selected { IfOk result (λ found. are_selected found ≡ true → (world : Objects) → ObjectsRise world
        → L.allows look.new world → IsTrueOfEach (environment asked.now.env.now) asked.now.name.now
        (expression asked.now.predicate.now) (candidate_rows found)) }
{
    if let Some(key) = asked_key(alloc, asked.name, asked.predicate, asked.env)? {
        return Ok(Candidates::One(row_at(alloc, asked, key, look)?));
    }
    if let Some(found) = part_rows(alloc, asked, look)? {
        return Ok(found);
    }
    Ok(Candidates::All(objects_of(alloc, look, asked.class)?))
}

/// The row with a key, where the predicate is false of all other rows.
fn row_at<L: Look>(
    alloc: Global,
    asked: &Asked<'_>,
    key: Key,
    look: &mut L,
) -> Result<Option<KeyedRow>, AllocError>
    requires { IsFalseElsewhere (environment asked.now.env.now) asked.now.name.now
        (expression asked.now.predicate.now) key }
    ensures goes_on { L.goes_on look.old look.new }
    ensures asks { L.asks asked.now.class look.old look.new }
    ensures asks_row { L.asks_row asked.now.class key look.old look.new }
    ensures narrows { (world : Objects) → L.allows look.new world → L.allows look.old world }
    ensures row { IfOk result (λ found. (world : Objects) → ObjectsRise world → L.allows look.new world
        → AreCandidates (environment asked.now.env.now) asked.now.name.now (expression asked.now.predicate.now)
        (candidate_rows (One found)) (rows_of asked.now.class world)) }
{
    match look.row(alloc, asked.class, key)? {
        Some(row) => Ok(Some(KeyedRow { key, row })),
        None => Ok(None),
    }
}

/// The rows of the part of the class outside which the predicate is false. `None` if the predicate asks for no part, or
/// the look doesn't find it.
fn part_rows<L: Look>(
    alloc: Global,
    asked: &Asked<'_>,
    look: &mut L,
) -> Result<Option<Candidates>, AllocError>
    ensures goes_on { L.goes_on look.old look.new }
    ensures asks { L.asks asked.now.class look.old look.new }
    ensures narrows { (world : Objects) → L.allows look.new world → L.allows look.old world }
    ensures rows { IfOk result (λ found. IfSome found (λ rows. (world : Objects) → ObjectsRise world
        → L.allows look.new world
        → AreCandidates (environment asked.now.env.now) asked.now.name.now (expression asked.now.predicate.now)
        (candidate_rows rows) (rows_of asked.now.class world))) }
    ensures selected { IfOk result (λ found. IfSome found (λ rows. are_selected rows ≡ true → (world : Objects)
        → ObjectsRise world → L.allows look.new world → IsTrueOfEach (environment asked.now.env.now)
        asked.now.name.now (expression asked.now.predicate.now) (candidate_rows rows))) }
{
    let Some(compared) = asked_part(alloc, asked.name, asked.predicate, asked.env)? else {
        return Ok(None);
    };
    let Some(part) = compared.class_part() else {
        return Ok(None);
    };
    let Some(rows) = look.part(alloc, asked.class, &part)? else {
        return Ok(None);
    };
    if compared.is_exact() {
        return Ok(Some(Candidates::Selected(rows)));
    }
    Ok(Some(Candidates::Part(rows)))
}
