//! Entries of conditions, and what a satisfied condition found.

ghost use Rattle.std.specs.Prelude.{◌≡◌, [], ◌∷◌, string_bytes, OnOk};
ghost use Rattle.hp_model.specs.Rules.{query_entry, no_entry, let_entry};
ghost use Rattle.hp_model.specs.State.{Objects};
ghost use Rattle.hp_model.specs.Conditions as model;
ghost use Rattle.hp_value.specs.Mapped.{environment};
ghost use Rattle.hp_query.specs.Findings.{IsVerdict, joined};
ghost use Rattle.hp_query.specs.Looks.{ObjectsRise, AsksEach, entry_classes, aggregate_classes};
ghost use Rattle.hp_query.specs.Mapped as mapped;

use crate::aggregate::{Aggregate, aggregated};
use crate::look::Look;
use crate::query::{Query, answer, count_answer};
use hp_value::{Answer, Env, Halt, NamedValue};
use std::alloc::{AllocError, Global};

/// An entry of a rule's condition. HiPAC's conditions are lists of queries; the other two are this project's own.
#[derive(Debug, Drop)]
pub enum Entry {
    /// A query whose answer must not be empty. Later entries may name its first row.
    Query(Query),
    /// A query whose answer must be empty. Its name is known in its predicate alone.
    No(Query),
    /// A value with a name, which later entries and the action may use. It must have a value: a condition is
    /// unsatisfied by the least or the greatest of no row.
    Let {
        /// The value's name.
        name: String,
        /// What is computed.
        aggregate: Aggregate,
    },
}

impl PartialEq for Entry {
    ghost use Rattle.std.specs.Ordering.{on};
    ghost use Rattle.std.specs.Cmp.{on_equiv, partial_equiv_from_equiv};
    ghost use Rattle.hp_query.specs.Mapped.{entry};
    ghost use Rattle.hp_query.specs.Same.{entry_same, entry_equiv};

    ghost eq = { on entry entry_same };

    ghost laws = { partial_equiv_from_equiv (on_equiv entry entry_equiv) };

    fn eq(&self, other: &Entry) -> bool {
        match (self, other) {
            (Entry::Query(q), Entry::Query(r)) | (Entry::No(q), Entry::No(r)) => q == r,
            (
                Entry::Let {
                    name: x,
                    aggregate: a,
                },
                Entry::Let {
                    name: y,
                    aggregate: b,
                },
            ) => x == y && a == b,
            _ => false,
        }
    }
}

impl Eq for Entry {
    ghost use Rattle.std.specs.Cmp.{on_equiv};
    ghost use Rattle.hp_query.specs.Mapped.{entry};
    ghost use Rattle.hp_query.specs.Same.{entry_equiv};

    ghost laws = { on_equiv entry entry_equiv };
}

/// What a satisfied condition found. HiPAC passes it on to the action, which has it as it was found, however late it
/// runs.
#[derive(Debug, Drop)]
pub struct Findings {
    /// The answers of the queries, in their order.
    pub answers: Vec<Answer>,
    /// The values of the `let`s, in their order.
    pub values: Vec<NamedValue>,
}

impl PartialEq for Findings {
    ghost use Rattle.std.specs.Ordering.{on};
    ghost use Rattle.std.specs.Cmp.{on_equiv, partial_equiv_from_equiv};
    ghost use Rattle.hp_query.specs.Mapped.{findings};
    ghost use Rattle.hp_query.specs.Same.{findings_same, findings_equiv};

    ghost eq = { on findings findings_same };

    ghost laws = { partial_equiv_from_equiv (on_equiv findings findings_equiv) };

    fn eq(&self, other: &Findings) -> bool {
        self.answers == other.answers && self.values == other.values
    }
}

impl Eq for Findings {
    ghost use Rattle.std.specs.Cmp.{on_equiv};
    ghost use Rattle.hp_query.specs.Mapped.{findings};
    ghost use Rattle.hp_query.specs.Same.{findings_equiv};

    ghost laws = { on_equiv findings findings_equiv };
}

/// What one entry finds.
#[derive(Drop)]
pub(crate) enum Finding {
    /// The answer of a query.
    Answer(Answer),
    /// Nothing: an answer is empty, as it must be.
    Nothing,
    /// The value of a `let`.
    Value(NamedValue),
}

impl Findings {
    /// Nothing found yet.
    pub(crate) fn new(alloc: Global) -> Findings
        ensures { mapped.findings result ≡ model.no_findings }
    {
        Findings {
            answers: Vec::new(alloc),
            values: Vec::new(alloc),
        }
    }

    /// Adds what one more entry found.
    pub(crate) fn keep(&mut self, finding: Finding) -> Result<(), AllocError>
        ensures { OnOk result
            (mapped.findings self.new ≡ joined (mapped.findings self.old) (mapped.finding finding)) }
    {
        match finding {
            Finding::Answer(answer) => self.answers.push(answer)?,
            Finding::Value(value) => self.values.push(value)?,
            Finding::Nothing => {}
        }
        Ok(())
    }
}

impl Entry {
    /// What the entry finds in an environment; `None` if it isn't satisfied.
    ///
    /// The errors are those of [`answer`] and [`aggregated`].
    pub(crate) fn found<L: Look>(
        &self,
        alloc: Global,
        env: &Env,
        look: &mut L,
    ) -> Result<Option<Finding>, Halt>
        ensures goes_on { L.goes_on look.old look.new }
        ensures asks { AsksEach L.asks (entry_classes (mapped.entry self.now)) look.old look.new }
        ensures narrows { (world : Objects) → L.allows look.new world → L.allows look.old world }
        ensures found { (world : Objects) → ObjectsRise world → L.allows look.new world
            → IsVerdict result (model.verdict world (environment env.now) (mapped.entry self.now ∷ [])) }
    {
        match self {
            Entry::Query(query) => answer_found(alloc, query, env, look),
            Entry::No(query) => none_found(alloc, query, env, look),
            Entry::Let { name, aggregate } => value_found(alloc, name, aggregate, env, look),
        }
    }
}

// The answer of a query, unless it is empty.
fn answer_found<L: Look>(
    alloc: Global,
    query: &Query,
    env: &Env,
    look: &mut L,
) -> Result<Option<Finding>, Halt>
    ensures goes_on { L.goes_on look.old look.new }
    ensures asks { L.asks query.now.class look.old look.new }
    ensures narrows { (world : Objects) → L.allows look.new world → L.allows look.old world }
    ensures found { (world : Objects) → ObjectsRise world → L.allows look.new world
        → IsVerdict result (model.verdict world (environment env.now) (query_entry (mapped.query query.now) ∷ [])) }
{
    let rows = answer(alloc, query, env, look)?;
    if rows.is_empty() {
        return Ok(None);
    }
    Ok(Some(Finding::Answer(Answer {
        name: query.name.clone()?,
        rows,
    })))
}

// Nothing, if the answer of a query is empty.
fn none_found<L: Look>(
    alloc: Global,
    query: &Query,
    env: &Env,
    look: &mut L,
) -> Result<Option<Finding>, Halt>
    ensures goes_on { L.goes_on look.old look.new }
    ensures asks { L.asks query.now.class look.old look.new }
    ensures narrows { (world : Objects) → L.allows look.new world → L.allows look.old world }
    ensures found { (world : Objects) → ObjectsRise world → L.allows look.new world
        → IsVerdict result (model.verdict world (environment env.now) (no_entry (mapped.query query.now) ∷ [])) }
{
    if count_answer(alloc, query, env, look)? == 0 {
        return Ok(Some(Finding::Nothing));
    }
    Ok(None)
}

// The value of an aggregate under a name, if it has one.
fn value_found<L: Look>(
    alloc: Global,
    name: &String,
    aggregate: &Aggregate,
    env: &Env,
    look: &mut L,
) -> Result<Option<Finding>, Halt>
    ensures goes_on { L.goes_on look.old look.new }
    ensures asks { AsksEach L.asks (aggregate_classes (mapped.aggregate aggregate.now)) look.old look.new }
    ensures narrows { (world : Objects) → L.allows look.new world → L.allows look.old world }
    ensures found { (world : Objects) → ObjectsRise world → L.allows look.new world
        → IsVerdict result (model.verdict world (environment env.now)
        (let_entry (string_bytes name.now) (mapped.aggregate aggregate.now) ∷ [])) }
{
    let Some(value) = aggregated(alloc, aggregate, env, look)? else {
        return Ok(None);
    };
    Ok(Some(Finding::Value(NamedValue {
        name: name.clone()?,
        value,
    })))
}
