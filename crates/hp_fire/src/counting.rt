//! A view that counts the rows that queries look at.

ghost use Rattle.std.specs.Prelude.{◌≡◌};

use crate::speculate::{Effort, ROW};
use hp_query::{Aggregate, Entry, Look};
use hp_value::{ClassNo, ClassPart, Expr, Key, KeyedRow, ObjectList, Row};
use hp_view::View;
use std::alloc::{AllocError, Global};
use std::sync::Arc;

/// A view that counts the rows that a query looks at.
#[derive(Drop)]
pub(crate) struct Counting<'a> {
    /// The view.
    pub(crate) view: &'a mut View,
    rows: u64,
}

impl<'a> Counting<'a> {
    /// A view with a count of 0.
    pub(crate) fn new(view: &'a mut View) -> Counting<'a>
        ensures same { result.view.ghost_name ≡ view.entry.ghost_name }
        ensures now { result.view.now ≡ view.old }
    {
        Counting { view, rows: 0 }
    }

    /// Adds the cost of the rows for the entries of a condition, by the operators of the longest entry.
    pub(crate) fn add_condition(&self, entries: &[Entry], effort: &Effort) {
        let mut longest = 0u64;
        for entry in entries {
            longest = longest.max(operators_of_entry(entry));
        }
        self.add_rows(longest, effort);
    }

    /// Adds the cost of the rows for one predicate.
    pub(crate) fn add_predicate(&self, predicate: &Expr, effort: &Effort) {
        self.add_rows(operators(predicate), effort);
    }

    /// Adds the cost of the rows for an aggregate.
    pub(crate) fn add_aggregate(&self, aggregate: &Aggregate, effort: &Effort) {
        self.add_rows(operators_of_aggregate(aggregate), effort);
    }

    // Adds the cost of the rows, for each of which this number of operators runs.
    fn add_rows(&self, operators: u64, effort: &Effort) {
        // Most conditions look at no row, and to add takes a locked instruction.
        if self.rows > 0 {
            effort.add(self.rows.saturating_mul(operators.saturating_add(ROW)));
        }
    }

    fn count_rows(&mut self, rows: usize)
        ensures same { self.new.view.ghost_name ≡ self.old.view.ghost_name }
        ensures now { self.new.view.now ≡ self.old.view.now }
    {
        self.rows = self.rows.saturating_add(rows as u64);
    }
}

// The number of operators that run for a row of an entry.
fn operators_of_entry(entry: &Entry) -> u64 {
    match entry {
        Entry::Query(query) | Entry::No(query) => operators(&query.predicate),
        Entry::Let { name: _, aggregate } => operators_of_aggregate(aggregate),
    }
}

// The number of operators that run for a row of an aggregate.
fn operators_of_aggregate(aggregate: &Aggregate) -> u64 {
    match aggregate {
        Aggregate::Count(rows) => operators(&rows.predicate),
        Aggregate::Sum { rows, term }
        | Aggregate::Least { rows, term }
        | Aggregate::Greatest { rows, term } => {
            operators(&rows.predicate).saturating_add(operators(term))
        }
        Aggregate::Next(_) | Aggregate::Single(_) => 0,
    }
}

// The number of operators in an expression.
fn operators(expr: &Expr) -> u64 {
    match expr {
        Expr::Arithmetic(_, a, b) | Expr::Comparison(_, a, b) | Expr::And(a, b) | Expr::Or(a, b) =>
            { operators(a).saturating_add(operators(b)).saturating_add(1) }
        Expr::Negated(a) | Expr::Not(a) => operators(a).saturating_add(1),
        _ => 0,
    }
}

impl Look for Counting<'_> {
    ghost use Rattle.hp_fire.specs.Counted.{AllowsCounted, OnlyCounts, counts_same, counts_then, counts_narrow};
    ghost use Rattle.hp_fire.specs.Counted.{AsksCounted, asks_counted_same, asks_counted_then};
    ghost use Rattle.hp_fire.specs.Counted.{AsksRowCounted, AsksPartCounted, asks_row_counted_same};
    ghost use Rattle.hp_fire.specs.Counted.{AsksCountCounted, AsksGreatestCounted};

    ghost allows = { AllowsCounted };

    ghost goes_on = { OnlyCounts };

    ghost asks = { AsksCounted };

    ghost asks_row = { AsksRowCounted };

    ghost asks_part = { AsksPartCounted };

    ghost asks_count = { AsksCountCounted };

    ghost asks_greatest = { AsksGreatestCounted };

    ghost goes_on_same = { counts_same };

    ghost goes_on_then = { counts_then };

    ghost asks_same = { asks_counted_same };

    ghost asks_then = { asks_counted_then };

    ghost asks_row_same = { asks_row_counted_same };

    ghost narrows = { counts_narrow };

    fn row(&mut self, alloc: Global, class: ClassNo, key: Key) -> Result<Option<Row>, AllocError> {
        self.count_rows(1);
        Look::row(self.view, alloc, class, key)
    }

    fn keys(&mut self, alloc: Global, class: ClassNo) -> Result<Vec<Key>, AllocError> {
        let keys = Look::keys(self.view, alloc, class)?;
        self.count_rows(keys.len());
        Ok(keys)
    }

    fn count(&mut self, alloc: Global, class: ClassNo) -> Result<usize, AllocError> {
        self.count_rows(1);
        Look::count(self.view, alloc, class)
    }

    fn objects(
        &mut self,
        alloc: Global,
        class: ClassNo,
    ) -> Result<Option<Arc<ObjectList>>, AllocError> {
        let objects = Look::objects(self.view, alloc, class)?;
        if let Some(objects) = &objects {
            self.count_rows(objects.rows().len());
        }
        Ok(objects)
    }

    fn part(
        &mut self,
        alloc: Global,
        class: ClassNo,
        part: &ClassPart<'_>,
    ) -> Result<Option<Vec<KeyedRow>>, AllocError> {
        let objects = Look::part(self.view, alloc, class, part)?;
        if let Some(objects) = &objects {
            self.count_rows(objects.len());
        }
        Ok(objects)
    }

    fn greatest_key(&mut self, alloc: Global, class: ClassNo) -> Result<Option<Key>, AllocError> {
        self.count_rows(1);
        Look::greatest_key(self.view, alloc, class)
    }

    fn likely_least(&self, class: ClassNo, low: Option<Key>) -> Option<Key> {
        Look::likely_least(&*self.view, class, low)
    }

    fn likely_greatest(&self, class: ClassNo, high: Option<Key>) -> Option<Key> {
        Look::likely_greatest(&*self.view, class, high)
    }
}
