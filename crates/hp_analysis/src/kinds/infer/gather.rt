//! What rules and transactions say of the arguments of signals.

use crate::kinds::declaration::Declaration;
use crate::kinds::expr::row_field_sort;
use crate::kinds::infer::arguments::{Arguments, Flow, Origin, Read};
use crate::kinds::occurred::Occurred;
use crate::kinds::part::{Reading, fields_of, kind_in, read_sort};
use crate::kinds::rows::{Rows, first_class};
use crate::kinds::scope::{Base, Scope};
use crate::kinds::sort::{Sort, kind_of};
use crate::kinds::sorts::Sorts;
use hp_event::Pattern;
use hp_query::{Aggregate, Entry, Query};
use hp_rule::{Assignment, EventExpr, Library, Rule, Stmt, Unit};
use hp_value::{ClassNo, Expr, Field, Kind};
use std::alloc::{AllocError, Global};
use std::collections::BTreeMap;

/// The most fields of a class, and the most arguments of a signal.
const MOST: usize = 32;

/// What was gathered so far.
#[derive(Debug, Drop)]
pub(crate) struct Gathering {
    alloc: Global,
    pub arguments: Arguments,
    // The values in scope, the innermost last.
    values: Vec<NamedOrigin>,
    // What the rule was seen to read of its parts, by `slot`.
    reads: BTreeMap<usize, Option<Origin>>,
}

/// Where a value that has a name comes from, as far as it is known.
#[derive(Debug, Drop)]
struct NamedOrigin {
    name: String,
    origin: Option<Origin>,
}

/// The origin of a value of this sort, if its kind is known.
fn of_sort<E: Drop>(sort: Result<Sort, E>) -> Option<Origin> {
    match sort {
        Ok(Sort::Only(kind)) => Some(Origin::Known(kind)),
        _ => None,
    }
}

/// The index of the field of this name.
fn field_index(fields: &[Field], name: &str) -> Option<usize> {
    fields
        .iter()
        .position(|defined| defined.name.as_str() == name)
}

/// A number for what is read of a part that the pattern matches; `None` if the pattern has no such value.
fn slot_in(of: &Library, what: Reading<'_>, matching: &Pattern) -> Option<usize> {
    match (what, matching) {
        (Reading::New(name), Pattern::Create(class))
        | (Reading::New(name), Pattern::Update(class)) => field_index(fields_of(of, *class), name),
        (Reading::Old(name), Pattern::Update(class))
        | (Reading::Old(name), Pattern::Delete(class)) => {
            field_index(fields_of(of, *class), name)?.checked_add(MOST)
        }
        (Reading::Argument(place), Pattern::Signal(_)) if (place as usize) < MOST => {
            Some(place as usize)
        }
        _ => None,
    }
}

/// A number for what is read of a part, by the first pattern that the part may match.
fn slot(of: &Library, part: u16, what: Reading<'_>, matching: &[&Pattern]) -> Option<usize> {
    let inside = slot_in(of, what, matching.first()?)?;
    (part as usize).checked_mul(2 * MOST)?.checked_add(inside)
}

impl Gathering {
    /// What a library and the units of its script say of the signals that aren't given.
    pub(crate) fn of(
        alloc: Global,
        library: &Library,
        units: &[Unit],
        given: &Declaration,
    ) -> Result<Gathering, AllocError> {
        let mut gathering = Gathering {
            alloc,
            arguments: Arguments::new(alloc),
            values: Vec::new(alloc),
            reads: BTreeMap::new(alloc),
        };
        for rule in library.rules() {
            gathering.add_signals(given, &rule.event)?;
        }
        for rule in library.rules() {
            gathering.add_rule(library, given, rule)?;
        }
        for begun in units {
            gathering.add_unit(library, given, begun)?;
        }
        Ok(gathering)
    }

    /// Adds the signals of an event that aren't given.
    fn add_signals(&mut self, given: &Declaration, expr: &EventExpr) -> Result<(), AllocError> {
        match expr {
            EventExpr::One(Pattern::Signal(name)) => {
                if given.is_declared(name) {
                    return Ok(());
                }
                self.arguments.add_signal(name)
            }
            EventExpr::One(_) => Ok(()),
            EventExpr::Or(a, b) | EventExpr::Seq(a, b) | EventExpr::Closure(a, b) => {
                self.add_signals(given, a)?;
                self.add_signals(given, b)
            }
        }
    }

    fn add_rule(
        &mut self,
        library: &Library,
        given: &Declaration,
        rule: &Rule,
    ) -> Result<(), AllocError> {
        let base = Base {
            alloc: self.alloc,
            library,
            declared: given,
        };
        let occurred = Occurred::unseen(base, &rule.event)?;
        self.add_parts(&occurred, rule)
    }

    fn add_parts(&mut self, occurred: &Occurred<'_>, rule: &Rule) -> Result<(), AllocError> {
        self.reads = BTreeMap::new(self.alloc);
        self.values.truncate(0);
        for (i, entry) in rule.condition.iter().enumerate() {
            self.add_next(occurred, &rule.condition[..i], entry)?;
        }
        let scope = occurred.asked(&rule.condition, &[]);
        self.add_body(&rule.action, &scope)?;
        self.values.truncate(0);
        Ok(())
    }

    fn add_next(
        &mut self,
        occurred: &Occurred<'_>,
        before: &[Entry],
        next: &Entry,
    ) -> Result<(), AllocError> {
        let scope = occurred.asked(before, &[]);
        self.add_entry(&scope, next)
    }

    fn add_entry(&mut self, scope: &Scope<'_>, entry: &Entry) -> Result<(), AllocError> {
        match entry {
            Entry::Query(asked) | Entry::No(asked) => self.add_test(scope, asked),
            Entry::Let { name, aggregate } => self.add_value(scope, name, aggregate),
        }
    }

    /// Notes that a query's predicate has to be a boolean.
    fn add_test(&mut self, scope: &Scope<'_>, asked: &Query) -> Result<(), AllocError> {
        let inner = scope.bound(asked.name.as_str(), asked.class);
        self.want(&inner, Kind::Bool, &asked.predicate)
    }

    /// Adds a value to those in scope.
    fn add_value(
        &mut self,
        scope: &Scope<'_>,
        name: &String,
        aggregate: &Aggregate,
    ) -> Result<(), AllocError> {
        let origin = self.aggregate_origin(scope, aggregate)?;
        let name = name.clone()?;
        self.values.push(NamedOrigin { name, origin })?;
        Ok(())
    }

    /// Where the value of an aggregate comes from, as far as it is known.
    fn aggregate_origin(
        &mut self,
        scope: &Scope<'_>,
        aggregate: &Aggregate,
    ) -> Result<Option<Origin>, AllocError> {
        match aggregate {
            Aggregate::Count(rows) => {
                self.add_test(scope, rows)?;
                Ok(Some(Origin::Known(Kind::Int)))
            }
            Aggregate::Sum { rows, term } => {
                self.add_test(scope, rows)?;
                let inner = scope.bound(rows.name.as_str(), rows.class);
                self.want(&inner, Kind::Int, term)?;
                Ok(Some(Origin::Known(Kind::Int)))
            }
            Aggregate::Least { rows, term } | Aggregate::Greatest { rows, term } => {
                self.add_test(scope, rows)?;
                let inner = scope.bound(rows.name.as_str(), rows.class);
                let origin = self.origin_of(&inner, term)?;
                self.arguments.note_alike(origin, None);
                Ok(origin)
            }
            Aggregate::Next(_) => Ok(Some(Origin::Known(Kind::Int))),
            Aggregate::Single(single) => self.origin_of(scope, single),
        }
    }

    fn add_unit(
        &mut self,
        library: &Library,
        given: &Declaration,
        begun: &Unit,
    ) -> Result<(), AllocError> {
        let scope = Scope {
            alloc: self.alloc,
            library,
            declared: given,
            columns: None,
            known: &[],
            rows: Rows::Entries(&[]),
            values: Sorts::Found(&[]),
            condition: &[],
        };
        match begun {
            Unit::Transaction { body, .. } => self.add_body(body.statements(), &scope),
            Unit::Moment(_) => Ok(()),
        }
    }

    #[cycle(gather)]
    fn add_body(&mut self, body: &[Stmt], scope: &Scope<'_>) -> Result<(), AllocError> {
        for s in body {
            self.add_statement(s, scope)?;
        }
        Ok(())
    }

    #[cycle(gather)]
    fn add_statement(&mut self, s: &Stmt, scope: &Scope<'_>) -> Result<(), AllocError> {
        self.add_own(s, scope)?;
        match s {
            Stmt::If {
                then_body,
                else_body,
                ..
            } => {
                self.add_body(then_body, scope)?;
                self.add_body(else_body, scope)
            }
            Stmt::Each {
                variable,
                class,
                body,
                ..
            }
            | Stmt::With {
                variable,
                class,
                body,
                ..
            } => self.add_body(body, &(&*scope).bound(variable, *class)),
            Stmt::For { query, body } => {
                let class = first_class(scope.condition, query).unwrap_or(0);
                self.add_body(body, &(&*scope).bound(query, class))
            }
            Stmt::Let {
                name,
                aggregate,
                body,
            } => {
                self.add_value(scope, name, aggregate)?;
                self.add_body(body, scope)?;
                self.values.pop();
                Ok(())
            }
            Stmt::Sub { body, otherwise } => {
                self.add_body(body, scope)?;
                self.add_body(otherwise, scope)
            }
            _ => Ok(()),
        }
    }

    /// What a statement itself evaluates.
    fn add_own(&mut self, s: &Stmt, scope: &Scope<'_>) -> Result<(), AllocError> {
        match s {
            Stmt::Create { class, key, pairs } | Stmt::Update { class, key, pairs } => {
                self.want(scope, Kind::Int, key)?;
                self.add_pairs(scope, *class, pairs)
            }
            Stmt::Delete { key, .. } | Stmt::With { key, .. } => self.want(scope, Kind::Int, key),
            Stmt::Signal { name, arguments } => self.add_signal(scope, name, arguments),
            Stmt::Emit(value) | Stmt::Veto(Some(value)) => {
                self.origin_of(scope, value)?;
                Ok(())
            }
            Stmt::If { condition, .. } => self.want(scope, Kind::Bool, condition),
            Stmt::Each {
                variable,
                class,
                predicate,
                ..
            } => {
                let inner = (&*scope).bound(variable, *class);
                self.want(&inner, Kind::Bool, predicate)
            }
            _ => Ok(()),
        }
    }

    fn add_pairs(
        &mut self,
        scope: &Scope<'_>,
        class: ClassNo,
        pairs: &[Assignment],
    ) -> Result<(), AllocError> {
        let fields = fields_of(scope.library, class);
        for pair in pairs {
            if let Some(kind) = kind_in(fields, pair.field.as_str()) {
                self.want(scope, kind, &pair.value)?;
            }
        }
        Ok(())
    }

    /// Notes what a statement gives a signal.
    fn add_signal(
        &mut self,
        scope: &Scope<'_>,
        name: &str,
        given: &[Expr],
    ) -> Result<(), AllocError> {
        for (place, argument) in given.iter().enumerate() {
            let origin = self.origin_of(scope, argument)?;
            if let Some(Sort::Only(kind)) = scope.declared.signature(name).get(place) {
                self.arguments.want_of(origin, *kind);
            }
            if let (Some(from), Some(into)) = (origin, self.arguments.number(name, place)) {
                self.arguments.flows.push(Flow { from, into })?;
            }
        }
        Ok(())
    }

    /// Notes that an expression has to have this kind.
    #[cycle(origins)]
    fn want(&mut self, scope: &Scope<'_>, kind: Kind, expr: &Expr) -> Result<(), AllocError> {
        let origin = self.origin_of(scope, expr)?;
        self.arguments.want_of(origin, kind);
        Ok(())
    }

    /// Notes that two expressions have to have this kind, which their operator also gives.
    #[cycle(origins)]
    fn want_both(
        &mut self,
        scope: &Scope<'_>,
        kind: Kind,
        left: &Expr,
        right: &Expr,
    ) -> Result<Option<Origin>, AllocError> {
        self.want(scope, kind, left)?;
        self.want(scope, kind, right)?;
        Ok(Some(Origin::Known(kind)))
    }

    /// Notes that two expressions have to have one kind.
    #[cycle(origins)]
    fn want_alike(
        &mut self,
        scope: &Scope<'_>,
        left: &Expr,
        right: &Expr,
    ) -> Result<Option<Origin>, AllocError> {
        let one = self.origin_of(scope, left)?;
        let other = self.origin_of(scope, right)?;
        self.arguments.note_alike(one, other);
        Ok(Some(Origin::Known(Kind::Bool)))
    }

    /// Where the value of an expression comes from, as far as it is known.
    #[cycle(origins)]
    fn origin_of(&mut self, scope: &Scope<'_>, expr: &Expr) -> Result<Option<Origin>, AllocError> {
        match expr {
            Expr::Constant(constant) => Ok(Some(Origin::Known(kind_of(constant.value())))),
            Expr::Arithmetic(_, a, b) => self.want_both(scope, Kind::Int, a, b),
            Expr::And(a, b) | Expr::Or(a, b) => self.want_both(scope, Kind::Bool, a, b),
            Expr::Comparison(_, a, b) => self.want_alike(scope, a, b),
            Expr::Negated(a) => {
                self.want(scope, Kind::Int, a)?;
                Ok(Some(Origin::Known(Kind::Int)))
            }
            Expr::Not(a) => {
                self.want(scope, Kind::Bool, a)?;
                Ok(Some(Origin::Known(Kind::Bool)))
            }
            Expr::FieldOf { variable, field } => {
                Ok(of_sort(row_field_sort(scope, variable, field)))
            }
            Expr::NewField { part, field } => self.read(scope, *part, Reading::New(field)),
            Expr::OldField { part, field } => self.read(scope, *part, Reading::Old(field)),
            Expr::Argument { part, place } => self.read(scope, *part, Reading::Argument(*place)),
            Expr::ValueOf { name } => Ok(self.value_origin(name)),
            Expr::KeyOf { .. }
            | Expr::KeyIn { .. }
            | Expr::TimeOf { .. }
            | Expr::Count
            | Expr::Now => Ok(Some(Origin::Known(Kind::Int))),
        }
    }

    /// Where the value of a name comes from.
    fn value_origin(&self, name: &str) -> Option<Origin> {
        let mut origin = None;
        for named in &self.values {
            if named.name.as_str() == name {
                origin = named.origin;
            }
        }
        origin
    }

    /// Where what is read of a part comes from, if each pattern that the part may match has it.
    fn read(
        &mut self,
        scope: &Scope<'_>,
        part: u16,
        what: Reading<'_>,
    ) -> Result<Option<Origin>, AllocError> {
        let Some(columns) = scope.columns else {
            return Ok(None);
        };
        let Some(matching) = columns.places.get(part as usize) else {
            return Ok(None);
        };
        let Some(slot) = slot(scope.library, part, what, matching) else {
            return Ok(None);
        };
        if let Some(before) = self.reads.get(&slot) {
            return Ok(*before);
        }
        let origin = self.read_among(scope, what, matching)?;
        self.reads.insert(slot, origin)?;
        Ok(origin)
    }

    /// Where what is read of a part comes from, if each of these patterns has it. Arguments count as used.
    fn read_among(
        &mut self,
        scope: &Scope<'_>,
        what: Reading<'_>,
        matching: &[&Pattern],
    ) -> Result<Option<Origin>, AllocError> {
        let mut read = Read::new(self.alloc);
        for pattern in matching {
            if !self.is_added(scope, what, pattern, &mut read)? {
                return Ok(None);
            }
        }
        Ok(Some(Origin::Read(self.arguments.add_read(read)?)))
    }

    /// Adds what is read of a part that matches a pattern, if the pattern has it. Says whether it has.
    fn is_added(
        &self,
        scope: &Scope<'_>,
        what: Reading<'_>,
        matching: &Pattern,
        read: &mut Read,
    ) -> Result<bool, AllocError> {
        if let (Reading::Argument(place), Pattern::Signal(name)) = (what, matching) {
            if let Some(number) = self.arguments.number(name.as_str(), place as usize) {
                read.arguments.push(number)?;
                return Ok(true);
            }
        }
        match read_sort(scope.library, scope.declared, what, matching) {
            Ok(Sort::Only(kind)) => {
                read.add_field(kind);
                Ok(true)
            }
            _ => Ok(false),
        }
    }
}
