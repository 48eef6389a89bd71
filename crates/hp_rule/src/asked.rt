//! The fields that the queries and the aggregates of rules ask for.

use crate::rule::Rule;
use crate::stmt::Stmt;
use hp_query::{Aggregate, Entry, Query, asked_field};
use hp_value::ClassNo;
use std::alloc::{AllocError, Global};

/// A field of a class by which a query or an aggregate finds rows.
#[derive(Debug, PartialEq, Eq, Drop)]
pub struct AskedField {
    /// The class.
    pub class: ClassNo,
    /// The field's name.
    pub field: String,
}

/// The fields that the conditions and the actions of these rules ask for, without duplicates.
pub(crate) fn asked_fields(alloc: Global, rules: &[Rule]) -> Result<Vec<AskedField>, AllocError> {
    let mut asked = Vec::new(alloc);
    for rule in rules {
        note_condition(alloc, &rule.condition, &mut asked)?;
        note_body(alloc, &rule.action, &mut asked)?;
    }
    Ok(asked)
}

// Adds the fields that the entries of a condition ask for.
fn note_condition(
    alloc: Global,
    entries: &[Entry],
    asked: &mut Vec<AskedField>,
) -> Result<(), AllocError> {
    for entry in entries {
        match entry {
            Entry::Query(query) | Entry::No(query) => note_query(alloc, query, asked)?,
            Entry::Let { aggregate, .. } => note_aggregate(alloc, aggregate, asked)?,
        }
    }
    Ok(())
}

// Adds the field that an aggregate over rows asks for.
fn note_aggregate(
    alloc: Global,
    aggregate: &Aggregate,
    asked: &mut Vec<AskedField>,
) -> Result<(), AllocError> {
    match aggregate {
        Aggregate::Count(rows)
        | Aggregate::Sum { rows, .. }
        | Aggregate::Least { rows, .. }
        | Aggregate::Greatest { rows, .. } => note_query(alloc, rows, asked),
        Aggregate::Next(_) | Aggregate::Single(_) => Ok(()),
    }
}

// Adds the field that a query asks for.
fn note_query(alloc: Global, query: &Query, asked: &mut Vec<AskedField>) -> Result<(), AllocError> {
    match query.asked_field() {
        Some(field) => note(alloc, query.class, field, asked),
        None => Ok(()),
    }
}

// Adds the fields that the statements of a body ask for.
#[cycle(statement)]
fn note_body(alloc: Global, body: &[Stmt], asked: &mut Vec<AskedField>) -> Result<(), AllocError> {
    for statement in body {
        note_statement(alloc, statement, asked)?;
    }
    Ok(())
}

// Adds the fields that a statement and the statements in it ask for.
#[cycle(statement)]
fn note_statement(
    alloc: Global,
    statement: &Stmt,
    asked: &mut Vec<AskedField>,
) -> Result<(), AllocError> {
    match statement {
        Stmt::Each {
            variable,
            class,
            predicate,
            body,
        } => {
            if let Some(field) = asked_field(variable.as_str(), predicate) {
                note(alloc, *class, field, asked)?;
            }
            note_body(alloc, body, asked)
        }
        Stmt::For { body, .. } | Stmt::With { body, .. } => note_body(alloc, body, asked),
        Stmt::Let {
            aggregate,
            body,
            ..
        } => {
            note_aggregate(alloc, aggregate, asked)?;
            note_body(alloc, body, asked)
        }
        Stmt::If {
            then_body: first,
            else_body: second,
            ..
        }
        | Stmt::Sub {
            body: first,
            otherwise: second,
        } => {
            note_body(alloc, first, asked)?;
            note_body(alloc, second, asked)
        }
        _ => Ok(()),
    }
}

// Adds a field of a class, if it isn't in the list.
fn note(
    alloc: Global,
    class: ClassNo,
    field: &str,
    asked: &mut Vec<AskedField>,
) -> Result<(), AllocError> {
    for known in asked.iter() {
        if known.class == class && known.field.as_str() == field {
            return Ok(());
        }
    }
    let field = String::from_str(alloc, field)?;
    asked.push(AskedField { class, field })?;
    Ok(())
}
