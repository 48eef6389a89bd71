//! What expressions read of the parts of an occurrence.

ghost use Rattle.std.specs.Prelude.{◌≡◌, map, option_map};
ghost use Rattle.hp_model.specs.Rules.{class_at};
ghost use Rattle.hp_model.specs.Firing.{kind_in};
ghost use Rattle.hp_value.specs.Mapped.{kind, field};
ghost use Rattle.hp_event.specs.Mapped.{pattern};
ghost use Rattle.hp_rule.specs.Libraries as libraries;
ghost use Rattle.hp_analysis.specs.Findings as model;
ghost use Rattle.hp_analysis.specs.Kinded.{sort, explained};
ghost use Rattle.hp_analysis.specs.Declarations as declarations;
ghost use Rattle.hp_analysis.specs.Places.{patterns};
ghost use Rattle.hp_analysis.specs.Readings.{reading};
ghost use Rattle.hp_analysis.specs.Scopes.{library, declared, scope_in};

use crate::kinds::declaration::Declaration;
use crate::kinds::finding::Reason;
use crate::kinds::known::{found_before, look};
use crate::kinds::scope::Scope;
use crate::kinds::sort::Sort;
use hp_event::Pattern;
use hp_rule::Library;
use hp_value::{ClassNo, Field, Kind};

/// What an expression reads of a part.
#[derive(Clone, Copy, Debug)]
pub(crate) enum Reading<'a> {
    /// A field of an object after an operation.
    New(&'a str),
    /// A field of an object before an operation.
    Old(&'a str),
    /// The key of an operation's object.
    Key,
    /// An argument of a signal.
    Argument(u16),
    /// A moment.
    Time,
}

/// The kind of the field of this name.
pub(crate) fn kind_in(fields: &[Field], name: &str) -> Option<Kind>
    ensures { option_map kind result ≡ kind_in (map field fields.now) name.now }
{
    for defined in fields {
        if defined.name.as_str() == name {
            return Some(defined.kind);
        }
    }
    None
}

/// The fields of a class; none if there is no such class.
pub(crate) fn fields_of(of: &Library, class: ClassNo) -> &[Field]
    ensures { map field result.now ≡ (class_at (libraries.library of.now) class).fields }
{
    match of.classes().get(class as usize) {
        Some(class) => &class.fields,
        None => &[],
    }
}

/// The sort of a field of a class.
pub(crate) fn field_sort(of: &Library, class: ClassNo, name: &str) -> Result<Sort, Reason>
    ensures { explained sort result ≡ model.field_sort (libraries.library of.now) class name.now }
{
    match kind_in(fields_of(of, class), name) {
        Some(kind) => Ok(Sort::Only(kind)),
        None => Err(Reason::NoSuchField),
    }
}

/// The sort of a signal's argument.
fn argument_sort(declaration: &Declaration, name: &str, place: u16) -> Result<Sort, Reason>
    ensures { explained sort result
        ≡ model.argument_sort (declarations.declared declaration.now) name.now place }
{
    match declaration.signature(name).get(place as usize) {
        Some(sort) => Ok(*sort),
        None => Err(Reason::NoSuchArgument),
    }
}

/// The sort of what is read of a part that the pattern matches.
pub(crate) fn read_sort(
    of: &Library,
    declaration: &Declaration,
    read: Reading<'_>,
    matching: &Pattern,
) -> Result<Sort, Reason>
    ensures { explained sort result ≡ model.read_sort (libraries.library of.now)
        (declarations.declared declaration.now) (reading read.entry) (pattern matching.now) }
{
    match (read, matching) {
        (Reading::New(name), Pattern::Create(class))
        | (Reading::New(name), Pattern::Update(class))
        | (Reading::Old(name), Pattern::Update(class))
        | (Reading::Old(name), Pattern::Delete(class)) => { field_sort(of, *class, name) }
        (Reading::Key, Pattern::Create(_))
        | (Reading::Key, Pattern::Update(_))
        | (Reading::Key, Pattern::Delete(_))
        | (Reading::Time, Pattern::At(_))
        | (Reading::Time, Pattern::Every { .. }) => Ok(Sort::Only(Kind::Int)),
        (Reading::Argument(place), Pattern::Signal(name)) => {
            argument_sort(declaration, name.as_str(), place)
        }
        _ => Err(Reason::OtherForm),
    }
}

/// What is known of what is read of a part that matches one of the patterns.
pub(crate) fn sort_among(
    of: &Library,
    declaration: &Declaration,
    read: Reading<'_>,
    matching: &[&Pattern],
) -> Result<Sort, Reason>
    ensures { explained sort result ≡ model.sort_among (model.read_sort (libraries.library of.now)
        (declarations.declared declaration.now) (reading read.entry)) (patterns matching.now) }
{
    let [first, others @ ..] = matching else {
        return Err(Reason::NoSuchPart);
    };
    let mut known = read_sort(of, declaration, read, first)?;
    for other in others {
        known = known.or(read_sort(of, declaration, read, other)?);
    }
    Ok(known)
}

/// What is known of what is read of a part of the occurrence, by the part's index.
pub(crate) fn part_sort(scope: &Scope<'_>, part: u16, read: Reading<'_>) -> Result<Sort, Reason>
    ensures { explained sort result ≡ model.part_sort (library scope.now) (declared scope.now)
        (scope_in scope.now).columns part (reading read.entry) }
{
    let Some(columns) = scope.columns else {
        return Err(Reason::NoOccurrence);
    };
    match found_before(scope, part as usize, read) {
        Some(given) => given,
        None => look(scope.base(), columns, part as usize, read),
    }
}
