//! What is known of the parts of an event's occurrences.

ghost use Rattle.std.specs.Prelude.{◌≡◌, ◌++◌, ◌&&◌, IfOk};
ghost use Rattle.hp_model.specs.Events.{pattern_event};
ghost use Rattle.hp_event.specs.Mapped.{pattern};
ghost use Rattle.hp_model.specs.Kinds as model;
ghost use Rattle.hp_detect.specs.Mapped.{event};
ghost use Rattle.hp_analysis.specs.Places.{columns, patterns, place_lists};

use hp_event::Pattern;
use hp_rule::EventExpr;
use std::alloc::{AllocError, Global};

/// For each place of an occurrence's parts, the patterns of which a part there matches one.
#[derive(Debug, Drop)]
pub(crate) struct Columns<'a> {
    pub places: Vec<Vec<&'a Pattern>>,
    /// Whether no occurrence has further parts.
    pub exact: bool,
}

/// The patterns of both lists.
fn joined<'a>(
    alloc: Global,
    one: &[&'a Pattern],
    other: &[&'a Pattern],
) -> Result<Vec<&'a Pattern>, AllocError>
    ensures { IfOk result (λ v. patterns v.items ≡ patterns one.now ++ patterns other.now) }
{
    let mut both = Vec::from_slice(alloc, one)?;
    both.extend_from_slice(other)?;
    Ok(both)
}

/// Place by place the patterns of both lists, as far as both go.
fn merged<'a>(
    alloc: Global,
    first: &[Vec<&'a Pattern>],
    second: &[Vec<&'a Pattern>],
) -> Result<Vec<Vec<&'a Pattern>>, AllocError>
    ensures { IfOk result (λ ps. place_lists ps.items
        ≡ model.merged (place_lists first.now) (place_lists second.now)) }
{
    let mut places = Vec::new(alloc);
    for (i, one) in first.iter().enumerate() {
        let Some(other) = second.get(i) else {
            return Ok(places);
        };
        places.push(joined(alloc, one, other)?)?;
    }
    Ok(places)
}

/// Whether both lists have as many places.
#[tactic(auto, using(crate::proofs::Lengths::length_test))]
fn is_as_long(one: &[Vec<&Pattern>], other: &[Vec<&Pattern>]) -> bool
    ensures { result ≡ model.same_length (place_lists one.now) (place_lists other.now) }
{
    one.len() == other.len()
}

/// Whether no occurrence of one or the other has further parts than both have places.
fn are_exact(first: &Columns<'_>, second: &Columns<'_>) -> bool
    ensures { result ≡ (first.now.exact && (second.now.exact
        && model.same_length (place_lists first.now.places.items) (place_lists second.now.places.items))) }
{
    first.exact && (second.exact && is_as_long(&first.places, &second.places))
}

/// The columns of an event that occurs where one of two does.
fn either<'a>(
    alloc: Global,
    first: &Columns<'a>,
    second: &Columns<'a>,
) -> Result<Columns<'a>, AllocError>
    ensures { IfOk result (λ c. columns c ≡ model.either_columns (columns first.now) (columns second.now)) }
{
    let exact = are_exact(first, second);
    let places = merged(alloc, &first.places, &second.places)?;
    Ok(Columns { places, exact })
}

/// The columns of an event whose occurrences are those of one, each followed by one of the other. Nothing is known of
/// the parts after those of unknown number.
fn followed<'a>(first: Columns<'a>, second: Columns<'a>) -> Result<Columns<'a>, AllocError>
    ensures { IfOk result (λ c. columns c
        ≡ model.followed first.entry.exact (place_lists first.entry.places.items) (columns second.entry)) }
{
    let mut places = first.places;
    if !first.exact {
        return Ok(Columns {
            places,
            exact: false,
        });
    }
    let mut later = second.places;
    places.append(&mut later)?;
    Ok(Columns {
        places,
        exact: second.exact,
    })
}

/// The columns of a primitive event.
fn single<'a>(alloc: Global, only: &'a Pattern) -> Result<Columns<'a>, AllocError>
    ensures { IfOk result (λ c. columns c ≡ model.columns_of (pattern_event (pattern only.entry.now))) }
{
    let place = vec![in alloc; only]?;
    let places = vec![in alloc; place]?;
    Ok(Columns {
        places,
        exact: true,
    })
}

impl<'a> Columns<'a> {
    /// The columns of an event.
    pub(crate) fn of(alloc: Global, expr: &'a EventExpr) -> Result<Columns<'a>, AllocError>
        ensures { IfOk result (λ c. columns c ≡ model.columns_of (event expr.entry.now)) }
    {
        match expr {
            EventExpr::One(pattern) => single(alloc, pattern),
            EventExpr::Or(a, b) => {
                let first = Columns::of(alloc, a)?;
                let second = Columns::of(alloc, b)?;
                either(alloc, &first, &second)
            }
            EventExpr::Seq(a, b) | EventExpr::Closure(a, b) => {
                let first = Columns::of(alloc, a)?;
                let second = Columns::of(alloc, b)?;
                followed(first, second)
            }
        }
    }

    /// The columns of a rule. One that statements may fire may have an occurrence without parts.
    pub(crate) fn of_rule(
        alloc: Global,
        fired: bool,
        expr: &'a EventExpr,
    ) -> Result<Columns<'a>, AllocError>
        ensures { IfOk result (λ c. columns c ≡ model.columns_by fired (event expr.entry.now)) }
    {
        if fired {
            return Ok(Columns {
                places: Vec::new(alloc),
                exact: false,
            });
        }
        Columns::of(alloc, expr)
    }
}
