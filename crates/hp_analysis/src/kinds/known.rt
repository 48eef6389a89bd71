//! What was found of readings of the parts of an occurrence. A part that many patterns may match is looked at once for
//! each reading.

ghost use Rattle.std.specs.Prelude.{◌≡◌, Some, IfOk, IfSome, true};
ghost use Rattle.hp_analysis.specs.Bases as bases;
ghost use Rattle.hp_analysis.specs.Findings as model;
ghost use Rattle.hp_analysis.specs.Kinded.{sort, explained};
ghost use Rattle.hp_analysis.specs.Knowledge.{AreKnown};
ghost use Rattle.hp_analysis.specs.Places.{columns as places};
ghost use Rattle.hp_analysis.specs.Readings.{reading};
ghost use Rattle.hp_analysis.specs.Scopes.{library, declared, scope_in};

use crate::kinds::columns::Columns;
use crate::kinds::finding::Reason;
use crate::kinds::part::{Reading, fields_of, sort_among};
use crate::kinds::scope::{Base, Scope};
use crate::kinds::sort::Sort;
use hp_event::Pattern;
use hp_rule::Library;
use hp_value::ClassNo;
use std::alloc::AllocError;

/// The most patterns of a part that are looked at anew for each reading.
const FEW: usize = 4;

/// The number of arguments that a signal has at most.
const MAX_ARGUMENTS: u16 = 32;

/// A reading of a part of the occurrence.
#[derive(Clone, Copy)]
struct Asked<'a> {
    part: usize,
    read: Reading<'a>,
}

/// What is known of what is read of a part of the occurrence.
#[derive(Clone, Copy, Debug)]
pub(crate) struct Known<'a> {
    pub part: usize,
    pub read: Reading<'a>,
    pub given: Result<Sort, Reason>,
}

/// Adds the readings of the fields of a class.
fn ask_fields<'a>(
    of: &'a Library,
    class: ClassNo,
    part: usize,
    asked: &mut Vec<Asked<'a>>,
) -> Result<(), AllocError> {
    for defined in fields_of(of, class) {
        let (new, old) = (Reading::New(&defined.name), Reading::Old(&defined.name));
        asked.push(Asked { part, read: new })?;
        asked.push(Asked { part, read: old })?;
    }
    Ok(())
}

/// Adds the readings of a part that a pattern of it may have. It refuses all others.
fn ask_part<'a>(
    of: &'a Library,
    part: usize,
    matching: &Pattern,
    asked: &mut Vec<Asked<'a>>,
) -> Result<(), AllocError> {
    for read in [Reading::Key, Reading::Time] {
        asked.push(Asked { part, read })?;
    }
    match matching {
        Pattern::Create(class) | Pattern::Update(class) | Pattern::Delete(class) => {
            ask_fields(of, *class, part, asked)
        }
        Pattern::Signal(_) => {
            for place in 0..MAX_ARGUMENTS {
                let read = Reading::Argument(place);
                asked.push(Asked { part, read })?;
            }
            Ok(())
        }
        Pattern::Commit | Pattern::At(_) | Pattern::Every { .. } => Ok(()),
    }
}

/// The readings of parts with many patterns, in the order of the parts. The first pattern of a part refuses all others.
fn readings<'a>(base: Base<'a>, columns: &Columns<'_>) -> Result<Vec<Asked<'a>>, AllocError> {
    let mut asked = Vec::new(base.alloc);
    for (part, matching) in columns.places.iter().enumerate() {
        if matching.len() > FEW {
            ask_part(base.library, part, matching[0], &mut asked)?;
        }
    }
    Ok(asked)
}

/// What is known of what is read of a part of the occurrence.
pub(crate) fn look(
    base: Base<'_>,
    columns: &Columns<'_>,
    part: usize,
    read: Reading<'_>,
) -> Result<Sort, Reason>
    ensures { explained sort result ≡ model.part_sort (bases.library base.entry)
        (bases.declared base.entry) (Some (places columns.now)) part (reading read.entry) }
{
    match columns.places.get(part) {
        Some(matching) => sort_among(base.library, base.declared, read, matching),
        None => Err(Reason::NoSuchPart),
    }
}

/// What is known of readings of parts with many patterns, in the order of the parts.
pub(crate) fn known_of<'a>(
    base: Base<'a>,
    columns: &Columns<'_>,
) -> Result<Vec<Known<'a>>, AllocError>
    ensures { IfOk result (λ known. AreKnown (bases.library base.entry)
        (bases.declared base.entry) (Some (places columns.now)) known.items) }
{
    let mut known = Vec::new(base.alloc);
    for asked in &readings(base, columns)? {
        let (part, read) = (asked.part, asked.read);
        let given = look(base, columns, part, read);
        known.push(Known { part, read, given })?;
    }
    Ok(known)
}

/// Whether two readings are the same. It is as the definition says only if it answers true.
fn is_same(one: Reading<'_>, other: Reading<'_>) -> bool
    ensures { result ≡ true → reading one.entry ≡ reading other.entry }
{
    match (one, other) {
        (Reading::New(a), Reading::New(b)) | (Reading::Old(a), Reading::Old(b)) => a == b,
        (Reading::Key, Reading::Key) | (Reading::Time, Reading::Time) => true,
        (Reading::Argument(a), Reading::Argument(b)) => a == b,
        _ => false,
    }
}

/// What was found before of a reading of a part.
pub(crate) fn found_before(
    scope: &Scope<'_>,
    part: usize,
    read: Reading<'_>,
) -> Option<Result<Sort, Reason>>
    ensures { IfSome result (λ given. explained sort given ≡ model.part_sort (library scope.now) (declared scope.now)
        (scope_in scope.now).columns part (reading read.entry)) }
{
    let first = scope.known.partition_point(|known| known.part < part);
    for known in &scope.known[first..] {
        if known.part != part {
            return None;
        }
        if is_same(known.read, read) {
            return Some(known.given);
        }
    }
    None
}
