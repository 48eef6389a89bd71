//! Conditions and their entries.

ghost use Rattle.std.specs.Prelude.{map};
ghost use Rattle.hp_query.specs.Mapped.{query, aggregate, entry};
ghost use Rattle.hp_model.specs.Checked.{query_check, let_entry_check, entry_check, condition_check};
ghost use Rattle.hp_model.specs.Refusals.{item_at};
ghost use Rattle.hp_rule.specs.Faults.{Passes};
ghost use Rattle.hp_rule.specs.Named.{names_in};
ghost use Rattle.hp_rule.specs.Places.{steps};

use crate::check::aggregate::check_aggregate;
use crate::check::name::check_unless;
use crate::check::query::{QueryPlaces, check_query};
use crate::fault::CheckError;
use crate::known_names::KnownNames;
use crate::place::Place;
use hp_query::{Aggregate, Entry};
use std::alloc::Global;

#[tactic(auto, unfolding(hp_model::specs::Checked::let_entry_check))]
fn check_let(
    alloc: Global,
    place: &Place<'_>,
    classes: usize,
    names: &KnownNames<'_>,
    name: &str,
    computed: &Aggregate,
) -> Result<(), CheckError>
    ensures { Passes result
        (let_entry_check classes (names_in names.now) (steps place.now) name.now (aggregate computed.now)) }
{
    check_unless(alloc, &place.item(1), name, names.is_taken(name))?;
    check_aggregate(alloc, &place.item(2), classes, names, computed)
}

/// Checks an entry, which may use the names of the entries before it.
fn check_entry(
    alloc: Global,
    place: &Place<'_>,
    classes: usize,
    before: &[Entry],
    checked: &Entry,
) -> Result<(), CheckError>
    ensures { Passes result (entry_check classes (map entry before.now) (steps place.now) (entry checked.now)) }
{
    let names = KnownNames::Entries(before);
    match checked {
        Entry::Query(asked) => {
            let places = QueryPlaces {
                name: place.item(0),
                class: place.item(1),
                predicate: place.item(2),
            };
            check_query(alloc, &places, classes, &names, asked)
        }
        Entry::No(asked) => {
            let places = QueryPlaces {
                name: place.item(1),
                class: place.item(2),
                predicate: place.item(3),
            };
            check_query(alloc, &places, classes, &names, asked)
        }
        Entry::Let {
            name,
            aggregate: computed,
        } => check_let(alloc, place, classes, &names, name.as_str(), computed),
    }
}

/// Checks a condition.
pub(crate) fn check_condition(
    alloc: Global,
    place: &Place<'_>,
    classes: usize,
    entries: &[Entry],
) -> Result<(), CheckError>
    ensures { Passes result (condition_check classes (steps place.now) (map entry entries.now)) }
{
    for (i, entry) in entries.iter().enumerate() {
        check_entry(alloc, &place.item(i), classes, &entries[..i], entry)?;
    }
    Ok(())
}
