//! Lists of classes that all workers of a wave share.

ghost use Rattle.std.specs.Prelude.{◌≡◌};

use hp_query::{Entry, Query};
use hp_rule::{Library, Task};
use hp_store::Snapshot;
use hp_value::ClassNo;
use hp_view::View;
use std::alloc::{AllocError, Global};

/// Lists the classes that the conditions of these tasks ask for, as they stand beneath a view's own writes. Workers
/// share the lists, and the owner compares its own with what workers saw. Where the writes name an object of a class,
/// the snapshot that is frozen for the workers makes its list of this one and the writes.
pub(crate) fn share_beneath(
    alloc: Global,
    lib: &Library,
    tasks: &[Task],
    view: &mut View,
) -> Result<(), AllocError>
    ensures { view.new ≡ view.old }
{
    for class in asked_classes(alloc, lib, tasks)? {
        view.keep_objects(alloc, class)?;
    }
    Ok(())
}

/// A view's cells as a snapshot with the lists of these classes. Workers that start from it share the lists.
pub(crate) fn frozen(
    alloc: Global,
    lib: &Library,
    tasks: &[Task],
    view: &View,
) -> Result<Snapshot, AllocError> {
    let classes = asked_classes(alloc, lib, tasks)?;
    let mut snapshot = view.freeze(alloc)?;
    keep_lists(alloc, &classes, &mut snapshot)?;
    Ok(snapshot)
}

// Lists these classes in a snapshot.
fn keep_lists(
    alloc: Global,
    classes: &[ClassNo],
    snapshot: &mut Snapshot,
) -> Result<(), AllocError> {
    for class in classes {
        snapshot.keep_objects(alloc, *class)?;
    }
    Ok(())
}

// The classes that the conditions of these tasks ask for, without duplicates.
fn asked_classes(alloc: Global, lib: &Library, tasks: &[Task]) -> Result<Vec<ClassNo>, AllocError> {
    let mut classes = Vec::new(alloc);
    for task in tasks {
        if let Some(rule) = lib.rule(task.rule) {
            note_asked(&rule.condition, &mut classes)?;
        }
    }
    Ok(classes)
}

// Adds the classes of a condition whose objects are all looked at, unless they are in the list.
fn note_asked(condition: &[Entry], classes: &mut Vec<ClassNo>) -> Result<(), AllocError> {
    for entry in condition {
        let Some(query) = rows_of(entry) else {
            continue;
        };
        if scans(query) && !classes.contains(&query.class) {
            classes.push(query.class)?;
        }
    }
    Ok(())
}

// Whether a query looks at all objects of its class: it asks neither for one key nor for values of a field.
fn scans(query: &Query) -> bool {
    !query.asks_key() && query.asked_field().is_none()
}

// The query whose rows an entry looks at one by one, if there is one.
fn rows_of(entry: &Entry) -> Option<&Query> {
    match entry {
        Entry::Query(query) | Entry::No(query) => Some(query),
        Entry::Let { name: _, aggregate } => aggregate.scanned(),
    }
}
