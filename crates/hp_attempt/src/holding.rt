//! Whether what was read still holds.

ghost use Rattle.std.specs.Prelude.{◌≡◌, ◌↔◌, IsTrue, IfSome, option_map, is_none};
ghost use Rattle.hp_model.specs.Cells.{Holds, ReadHolds};
ghost use Rattle.hp_store.specs.Mapped.{cell_value};
ghost use Rattle.hp_view.specs.Mapped.{read, class_read};
ghost use Rattle.hp_view.specs.Seeing.{now_in};
ghost use Rattle.hp_attempt.specs.Holding.{FirstFailed};

use hp_store::CellValue;
use hp_value::ClassNo;
use hp_view::{Found, Reads, Seen, View};

/// Whether all reads hold in a view's cells: each cell has the value or the absence that was found, each class the
/// keys, or the greatest key, or the number of objects, or the objects with their rows where it was read as a whole,
/// and each part of a class its objects with their rows.
///
/// Nothing is recorded or allocated.
pub fn holds(reads: &Reads, view: &View) -> bool
    ensures { IsTrue result ↔ Holds (now_in view.now) reads.now }
{
    first_failed(reads, view).is_none()
}

/// The first of some reads that doesn't hold in a view's cells: where it looked. None where all of them hold.
///
/// Nothing is recorded or allocated.
pub fn first_failed<'a>(reads: &'a Reads, view: &View) -> Option<&'a Seen>
    ensures none { IsTrue (is_none result) ↔ Holds (now_in view.now) reads.now }
    ensures some { IfSome result (λ seen. FirstFailed (now_in view.now) reads.now seen.now) }
{
    for (seen, found) in reads.iter() {
        if !read_holds(view, seen, found) {
            return Some(seen);
        }
    }
    None
}

// Whether this is found in a view's cells.
fn read_holds(view: &View, seen: &Seen, found: &Found) -> bool
    ensures { IsTrue result ↔ ReadHolds (now_in view.now) (read (seen.now, found.now)) }
{
    match seen {
        Seen::Cell(cell) => are_same(view.peek(*cell), found.value()),
        Seen::Keys(class) => class_read_holds(view, *class, found),
        Seen::Greatest(class) => view.has_greatest_key(*class, found.greatest()),
        Seen::Count(class) => view.has_count(*class, found.count()),
        Seen::Part(class, _) => view.has_part(*class, &found.part(), found.objects()),
    }
}

// Whether this is found in a class, in a view's cells.
fn class_read_holds(view: &View, class: ClassNo, found: &Found) -> bool
    ensures { IsTrue result ↔ ReadHolds (now_in view.now) (class_read class found.now) }
{
    match found {
        Found::Objects(objects) => view.has_objects(class, objects),
        Found::Keys(keys) => view.has_keys(class, keys),
        Found::Value(_) => view.has_keys(class, &[]),
        Found::Greatest(_) => view.has_keys(class, &[]),
        Found::Count(_) => view.has_keys(class, &[]),
        Found::Part(_) => view.has_keys(class, &[]),
    }
}

// Whether two cells hold the same, or both are empty.
fn are_same(value: Option<&CellValue>, other: Option<&CellValue>) -> bool
    ensures { IsTrue result
        ↔ (option_map (λ v. cell_value v.now) value.entry ≡ option_map (λ v. cell_value v.now) other.entry) }
{
    match (value, other) {
        (Some(value), Some(other)) => *value == *other,
        (None, None) => true,
        _ => false,
    }
}
