//! The objects of a class.

ghost use Rattle.std.specs.Prelude.{◌≡◌, IfOk};
ghost use Rattle.hp_model.specs.State.{Objects, rows_of};
ghost use Rattle.hp_query.specs.Looks.{ObjectsRise};

use crate::look::Look;
use hp_value::{ClassNo, ObjectList};
use std::alloc::{AllocError, Global};
use std::sync::Arc;

/// The objects of a class with their rows, in ascending key order: the look's own list if it has one.
///
/// An error means that memory ran out. The look may then allow fewer worlds, and nothing else has changed.
pub(crate) fn objects_of<L: Look>(
    alloc: Global,
    look: &mut L,
    class: ClassNo,
) -> Result<Arc<ObjectList>, AllocError>
    ensures goes_on { L.goes_on look.old look.new }
    ensures asks { L.asks class look.old look.new }
    ensures narrows { (world : Objects) → L.allows look.new world → L.allows look.old world }
    ensures listed { IfOk result (λ objects. (world : Objects) →
        ObjectsRise world → L.allows look.new world → objects.value ≡ rows_of class world) }
{
    match look.objects(alloc, class)? {
        Some(objects) => Ok(objects),
        None => collected(alloc, look, class),
    }
}

// The objects of a class, read one by one: the class's keys first, and then the row of each.
fn collected<L: Look>(
    alloc: Global,
    look: &mut L,
    class: ClassNo,
) -> Result<Arc<ObjectList>, AllocError>
    ensures goes_on { L.goes_on look.old look.new }
    ensures asks { L.asks class look.old look.new }
    ensures narrows { (world : Objects) → L.allows look.new world → L.allows look.old world }
    ensures listed { IfOk result (λ objects. (world : Objects) →
        ObjectsRise world → L.allows look.new world → objects.value ≡ rows_of class world) }
{
    let keys = look.keys(alloc, class)?;
    let mut objects = ObjectList::new(alloc);
    for key in &keys {
        if let Some(row) = look.row(alloc, class, *key)? {
            objects.push(*key, row)?;
        }
    }
    Ok(Arc::new(alloc, objects)?)
}
