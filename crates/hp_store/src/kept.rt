//! Lists of classes' objects that a snapshot keeps.

ghost use Rattle.std.specs.Prelude.{IfOk, IfSome, OnOk};
ghost use Rattle.hp_model.specs.Cells.{Cells, AreObjects, over};
ghost use Rattle.hp_store.specs.Changes.{changes};
ghost use Rattle.hp_store.specs.Kept.{AreKept};

use crate::layer::Layer;
use hp_value::{ClassNo, ObjectList};
use std::alloc::{AllocError, Global};
use std::sync::Arc;

/// The objects of a class, as they are in a snapshot.
#[derive(Debug, Drop)]
pub(crate) struct KeptList {
    /// The class.
    pub(crate) class: ClassNo,
    /// Its objects with their rows, by rising keys. Others share the list.
    pub(crate) objects: Arc<ObjectList>,
}

/// The lists as they are under a layer. Of a class of which the layer names an object, the list goes on only if the
/// class is one of those that were asked for: nobody pays for a list that nobody looks at.
///
/// An error means that memory ran out.
pub(crate) fn still_kept(
    alloc: Global,
    lists: &[KeptList],
    asked: &[ClassNo],
    layer: &Layer,
) -> Result<Vec<KeptList>, AllocError>
    ensures { IfOk result (λ kept. (base : Cells) → AreKept base lists.now →
        AreKept (over base (changes layer.now)) kept.items) }
{
    let mut kept = Vec::new(alloc);
    for list in lists {
        keep_under(alloc, &mut kept, list, asked, layer)?;
    }
    Ok(kept)
}

// Adds a list, as it is under a layer, if it goes on.
fn keep_under(
    alloc: Global,
    kept: &mut Vec<KeptList>,
    list: &KeptList,
    asked: &[ClassNo],
    layer: &Layer,
) -> Result<(), AllocError>
    ensures { OnOk result ((base : Cells) → AreObjects base list.now.class list.now.objects.value →
        AreKept (over base (changes layer.now)) kept.old.items →
        AreKept (over base (changes layer.now)) kept.new.items) }
{
    let Some(objects) = objects_under(alloc, list, asked, layer)? else {
        return Ok(());
    };
    kept.push(KeptList {
        class: list.class,
        objects,
    })?;
    Ok(())
}

// The objects of a list's class under a layer. None where they have changed and nobody asked for them.
fn objects_under(
    alloc: Global,
    list: &KeptList,
    asked: &[ClassNo],
    layer: &Layer,
) -> Result<Option<Arc<ObjectList>>, AllocError>
    ensures { IfOk result (λ found. IfSome found (λ objects. (base : Cells) →
        AreObjects base list.now.class list.now.objects.value →
        AreObjects (over base (changes layer.now)) list.now.class objects.value)) }
{
    if !layer.names_objects_of(list.class) {
        return Ok(Some(Arc::try_clone(&list.objects)?));
    }
    if !asked.contains(&list.class) {
        return Ok(None);
    }
    let Some(objects) = layer.objects_over(alloc, list.class, &list.objects)? else {
        return Ok(None);
    };
    Ok(Some(Arc::new(alloc, objects)?))
}

/// Those of some classes of which a layer names no object.
///
/// An error means that memory ran out.
pub(crate) fn still_asked(
    alloc: Global,
    asked: &[ClassNo],
    layer: &Layer,
) -> Result<Vec<ClassNo>, AllocError> {
    let mut still = Vec::new(alloc);
    for class in asked {
        if !layer.names_objects_of(*class) {
            still.push(*class)?;
        }
    }
    Ok(still)
}

/// Adds a class to those that were asked for.
///
/// An error means that memory ran out.
pub(crate) fn note_asked(asked: &mut Vec<ClassNo>, class: ClassNo) -> Result<(), AllocError> {
    if !asked.contains(&class) {
        asked.push(class)?;
    }
    Ok(())
}
