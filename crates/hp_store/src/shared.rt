//! Lists of shared layers.

ghost use Rattle.std.specs.Prelude.{◌≡◌, ◌≤◌, ◌<◌, ◌++◌, ◌∷◌, [], length, IfOk};
ghost use Rattle.std.specs.Prelude.{IfSome, OnOk, None, option_map, MatchOption};
ghost use Rattle.std.specs.Option.{option_or};
ghost use Rattle.hp_model.specs.Cells.{Cell as ModelCell, over};
ghost use Rattle.hp_value.specs.Mapped as mapped;
ghost use Rattle.hp_store.specs.Changes.{changes, changes_in};
ghost use Rattle.hp_store.specs.Mapped as here;
ghost use Rattle.hp_store.specs.Parts.{keys_left, no_cells, is_among, Covers};

use crate::candidates::Candidates;
use crate::index::Index;
use crate::layer::Layer;
use crate::value::CellValue;
use hp_value::{Cell, ClassNo, ClassPart, Key};
use smallvec::SmallVec;
use std::alloc::{AllocError, Global};
use std::marker::Model;
use std::sync::Arc;

/// How many layers a snapshot has at most.
pub(crate) const MOST_LAYERS: usize = 8;

/// A layer that several snapshots share; by default one that changes nothing.
#[derive(Debug, Default, Drop)]
pub(crate) struct SharedLayer {
    layer: Option<Arc<Layer>>,
}

/// Layers over a base, the newest last. Eight of them lie in the value itself.
pub(crate) type Layers = SmallVec<SharedLayer, 8>;

impl Model for SharedLayer {
    ghost use Rattle.hp_store.specs.Changes.{Entries};
    ghost use Rattle.hp_store.specs.Codes.{entries_code};

    ghost Value = { Entries };

    ghost coded = { entries_code };

    ghost use Rattle.hp_store.specs.Stack.{shared_entries};

    ghost view = { λ s. shared_entries s.layer };
}

impl SharedLayer {
    /// The layer, unless it changes nothing.
    pub(crate) fn layer(&self) -> Option<&Layer>
        ensures { MatchOption result (self.now ≡ []) (λ layer. layer.now ≡ self.now) }
    {
        match &self.layer {
            Some(layer) => Some(layer),
            None => None,
        }
    }

    // How many cells the layer names.
    fn len(&self) -> usize {
        match self.layer() {
            Some(layer) => layer.len(),
            None => 0,
        }
    }

    /// Keys among which all objects of a part of a class are to which the layer gives a row.
    pub(crate) fn candidates(&self, class: ClassNo, part: &ClassPart<'_>) -> Candidates<'_>
        ensures { Covers (is_among (keys_left result)) (mapped.class_part part.now) class
            (over no_cells (changes self.now)) }
    {
        match self.layer() {
            Some(layer) => layer.candidates(class, part),
            None => Candidates::Nothing,
        }
    }
}

impl SharedLayer {
    ghost use Rattle.std.specs.Prelude.{◌≡◌, true, IfSome};
    ghost use Rattle.hp_store.specs.Changes.{changes};
    ghost use Rattle.hp_store.specs.Greatest.{is_below, NamesNone};

    /// The greatest key below a bound of a class's objects that the layer names, even if it removes them.
    pub(crate) fn greatest_below(&self, class: ClassNo, bound: Option<Key>) -> Option<Key>
        ensures below { IfSome result (λ key. is_below bound key ≡ true) }
        ensures above { NamesNone (changes self.now) class bound result }
    {
        match self.layer() {
            Some(layer) => layer.greatest_below(class, bound),
            None => None,
        }
    }
}

impl Clone for SharedLayer {
    ghost is_clone = { λ s t. t ≡ s };

    fn clone(&self) -> Result<SharedLayer, AllocError> {
        let layer = match &self.layer {
            Some(layer) => Some(Arc::try_clone(layer)?),
            None => None,
        };
        Ok(SharedLayer { layer })
    }
}

/// What the newest layer that names a cell makes of it.
pub(crate) fn newest(layers: &[SharedLayer], cell: Cell) -> Option<&Option<CellValue>>
    ensures { option_map (λ c. here.change c.now) result ≡ changes_in layers.now (mapped.cell cell) }
{
    let mut rest = layers;
    while let Some((last, others)) = rest.split_last() {
        if let Some(layer) = last.layer() {
            if let Some(change) = layer.get(cell) {
                return Some(change);
            }
        }
        rest = others;
    }
    None
}

/// A copy of a list of layers, which shares them.
///
/// An error means that memory ran out.
pub(crate) fn copied(alloc: Global, layers: &[SharedLayer]) -> Result<Layers, AllocError>
    ensures { IfOk result (λ copies. copies.items ≡ layers.now) }
{
    let mut copies = SmallVec::new(alloc);
    for shared in layers {
        copies.push(shared.clone()?)?;
    }
    Ok(copies)
}

/// The layers with one more over them. One that changes nothing is left out, and a ninth is folded with the newest of
/// the others into one, which has the base's indexes.
///
/// An error means that memory ran out.
pub(crate) fn stacked(
    alloc: Global,
    layers: &[SharedLayer],
    layer: Arc<Layer>,
    indexes: &[Index],
) -> Result<Layers, AllocError>
    requires { length layers.now ≤ MOST_LAYERS }
    ensures changes { IfOk result (λ stack. (q : ModelCell) →
        changes_in stack.items q ≡ option_or (changes layer.value q) (changes_in layers.now q)) }
    ensures most { IfOk result (λ stack. length stack.items ≤ MOST_LAYERS) }
{
    if layer.is_empty() {
        let stack = copied(alloc, layers)?;
        return Ok(stack);
    }
    if layers.len() < MOST_LAYERS {
        let stack = pushed(alloc, layers, layer)?;
        return Ok(stack);
    }
    let (below, above) = layers.split_at(fold_from(layers, layer.len()));
    let mut all = folded(alloc, above)?;
    all.take_in(&layer)?;
    all.keep_indexes(alloc, indexes)?;
    let one = Arc::new(alloc, all)?;
    let stack = pushed(alloc, below, one)?;
    Ok(stack)
}

// These layers and one more.
fn pushed(alloc: Global, layers: &[SharedLayer], layer: Arc<Layer>) -> Result<Layers, AllocError>
    ensures { IfOk result (λ stack. stack.items ≡ layers.now ++ layer.value ∷ []) }
{
    let mut stack = copied(alloc, layers)?;
    stack.push(SharedLayer { layer: Some(layer) })?;
    Ok(stack)
}

// Where the layers begin that are folded with a new one of `added` changes: the newest, and below it each that has at
// most twice the changes of those above it. So a lower layer that is folded grows by half at least, and commits stay
// cheap even if the base is shared for good.
fn fold_from(layers: &[SharedLayer], added: usize) -> usize
    requires { 0 < length layers.now }
    ensures { result < length layers.now }
{
    let mut from = layers.len() - 1;
    let mut folded = added.saturating_add(layers[from].len());
    while from > 0 {
        let lower = layers[from - 1].len();
        if lower / 2 > folded {
            return from;
        }
        folded = folded.saturating_add(lower);
        from -= 1;
    }
    from
}

// One layer in place of several.
fn folded(alloc: Global, layers: &[SharedLayer]) -> Result<Layer, AllocError>
    ensures { IfOk result (λ all. (q : ModelCell) → changes all q ≡ changes_in layers.now q) }
{
    let mut all = Layer::new(alloc);
    for shared in layers {
        if let Some(layer) = shared.layer() {
            all.take_in(layer)?;
        }
    }
    Ok(all)
}
