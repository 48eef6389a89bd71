//! Trees of chunks. Adding and taking a chunk takes time logarithmic in the number of chunks.

ghost use Rattle.std.specs.Prelude.{◌≡◌, ◌<◌, ◌++◌, length, map, IfOk};
ghost use Rattle.hp_value.specs.Mapped.{occurrence};
ghost use Rattle.hp_detect.specs.Ropes.{laid_out, rest_laid_out, IsCounted, RestIsCounted, IsRun, shape, joined_shape};
ghost use Rattle.hp_detect.specs.Ropes.{RestIs};
ghost use Rattle.hp_detect.specs.Shapes.{one_chunk, node, IsLow, IsGrown, IsWorn, IsSettled, IsBalanced};

use crate::chunk::Chunk;
use crate::queue::MOST_IN_CHUNK;
use hp_value::Occurrence;
use std::alloc::{AllocError, Global};
use std::sync::Arc;

/// Chunks in order, as a tree whose nodes clones share.
///
/// A chunk is added at the right end (`with`) and taken at the left (`split_first`). Both make new nodes along one path
/// and share all others. A right part grows until it has as many items as the left one, and then both become the left
/// part of a new node. So a path has at most three nodes more than the binary logarithm of the number of chunks
/// (`IsLow`). All chunks are full.
#[derive(Debug, Drop)]
pub enum Rope {
    Leaf(Chunk),
    /// Two parts, and how many occurrences they have together.
    Both(usize, Arc<Rope>, Arc<Rope>),
}

/// The first chunk of a rope, and the rest.
#[derive(Drop)]
pub struct Split {
    pub first: Chunk,
    pub rest: Option<Arc<Rope>>,
}

/// A rope of one chunk.
pub fn leaf(alloc: Global, chunk: Chunk) -> Result<Arc<Rope>, AllocError>
    requires { length chunk ≡ MOST_IN_CHUNK }
    ensures counted { IfOk result (λ r. (laid_out r.value ≡ chunk) × IsCounted r.value) }
    ensures shape { IfOk result (λ r. shape r.value ≡ one_chunk) }
{
    Ok(Arc::new(alloc, Rope::Leaf(chunk))?)
}

/// The number of occurrences.
pub fn count(rope: &Rope) -> usize
    requires { IsCounted rope.now }
    ensures { result ≡ length (laid_out rope.now) }
{
    match rope {
        Rope::Leaf(chunk) => chunk.len(),
        Rope::Both(count, _, _) => *count,
    }
}

/// The rope with one more chunk at its end.
pub fn with(alloc: Global, rope: &Arc<Rope>, last: Chunk) -> Result<Arc<Rope>, AllocError>
    requires counted { IsCounted rope.now.value }
    requires balanced { IsBalanced (shape rope.now.value) }
    requires full { length last ≡ MOST_IN_CHUNK }
    ensures counted { IfOk result (λ r. (laid_out r.value ≡ laid_out rope.now.value ++ last) × IsCounted r.value) }
    ensures balanced { IfOk result (λ r. IsBalanced (shape r.value)) }
    ensures grown { IfOk result (λ r. IsGrown (shape rope.now.value) → IsGrown (shape r.value)) }
    ensures low { IfOk result (λ r. IsLow (shape r.value)) }
{
    match &**rope {
        Rope::Leaf(_) => both(alloc, rope, leaf(alloc, last)?),
        Rope::Both(_, first, second) => {
            if count(second) < count(first) {
                let more = with(alloc, second, last)?;
                return both(alloc, first, more);
            }
            both(alloc, rope, leaf(alloc, last)?)
        }
    }
}

/// Two ropes in one. The count can't overflow, since memory holds fewer occurrences than that.
fn both(alloc: Global, first: &Arc<Rope>, second: Arc<Rope>) -> Result<Arc<Rope>, AllocError>
    requires first { IsCounted first.now.value }
    requires second { IsCounted second.value }
    ensures counted { IfOk result (λ r.
        (laid_out r.value ≡ laid_out first.now.value ++ laid_out second.value) × IsCounted r.value) }
    ensures shape { IfOk result (λ r. shape r.value ≡ node (shape first.now.value) (shape second.value)) }
{
    let Some(count) = count(first).checked_add(count(&second)) else {
        return Err(AllocError);
    };
    Ok(Arc::new(alloc, Rope::Both(count, Arc::try_clone(first)?, second))?)
}

/// Splits the first chunk off.
pub fn split_first(alloc: Global, rope: &Rope) -> Result<Split, AllocError>
    requires counted { IsCounted rope.now }
    requires balanced { IsBalanced (shape rope.now) }
    ensures laid_out { IfOk result (λ s. laid_out rope.now ≡ s.first ++ rest_laid_out s.rest) }
    ensures first { IfOk result (λ s. 0 < length s.first) }
    ensures rest { IfOk result (λ s. RestIsCounted s.rest) }
    ensures balanced { IfOk result (λ s. RestIs IsBalanced s.rest) }
    ensures settled { IfOk result (λ s. IsSettled (shape rope.now) → RestIs IsSettled s.rest) }
    ensures worn { IfOk result (λ s. IsWorn (shape rope.now) → RestIs IsWorn s.rest) }
{
    match rope {
        Rope::Leaf(chunk) => Ok(Split {
            first: chunk.clone()?,
            rest: None,
        }),
        Rope::Both(_, left, right) => {
            let Split { first, rest } = split_first(alloc, left)?;
            let others = joined(alloc, rest, right)?;
            Ok(Split {
                first,
                rest: Some(others),
            })
        }
    }
}

// A rope behind what is left of another one, if anything is.
fn joined(
    alloc: Global,
    rest: Option<Arc<Rope>>,
    right: &Arc<Rope>,
) -> Result<Arc<Rope>, AllocError>
    requires rest { RestIsCounted rest }
    requires right { IsCounted right.now.value }
    ensures counted { IfOk result (λ r.
        (laid_out r.value ≡ rest_laid_out rest ++ laid_out right.now.value) × IsCounted r.value) }
    ensures shape { IfOk result (λ r. shape r.value ≡ joined_shape rest (shape right.now.value)) }
{
    match rest {
        Some(rest) => both(alloc, &rest, Arc::try_clone(right)?),
        None => Ok(Arc::try_clone(right)?),
    }
}

/// The occurrences from an index up to the end of the chunk that holds it.
pub fn run(rope: &Rope, at: usize) -> &[Arc<Occurrence>]
    requires counted { IsCounted rope.now }
    requires within { at < length (laid_out rope.now) }
    ensures { IsRun (map (λ o. occurrence o.value) result.now) at (laid_out rope.now) }
{
    match rope {
        Rope::Leaf(chunk) => chunk.from(at),
        Rope::Both(_, first, second) => {
            let before = count(first);
            if at < before {
                run(first, at)
            } else {
                run(second, at - before)
            }
        }
    }
}
