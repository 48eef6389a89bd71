//! Short lists of occurrences.

ghost use Rattle.std.specs.Prelude.{◌≡◌, ◌++◌, ◌∷◌, ◌≤◌, [], drop, length, map, IfOk};
ghost use Rattle.hp_value.specs.Mapped.{occurrence};

use hp_value::Occurrence;
use std::alloc::{AllocError, Global};
use std::marker::Model;
use std::sync::Arc;

/// A short list of occurrences. Clones share it, and an empty chunk allocates nothing.
#[derive(Debug, Drop)]
pub struct Chunk {
    kept: Option<Arc<Vec<Arc<Occurrence>>>>,
}

impl Model for Chunk {
    ghost use Rattle.std.specs.Prelude.{List};
    ghost use Rattle.hp_model.specs.Occurrences as model;
    ghost use Rattle.hp_detect.specs.Chunks.{kept_in};

    ghost Value = { List model.Occurrence };

    ghost view = { λ c. kept_in c.kept };
}

impl Chunk {
    /// An empty chunk.
    pub fn empty() -> Chunk
        ensures { result ≡ [] }
    {
        Chunk { kept: None }
    }

    fn occurrences(&self) -> &[Arc<Occurrence>]
        ensures { map (λ o. occurrence o.value) result.now ≡ self.now }
    {
        match &self.kept {
            Some(kept) => kept,
            None => &[],
        }
    }

    /// The occurrences from an index.
    pub fn from(&self, at: usize) -> &[Arc<Occurrence>]
        requires { at ≤ length self.now }
        ensures { map (λ o. occurrence o.value) result.now ≡ drop at self.now }
    {
        &self.occurrences()[at..]
    }

    /// The number of occurrences.
    pub fn len(&self) -> usize
        ensures { result ≡ length self.now }
    {
        self.occurrences().len()
    }

    /// The chunk with one more occurrence at its end. It copies the list, which shares the occurrences.
    pub fn with(&self, alloc: Global, last: Occurrence) -> Result<Chunk, AllocError>
        ensures { IfOk result (λ c. c ≡ self.now ++ occurrence last ∷ []) }
    {
        let mut all = copied(alloc, self.occurrences())?;
        all.push(Arc::new(alloc, last)?)?;
        Ok(Chunk {
            kept: Some(Arc::new(alloc, all)?),
        })
    }
}

impl Clone for Chunk {
    ghost is_clone = { λ c d. d ≡ c };

    /// Shares this chunk. It allocates nothing.
    fn clone(&self) -> Result<Chunk, AllocError> {
        let kept = match &self.kept {
            Some(kept) => Some(Arc::try_clone(kept)?),
            None => None,
        };
        Ok(Chunk { kept })
    }
}

/// A list that shares these occurrences, with room for one more.
fn copied(
    alloc: Global,
    occurrences: &[Arc<Occurrence>],
) -> Result<Vec<Arc<Occurrence>>, AllocError>
    ensures { IfOk result (λ v. map (λ o. occurrence o.value) v.items ≡ map (λ o. occurrence o.value) occurrences.now) }
{
    let mut all = Vec::with_capacity(alloc, occurrences.len().saturating_add(1))?;
    for o in occurrences {
        all.push(Arc::try_clone(o)?)?;
    }
    Ok(all)
}
