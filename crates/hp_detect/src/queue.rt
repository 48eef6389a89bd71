//! Queues of occurrences.

ghost use Rattle.std.specs.Prelude.{◌≡◌, [], ◌++◌, ◌∷◌, ◌<◌, ◌≤◌, ◌+◌, drop, length, map, option_map};
ghost use Rattle.std.specs.Prelude.{option_to_list, if◌then◌else◌, slice_get, false, IfOk};
ghost use lib.Pointwise.{pointwise};
ghost use Rattle.hp_value.specs.Mapped.{occurrence};
ghost use Rattle.hp_value.specs.Same.{occurrence_same};
ghost use Rattle.hp_detect.specs.Ropes.{rest_laid_out, RestIsCounted, RestIs, IsRun};
ghost use Rattle.hp_detect.specs.Shapes.{IsBalanced};

use crate::chunk::Chunk;
use crate::rope::{Rope, count, leaf, run, split_first, with};
use hp_value::Occurrence;
use std::alloc::{AllocError, Global};
use std::marker::Model;
use std::sync::Arc;

/// The most occurrences in a chunk. Adding an occurrence to a queue copies fewer than that.
pub(crate) const MOST_IN_CHUNK: usize = 8;

/// A first-in, first-out queue of occurrences.
///
/// Queues are immutable: a step makes a new queue, which shares nearly all items with the old one (`after`). The items
/// are those of the head that are not taken yet, then the middle's, then the tail's. A chunk is freed when all its
/// items are taken.
#[derive(Debug, Drop)]
pub struct Queue {
    count: usize,
    taken: usize,
    head: Chunk,
    middle: Option<Arc<Rope>>,
    tail: Chunk,
}

impl Model for Queue {
    ghost use Rattle.std.specs.Prelude.{List};
    ghost use Rattle.hp_model.specs.Occurrences as model;
    ghost use Rattle.hp_detect.specs.Waiting.{waiting, IsKept};

    ghost Value = { List model.Occurrence };

    ghost view = { λ q. waiting q.taken q.head q.middle q.tail };

    ghost invariant = { λ q. IsKept q.count q.taken q.head q.middle q.tail };
}

impl PartialEq for Queue {
    ghost use lib.Pointwise.{pointwise};
    ghost use Rattle.std.specs.Cmp.{partial_equiv_from_equiv};
    ghost use Rattle.hp_value.specs.Same.{occurrence_same};
    ghost use Rattle.hp_detect.specs.Same.{waiting_equiv};

    ghost eq = { pointwise occurrence_same };

    ghost laws = { partial_equiv_from_equiv waiting_equiv };

    /// Whether both queues have the same items. It allocates nothing.
    ///
    /// Lengths and newest items are compared first. Then items are compared from the oldest up to the first difference,
    /// however each queue divides them into chunks. So the time for equal queues is linear in their length, and each
    /// chunk costs a walk down both trees.
    fn eq(&self, other: &Queue) -> bool {
        self.len() == other.len() && agree(self, other)
    }
}

impl Queue {
    /// An empty queue.
    pub fn new() -> Queue
        ensures { result ≡ [] }
    {
        Queue {
            count: 0,
            taken: 0,
            head: Chunk::empty(),
            middle: None,
            tail: Chunk::empty(),
        }
    }

    /// The number of items.
    fn len(&self) -> usize
        ensures { result ≡ length self.now }
    {
        self.count
    }

    /// The oldest item.
    pub fn first(&self) -> Option<&Occurrence>
        ensures { option_map (λ o. occurrence o.now) result ≡ slice_get self.now 0 }
    {
        if self.len() == 0 {
            return None;
        }
        match self.run(0).first() {
            Some(first) => Some(first),
            None => None,
        }
    }

    /// The queue after one step: without its oldest item if that is taken, and with the item that arrives, if one does.
    ///
    /// It makes a few nodes and copies a part of one chunk, whatever the length. Where a chunk is used up or full, it
    /// also makes a path of nodes of the middle's tree, as many as its height.
    pub fn after(
        &self,
        alloc: Global,
        takes: bool,
        arriving: Option<Occurrence>,
    ) -> Result<Queue, AllocError>
        ensures { IfOk result (λ q.
            q ≡ (if takes then drop 1 self.now else self.now) ++ option_to_list (option_map occurrence arriving)) }
    {
        let left = if takes {
            self.without_first(alloc)?
        } else {
            self.shared()?
        };
        match arriving {
            Some(last) => left.with(alloc, last),
            None => Ok(left),
        }
    }

    fn shared(&self) -> Result<Queue, AllocError>
        ensures { IfOk result (λ q. q ≡ self.now) }
    {
        Ok(Queue {
            count: self.count,
            taken: self.taken,
            head: self.head.clone()?,
            middle: shared(&self.middle)?,
            tail: self.tail.clone()?,
        })
    }

    /// The queue without its oldest item.
    fn without_first(&self, alloc: Global) -> Result<Queue, AllocError>
        ensures { IfOk result (λ q. q ≡ drop 1 self.now) }
    {
        if self.count <= 1 {
            return Ok(Queue::new());
        }
        if self.taken < self.head.len() {
            return Ok(Queue {
                count: self.count - 1,
                taken: self.taken + 1,
                head: self.head.clone()?,
                middle: shared(&self.middle)?,
                tail: self.tail.clone()?,
            });
        }
        let Some(middle) = &self.middle else {
            return Ok(Queue {
                count: self.count - 1,
                taken: 1,
                head: self.tail.clone()?,
                middle: None,
                tail: Chunk::empty(),
            });
        };
        let middle = split_first(alloc, middle)?;
        Ok(Queue {
            count: self.count - 1,
            taken: 1,
            head: middle.first,
            middle: middle.rest,
            tail: self.tail.clone()?,
        })
    }

    /// The queue with one more item at its end. The length can't overflow, since memory holds fewer items than that.
    fn with(self, alloc: Global, last: Occurrence) -> Result<Queue, AllocError>
        ensures { IfOk result (λ q. q ≡ self ++ occurrence last ∷ []) }
    {
        let Some(count) = self.count.checked_add(1) else {
            return Err(AllocError);
        };
        if self.tail.len() < MOST_IN_CHUNK {
            return Ok(Queue {
                count,
                taken: self.taken,
                head: self.head,
                middle: self.middle,
                tail: self.tail.with(alloc, last)?,
            });
        }
        let full = self.tail;
        let middle = match &self.middle {
            Some(middle) => with(alloc, middle, full)?,
            None => leaf(alloc, full)?,
        };
        Ok(Queue {
            count,
            taken: self.taken,
            head: self.head,
            middle: Some(middle),
            tail: Chunk::empty().with(alloc, last)?,
        })
    }

    /// The items from an index up to the end of the chunk that holds it.
    fn run(&self, at: usize) -> &[Arc<Occurrence>]
        requires { at < length self.now }
        ensures { IsRun (map (λ o. occurrence o.value) result.now) at self.now }
    {
        let ahead = self.head.len() - self.taken;
        if at < ahead {
            self.head.from(self.taken + at)
        } else {
            behind(&self.middle, &self.tail, at - ahead)
        }
    }
}

/// The items after the head from an index of theirs up to the end of the chunk that holds it.
fn behind<'a>(middle: &'a Option<Arc<Rope>>, tail: &'a Chunk, at: usize) -> &'a [Arc<Occurrence>]
    requires counted { RestIsCounted middle.now }
    requires within { at < length (rest_laid_out middle.now ++ tail.now) }
    ensures { IsRun (map (λ o. occurrence o.value) result.now) at (rest_laid_out middle.now ++ tail.now) }
{
    let Some(middle) = middle else {
        return tail.from(at);
    };
    let before = count(middle);
    if at < before {
        run(middle, at)
    } else {
        tail.from(at - before)
    }
}

fn shared(middle: &Option<Arc<Rope>>) -> Result<Option<Arc<Rope>>, AllocError>
    ensures { IfOk result (λ m.
        (rest_laid_out m ≡ rest_laid_out middle.now) × (RestIsCounted middle.now → RestIsCounted m)
        × (RestIs IsBalanced middle.now → RestIs IsBalanced m)) }
{
    match middle {
        Some(middle) => Ok(Some(Arc::try_clone(middle)?)),
        None => Ok(None),
    }
}

/// Whether two queues of the same length have the same items.
fn agree(one: &Queue, other: &Queue) -> bool
    requires { length one.now ≡ length other.now }
    ensures { result ≡ pointwise occurrence_same one.now other.now }
{
    let count = one.len();
    if count > 0 && alike_from(one, other, count - 1) == 0 {
        return false;
    }
    let mut at = 0;
    while at < count {
        let alike = alike_from(one, other, at);
        if alike == 0 {
            return false;
        }
        at += alike;
    }
    true
}

/// How many items from an index are found equal in one go; 0 where the two differ.
fn alike_from(one: &Queue, other: &Queue, at: usize) -> usize
    requires within { at < length one.now }
    requires within_other { at < length other.now }
    ensures most { at + result ≤ length one.now }
    ensures differ { result ≡ 0 → pointwise occurrence_same one.now other.now ≡ false }
    ensures alike { pointwise occurrence_same (drop at one.now) (drop at other.now)
        ≡ pointwise occurrence_same (drop (at + result) one.now) (drop (at + result) other.now) }
{
    let here = one.run(at);
    let there = other.run(at);
    let both = here.len().min(there.len());
    if here[..both] == there[..both] {
        both
    } else {
        0
    }
}
