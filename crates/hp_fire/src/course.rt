//! The results of statements, signals and groups.

ghost use Rattle.std.specs.Prelude.{◌≡◌, ◌++◌, IsTrue, OnOk, Option, [], length, option_map};
ghost use Rattle.hp_model.specs.Values.{Veto as ModelVeto};
ghost use Rattle.hp_model.specs.Answers.{ended, followed, is_done, tells};
ghost use Rattle.hp_model.specs.Firing.{end_of};
ghost use Rattle.hp_model.specs.Soundness.{FiringAnswer};
ghost use Rattle.hp_model.specs.Tree.{no_items};
ghost use Rattle.hp_value.specs.Mapped.{veto as veto_in};
ghost use Rattle.hp_tree.specs.Mapped.{before};
ghost use Rattle.hp_attempt.specs.Mapped.{firing};
ghost use Rattle.hp_fire.specs.Mapped.{course, end};
ghost use Rattle.hp_fire.specs.Joined.{IsAround, alone, opened, with_items};

use hp_attempt::Outcome;
use hp_rule::{Detached, Task};
use hp_tree::Item;
use hp_value::{Cause, Veto};
use std::alloc::{AllocError, Global};
use std::mem::replace;

/// How a statement or a body ends. A body ends with its first statement that isn't done.
#[derive(Debug, Drop, PartialEq, Eq)]
pub enum End {
    /// It is done.
    Done,
    /// It aborts the innermost transaction around it, for this cause.
    Abort(Cause),
    /// It aborts the innermost transaction around it, since a firing in it vetoed.
    Vetoed(Veto),
    /// The action that it belongs to vetoes. The veto passes outward.
    Veto(Veto),
}

/// The result of a statement, a body or a signal, besides its writes.
#[derive(Drop)]
pub struct Course {
    /// How it ended.
    pub end: End,
    /// The tasks that it queued for the deferred rounds, in order.
    pub queued: Vec<Task>,
    /// The tasks that it detached, in order.
    pub detached: Vec<Detached>,
    /// What was done, in order of time, up to its end.
    pub items: Vec<Item>,
}

/// What is kept of a course while a nested transaction runs in it.
#[derive(Drop)]
pub(crate) struct Around {
    /// The items that it had, which are put back when the nested transaction ends.
    pub(crate) items: Vec<Item>,
    /// How many tasks it had queued.
    pub(crate) queued: usize,
    /// How many tasks it had detached.
    pub(crate) detached: usize,
}

/// The result of a group of sibling firings, besides its writes.
#[derive(Drop)]
pub struct GroupOutcome {
    /// The result of each firing, in the order of the tasks, up to the one whose veto stopped the group.
    pub outcomes: Vec<Outcome>,
    /// The veto that stopped the group; `None` if none did.
    pub end: Option<Veto>,
    /// The number of firings that were accepted from attempts of the first wave.
    pub accepted: usize,
    /// The number of firings that the group's owner ran, or that were tried again.
    pub reran: usize,
    /// The number of waves in which workers ran; 0 if no worker was started.
    pub waves: usize,
}

impl GroupOutcome {
    /// The result of a group whose owner ran each firing.
    pub(crate) fn of_owner(outcomes: Vec<Outcome>, end: Option<Veto>) -> GroupOutcome
        ensures { let reran = length outcomes.items in
            result ≡ record { outcomes = outcomes; end = end; accepted = 0; reran = reran; waves = 0 } }
    {
        let reran = outcomes.len();
        GroupOutcome {
            outcomes,
            end,
            accepted: 0,
            reran,
            waves: 0,
        }
    }
}

impl Course {
    /// A course without effects.
    pub(crate) fn ended(alloc: Global, how: End) -> Course
        ensures { course result ≡ ended (end how) }
    {
        Course {
            end: how,
            queued: Vec::new(alloc),
            detached: Vec::new(alloc),
            items: Vec::new(alloc),
        }
    }

    /// Whether the next statement is to run.
    pub(crate) fn is_done(&self) -> bool
        ensures { result ≡ is_done (course self.now).end }
    {
        match self.end {
            End::Done => true,
            End::Abort(_) | End::Vetoed(_) | End::Veto(_) => false,
        }
    }

    /// Whether the course has only an end.
    fn is_blank(&self) -> bool
        ensures { IsTrue result → (self.now.queued.items ≡ []) × (self.now.detached.items ≡ [])
            × (self.now.items.items ≡ []) }
    {
        self.queued.is_empty() && self.detached.is_empty() && self.items.is_empty()
    }

    /// Begins a nested transaction: what is added from now on is what it does, until `end_part`.
    pub(crate) fn begin_part(&mut self, alloc: Global) -> Around
        ensures around { IsAround result (course self.old) }
        ensures opened { course self.new ≡ opened (course self.old) }
    {
        Around {
            items: replace(&mut self.items, Vec::new(alloc)),
            queued: self.queued.len(),
            detached: self.detached.len(),
        }
    }

    /// Ends the course so.
    pub(crate) fn end_with(&mut self, how: End)
        ensures { course self.new ≡ followed (course self.old) (ended (end how)) }
    {
        self.end = how;
    }

    /// Adds an item to a course, which nothing has ended then. After an error no item was added.
    pub(crate) fn add(&mut self, item: Item) -> Result<(), AllocError>
        ensures { OnOk result (course self.new ≡ followed (course self.old) (tells (before item no_items))) }
    {
        self.put(item)?;
        self.end = End::Done;
        Ok(())
    }

    /// Adds an item, which doesn't change how the course ends. After an error no item was added.
    pub(crate) fn put(&mut self, item: Item) -> Result<(), AllocError>
        ensures { OnOk result (course self.new ≡ with_items (course self.old) (before item no_items)) }
    {
        make_room(&mut self.items)?;
        self.items.push(item)?;
        Ok(())
    }

    /// The outcome of a firing, where the course has that firing and nothing else.
    pub(crate) fn into_outcome(self) -> Outcome
        ensures { (f : FiringAnswer) → course self ≡ alone f → firing result ≡ f }
    {
        let Course {
            end,
            queued,
            detached,
            items,
        } = self;
        Outcome {
            end: veto_inside(end),
            queued,
            detached,
            tree: items,
        }
    }

    /// Appends the course that followed this one. After an error a part may have been added.
    pub fn join(&mut self, more: Course) -> Result<(), AllocError>
        ensures { OnOk result (course self.new ≡ followed (course self.old) (course more)) }
    {
        if self.is_blank() {
            *self = more;
            return Ok(());
        }
        let Course {
            end,
            queued,
            detached,
            items,
        } = more;
        append(&mut self.queued, queued)?;
        append(&mut self.detached, detached)?;
        append(&mut self.items, items)?;
        self.end = end;
        Ok(())
    }
}

/// Reserves two places in an empty list. Most lists have an operation and the firing that it sets off, and a report
/// keeps the list, so there are no more.
fn make_room(items: &mut Vec<Item>) -> Result<(), AllocError>
    ensures items { items.new.items ≡ items.old.items }
{
    if items.is_empty() {
        return items.reserve_exact(2);
    }
    Ok(())
}

/// The veto of a firing inside that ends a course; `None` if none does.
fn veto_inside(how: End) -> Option<Veto>
    ensures { (o : Option ModelVeto) → end how ≡ end_of o → option_map veto_in result ≡ o }
{
    match how {
        End::Vetoed(veto) => Some(veto),
        _ => None,
    }
}

/// Appends a list to another. If that one is empty, nothing is copied.
pub(crate) fn append<T: Drop>(all: &mut Vec<T>, mut more: Vec<T>) -> Result<(), AllocError>
    ensures items { OnOk result (all.new.items ≡ all.old.items ++ more.items) }
{
    if all.is_empty() {
        *all = more;
        return Ok(());
    }
    all.append(&mut more)
}
