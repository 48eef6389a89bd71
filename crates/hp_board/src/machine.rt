//! The machine of one group: its workers and its owner, one event at a time.

ghost use Rattle.std.specs.Prelude.{◌≡◌, ℕ, ◌+◌, ◌<◌, ◌≤◌, length, List, [], ◌∷◌, ◌++◌, slice_get, slice_set, IfOk};
ghost use Rattle.std.specs.Prelude.{IfSome, IsSome, Some, None, true, is_some, nat_lt, ◌&&◌, ◌==◌, not, replicate};
ghost use Rattle.std.specs.List.{list_all, slice_index_or};
ghost use Rattle.std.specs.Option.{option_copied};
ghost use Rattle.hp_model.specs.Cells.{Cells, Changes};
ghost use Rattle.hp_model.specs.Groups.{opening, is_enabled, step};
ghost use Rattle.hp_board.specs.Groups.{is_drawn, seen_at, posted_at};
ghost use Rattle.hp_board.specs.Mapped.{machine, event as event_of};

use std::alloc::{AllocError, Global};
use std::marker::Model;

/// One atomic step of a group's workers or of its owner. Workers and tasks are numbered from 0.
#[derive(Debug, Drop)]
pub enum Event<T> {
    /// The worker draws the next task.
    ///
    /// Enabled while a task is left to draw.
    Draw {
        worker: usize,
    },
    /// The worker looks at a task, and sees what these predecessors of it, earlier tasks, have posted. The task starts
    /// from the base with their layers over it, in task order.
    ///
    /// Enabled if the worker has drawn the task and not looked at it, and each predecessor is posted.
    Look {
        worker: usize,
        task: usize,
        predecessors: Vec<usize>,
    },
    /// The worker posts the layer of a task.
    ///
    /// Enabled if the worker has drawn the task and looked at it, and nothing is posted for it.
    Post {
        worker: usize,
        task: usize,
        layer: T,
    },
    /// The owner settles a task by the layer that was posted for it.
    ///
    /// Enabled if the task is the next to settle and is posted.
    Accept {
        task: usize,
    },
    /// The owner settles a task by the layer of its own run of the task.
    ///
    /// Enabled if the task is the next to settle.
    Rerun {
        task: usize,
        layer: T,
    },
}

// How a task was settled: by the posted layer, or by that of its rerun.
#[derive(Drop)]
enum Settling<T> {
    Accepted,
    Reran(T),
}

/// The machine of one group of sibling tasks: which worker drew each, what was seen and posted, and what is settled.
///
/// It is the group machine of the definitions, for layers of any type `T`. The contracts hold for every reading of a
/// layer as changes of cells, and for every base. No step allocates: [`new`](Group::new) reserves the space for all of
/// them.
#[derive(Drop)]
pub struct Group<T> {
    drawn: Vec<usize>,
    seen: Vec<Option<Vec<usize>>>,
    posted: Vec<Option<T>>,
    settlings: Vec<Settling<T>>,
}

impl<T> Model for Group<T> {
    ghost use Rattle.hp_board.specs.Groups.{GroupView, group_code};

    ghost Value = { GroupView T };

    ghost coded = { group_code T.code };

    ghost use Rattle.hp_board.specs.GroupFields.{view_of, IsGroup};

    ghost view = { view_of };

    ghost invariant = { IsGroup };
}

impl<T: Drop> Group<T> {
    /// The machine of a group of `tasks` tasks, before the first event.
    pub fn new(alloc: Global, tasks: usize) -> Result<Group<T>, AllocError>
        ensures { IfOk result (λ g. (base : Cells) (changes : T → Changes) →
            machine base changes g ≡ opening base tasks) }
    {
        Ok(Group {
            drawn: Vec::with_capacity(alloc, tasks)?,
            seen: nones(alloc, tasks)?,
            posted: nones(alloc, tasks)?,
            settlings: Vec::with_capacity(alloc, tasks)?,
        })
    }

    /// Whether the event is enabled.
    pub fn is_enabled(&self, event: &Event<T>) -> bool
        ensures { (base : Cells) (changes : T → Changes) →
            result ≡ is_enabled (machine base changes self.now) (event_of changes event.now) }
    {
        match event {
            Event::Draw { worker: _ } => self.drawn.len() < self.posted.len(),
            Event::Look {
                worker,
                task,
                predecessors,
            } => self.can_look(*worker, *task, predecessors.as_slice()),
            Event::Post {
                worker,
                task,
                layer: _,
            } => self.can_post(*worker, *task),
            Event::Accept { task } => self.can_accept(*task),
            Event::Rerun { task, layer: _ } => self.can_rerun(*task),
        }
    }

    /// The machine's step. An event that isn't enabled changes nothing.
    pub fn step(&mut self, event: Event<T>)
        ensures { (base : Cells) (changes : T → Changes) →
            machine base changes self.new
            ≡ step (machine base changes self.old) (event_of changes event) }
    {
        if !self.is_enabled(&event) {
            return;
        }
        match event {
            Event::Draw { worker } => self.draw(worker),
            Event::Look {
                worker: _,
                task,
                predecessors,
            } => self.look(task, predecessors),
            Event::Post {
                worker: _,
                task,
                layer,
            } => self.post(task, layer),
            Event::Accept { task: _ } => self.accept(),
            Event::Rerun { task: _, layer } => self.rerun(layer),
        }
    }

    /// The layer by which a task was settled, if it is settled.
    pub fn settled(&self, task: usize) -> Option<&T>
        ensures { option_copied result ≡ slice_get self.now.settled task }
    {
        match self.settlings.get(task)? {
            Settling::Accepted => self.posted.get(task)?.as_ref(),
            Settling::Reran(layer) => Some(layer),
        }
    }

    // The effects of the five events, each where it is enabled.

    fn draw(&mut self, worker: usize)
        requires { length self.old.drawn < length self.old.posted }
        ensures { self.new ≡ record self.old { drawn = self.old.drawn ++ worker ∷ [] } }
    {
        self.drawn.push_reserved(worker);
    }

    fn look(&mut self, task: usize, predecessors: Vec<usize>)
        requires { task < length self.old.drawn }
        ensures { self.new ≡ record self.old { seen = slice_set self.old.seen task (Some predecessors.items) } }
    {
        self.seen[task] = Some(predecessors);
    }

    fn post(&mut self, task: usize, layer: T)
        requires drawn { task < length self.old.drawn }
        requires fresh { posted_at self.old task ≡ None }
        ensures { self.new ≡ record self.old { posted = slice_set self.old.posted task (Some layer) } }
    {
        self.posted[task] = Some(layer);
    }

    fn accept(&mut self)
        requires { IsSome (posted_at self.old (length self.old.settled)) }
        ensures { IfSome (posted_at self.old (length self.old.settled)) (λ layer.
            self.new ≡ record self.old { settled = self.old.settled ++ layer ∷ [] }) }
    {
        self.settlings.push_reserved(Settling::Accepted);
    }

    fn rerun(&mut self, layer: T)
        requires { length self.old.settled < length self.old.posted }
        ensures { self.new ≡ record self.old { settled = self.old.settled ++ layer ∷ [] } }
    {
        self.settlings.push_reserved(Settling::Reran(layer));
    }

    // The worker has drawn the task and not looked at it, and these predecessors are posted.
    fn can_look(&self, worker: usize, task: usize, predecessors: &[usize]) -> bool
        ensures { result ≡ (is_drawn self.now worker task && (not (is_some (seen_at self.now task))
            && list_all (λ j. nat_lt j task && is_some (posted_at self.now j)) predecessors.now)) }
    {
        self.is_drawn_by(worker, task)
            && !self.is_looked_at(task)
            && self.are_posted_predecessors(task, predecessors)
    }

    // Each of these tasks precedes the task and is posted.
    fn are_posted_predecessors(&self, task: usize, predecessors: &[usize]) -> bool
        ensures { result ≡ list_all (λ j. nat_lt j task && is_some (posted_at self.now j)) predecessors.now }
    {
        predecessors.iter().all(|j| *j < task && self.is_posted(*j))
    }

    // The worker has drawn the task and looked at it, and nothing is posted for it.
    fn can_post(&self, worker: usize, task: usize) -> bool
        ensures { result ≡ (is_drawn self.now worker task
            && (is_some (seen_at self.now task) && not (is_some (posted_at self.now task)))) }
    {
        self.is_drawn_by(worker, task) && self.is_looked_at(task) && !self.is_posted(task)
    }

    // The task is the next to settle, and is posted.
    fn can_accept(&self, task: usize) -> bool
        ensures { result ≡ (task == length self.now.settled && is_some (posted_at self.now task)) }
    {
        self.is_next(task) && self.is_posted(task)
    }

    // The task is the next to settle.
    fn can_rerun(&self, task: usize) -> bool
        ensures { result ≡ (task == length self.now.settled && nat_lt task (length self.now.posted)) }
    {
        self.is_next(task) && task < self.posted.len()
    }

    fn is_next(&self, task: usize) -> bool
        ensures { result ≡ (task == length self.now.settled) }
    {
        task == self.settlings.len()
    }

    fn is_drawn_by(&self, worker: usize, task: usize) -> bool
        ensures { result ≡ is_drawn self.now worker task }
    {
        task < self.drawn.len() && self.drawn[task] == worker
    }

    fn is_looked_at(&self, task: usize) -> bool
        ensures { result ≡ is_some (seen_at self.now task) }
    {
        task < self.seen.len() && self.seen[task].is_some()
    }

    fn is_posted(&self, task: usize) -> bool
        ensures { result ≡ is_some (posted_at self.now task) }
    {
        task < self.posted.len() && self.posted[task].is_some()
    }
}

// A vector of `None`s.
fn nones<X: Drop>(alloc: Global, count: usize) -> Result<Vec<Option<X>>, AllocError>
    ensures { IfOk result (λ v. v.items ≡ replicate count None) }
{
    let mut all = Vec::with_capacity(alloc, count)?;
    for _ in 0..count {
        all.push(None)?;
    }
    Ok(all)
}
