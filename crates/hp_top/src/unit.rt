//! Units: on a view, as attempts, and on the committed store.

ghost use Rattle.std.specs.Prelude.{◌≡◌, IfOk, OnErr};
ghost use Rattle.hp_model.specs.Cascade.{time_of};
ghost use Rattle.hp_model.specs.Cells.{Holds, ReadHolds};
ghost use Rattle.hp_model.specs.Sessions.{HasFitState};
ghost use Rattle.hp_rule.specs.Mapped.{library, unit as unit_of};
ghost use Rattle.hp_store.specs.Changes.{changes};
ghost use Rattle.hp_store.specs.Stack.{cells_in};
ghost use Rattle.hp_tree.specs.Mapped.{unit_report};
ghost use Rattle.hp_view.specs.Mapped.{read};
ghost use Rattle.hp_top.specs.Runs.{RunsUnit};
ghost use Rattle.hp_top.specs.Units.{IsSoundUnit, RanUnit, IsReplayed, IsLawful, IsUnitOf};

use crate::generations::due;
use crate::runner::Runner;
use hp_fire::{Past, Workers};
use hp_rule::{Library, Unit};
use hp_store::{Layer, Snapshot, Store};
use hp_tree::{TopReport, UnitReport};
use hp_view::{Found, Reads, Seen, View};
use std::alloc::{AllocError, Global};
use std::sync::Arc;

impl<W: Workers> Runner<'_, W> {
    /// Runs a unit on the view: its own transaction, and the cascade of what that detaches. The answer is its report.
    pub(crate) fn run_unit_on(&self, view: &mut View, unit: &Unit) -> Result<UnitReport, AllocError>
        requires ready { W.ready self.now.engine.workers.now }
        ensures { IfOk result (λ r.
            RunsUnit (library self.now.engine.lib.now) (unit_of unit.now) view.old view.new (unit_report r)) }
    {
        let top = self.run_top(view, unit)?;
        let tasks = due(self.alloc(), top.detached)?;
        let mut tops = Vec::new(self.alloc());
        tops.push(TopReport {
            task: None,
            end: top.end,
            tree: top.tree,
        })?;
        let mut later = self.cascade(view, tasks)?;
        tops.append(&mut later)?;
        Ok(UnitReport {
            moment: moment_of(unit),
            tops,
        })
    }

    /// Tries a unit on a snapshot.
    pub fn attempt_unit(&self, snapshot: Snapshot, unit: &Unit) -> Result<UnitAttempt, AllocError>
        requires ready { W.ready self.now.engine.workers.now }
        ensures sound { IfOk result (λ a.
            IsSoundUnit (library self.now.engine.lib.now) (unit_of unit.now) a.reads (changes a.layer.value)
            (unit_report a.report)) }
        ensures reads_held { IfOk result (λ a. Holds (cells_in snapshot) a.reads) }
    {
        let mut view = View::new(self.alloc(), snapshot)?;
        let report = self.run_unit_on(&mut view, unit)?;
        let (reads, layer) = view.into_parts();
        Ok(UnitAttempt {
            reads,
            layer,
            report,
        })
    }

    /// Runs a unit on the committed store. The answer is its report.
    ///
    /// The changes go into the store in place if nobody else holds a snapshot of it, at a cost that depends only on
    /// what they change. A class that the unit read as a whole stays listed for later units, until one of its objects
    /// changes a second time without such a read in between. A list goes on under the first change at the cost of one
    /// pass over it. An error means that memory ran out; the store is then as before.
    pub fn run_unit(&self, store: &mut Store, unit: &Unit) -> Result<UnitReport, AllocError>
        requires ready { W.ready self.now.engine.workers.now }
        ensures ran { IfOk result (λ r.
            RanUnit (library self.now.engine.lib.now) (unit_of unit.now) (cells_in store.old) (cells_in store.new)
            (unit_report r)) }
        ensures replayed { IfOk result (λ r.
            IsReplayed (library self.now.engine.lib.now) (unit_of unit.now) (cells_in store.old) (unit_report r)) }
        ensures lawful { IfOk result (λ r.
            IsLawful (library self.now.engine.lib.now) (unit_of unit.now) (cells_in store.old) (unit_report r)) }
        ensures fit { IfOk result (λ r.
            IsUnitOf (library self.now.engine.lib.now) (unit_of unit.now) →
            HasFitState (library self.now.engine.lib.now) (cells_in store.old) →
            HasFitState (library self.now.engine.lib.now) (cells_in store.new)) }
        ensures err { OnErr result (store.new ≡ store.old) }
    {
        keep_indexes(self.alloc(), store, self.engine.lib)?;
        let snapshot = store.snapshot()?;
        let attempt = self.attempt_unit(snapshot, unit)?;
        keep_lists(store, &attempt.reads)?;
        store.apply(self.alloc(), attempt.layer)?;
        Ok(attempt.report)
    }
}

/// The moment of a unit, if it is one.
fn moment_of(unit: &Unit) -> Option<u64>
    ensures { result ≡ time_of (unit_of unit.now) }
{
    match unit {
        Unit::Transaction { .. } => None,
        Unit::Moment(time) => Some(*time),
    }
}

/// A unit as it was tried on a snapshot. It stands for the unit on each state in which its reads hold.
#[derive(Debug, Drop)]
pub struct UnitAttempt {
    /// What it read of the snapshot.
    pub reads: Reads,
    /// What it wrote over the snapshot.
    pub layer: Arc<Layer>,
    /// Its report.
    pub report: UnitReport,
}

/// Tries a unit on a snapshot. Groups of firings use at most `width` threads.
pub fn attempt_unit<W: Workers>(
    workers: &W,
    alloc: Global,
    lib: &Library,
    snapshot: Snapshot,
    unit: &Unit,
    width: usize,
) -> Result<UnitAttempt, AllocError>
    requires ready { W.ready workers.now }
    ensures sound { IfOk result (λ a.
        IsSoundUnit (library lib.now) (unit_of unit.now) a.reads (changes a.layer.value) (unit_report a.report)) }
    ensures reads_held { IfOk result (λ a. Holds (cells_in snapshot) a.reads) }
{
    let past = Past::new(alloc, lib, width);
    let attempt = Runner::new(workers, alloc, lib, width, &past).attempt_unit(snapshot, unit)?;
    Ok(attempt)
}

/// Runs a unit on the committed store. The answer is its report.
///
/// Groups of firings use at most `width` threads. The changes go into the store in place if nobody else holds a
/// snapshot of it, at a cost that depends only on what they change. A class that the unit read as a whole stays listed
/// for later units, until one of its objects changes a second time without such a read in between. A list goes on under
/// the first change at the cost of one pass over it. An error means that memory ran out; the store is then as before.
pub fn run_unit<W: Workers>(
    workers: &W,
    alloc: Global,
    lib: &Library,
    store: &mut Store,
    unit: &Unit,
    width: usize,
) -> Result<UnitReport, AllocError>
    requires ready { W.ready workers.now }
    ensures ran { IfOk result (λ r.
        RanUnit (library lib.now) (unit_of unit.now) (cells_in store.old) (cells_in store.new) (unit_report r)) }
    ensures replayed { IfOk result (λ r.
        IsReplayed (library lib.now) (unit_of unit.now) (cells_in store.old) (unit_report r)) }
    ensures lawful { IfOk result (λ r.
        IsLawful (library lib.now) (unit_of unit.now) (cells_in store.old) (unit_report r)) }
    ensures fit { IfOk result (λ r.
        IsUnitOf (library lib.now) (unit_of unit.now) → HasFitState (library lib.now) (cells_in store.old) →
        HasFitState (library lib.now) (cells_in store.new)) }
    ensures err { OnErr result (store.new ≡ store.old) }
{
    let past = Past::new(alloc, lib, width);
    let report = Runner::new(workers, alloc, lib, width, &past).run_unit(store, unit)?;
    Ok(report)
}

/// Makes the store keep an index of each field by which queries of the library's rules find objects. If it has them
/// already, this costs one look-up each.
///
/// An error means that memory ran out; the store then keeps some of the indexes.
pub fn keep_indexes(alloc: Global, store: &mut Store, lib: &Library) -> Result<(), AllocError>
    ensures { store.new ≡ store.old }
{
    for asked in lib.asked_fields() {
        store.keep_index(alloc, asked.class, asked.field.as_str())?;
    }
    Ok(())
}

// Keeps the lists of the classes that were read as a whole.
fn keep_lists(store: &mut Store, reads: &Reads) -> Result<(), AllocError>
    requires { Holds (cells_in store.old) reads.now }
    ensures { store.new ≡ store.old }
{
    for (seen, found) in reads.iter() {
        keep_list(store, seen, found)?;
    }
    Ok(())
}

// Keeps the list of a class, if a read has one.
fn keep_list(store: &mut Store, seen: &Seen, found: &Found) -> Result<(), AllocError>
    requires { ReadHolds (cells_in store.old) (read (seen.now, found.now)) }
    ensures { store.new ≡ store.old }
{
    if let (Seen::Keys(class), Found::Objects(objects)) = (seen, found) {
        store.keep_objects(*class, Arc::try_clone(objects)?)?;
    }
    Ok(())
}
