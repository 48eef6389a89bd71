//! Sequences of units on the committed store.

ghost use Rattle.std.specs.Prelude.{◌≡◌, ◌<◌, IfOk, OnOk, OnErr, IsSome, None, length, map};
ghost use Rattle.std.specs.List.{AllByRecursion};
ghost use Rattle.hp_model.specs.Sessions.{HasFitState};
ghost use Rattle.hp_rule.specs.Mapped.{library, unit as unit_of};
ghost use Rattle.hp_store.specs.Stack.{cells_in};
ghost use Rattle.hp_tree.specs.Mapped.{unit_report};
ghost use Rattle.hp_top.specs.Units.{RanUnits, RanNext, AreReplayed, IsOpening, IsUnitOf};

use crate::runner::Runner;
use hp_fire::{Past, Workers};
use hp_rule::{Library, Unit};
use hp_store::Store;
use hp_tree::UnitReport;
use std::alloc::{AllocError, Global};

impl<W: Workers> Runner<'_, W> {
    /// Runs units on the committed store, one after another, up to the first for which memory runs out.
    ///
    /// The reports are those of the units before it, and the store is as the last of these left it.
    pub fn run_items(&self, store: &mut Store, items: &[Unit]) -> Items
        requires ready { W.ready self.now.engine.workers.now }
        ensures ran { RanUnits (library self.now.engine.lib.now) (map unit_of items.now) (cells_in store.old)
            (cells_in store.new) (map unit_report result.reports.items) }
        ensures replayed { AreReplayed (library self.now.engine.lib.now) (map unit_of items.now) (cells_in store.old)
            (map unit_report result.reports.items) }
        ensures fit { AllByRecursion (λ u. IsUnitOf (library self.now.engine.lib.now) u) (map unit_of items.now) →
            HasFitState (library self.now.engine.lib.now) (cells_in store.old) →
            HasFitState (library self.now.engine.lib.now) (cells_in store.new) }
        ensures all { result.stopped ≡ None → length result.reports.items ≡ length items.now }
        ensures cut { IsSome result.stopped → length result.reports.items < length items.now }
    {
        let mut reports = Vec::new(self.alloc());
        for unit in items {
            if let Err(error) = self.run_next(store, unit, &mut reports) {
                return Items {
                    reports,
                    stopped: Some(error),
                };
            }
        }
        Items {
            reports,
            stopped: None,
        }
    }

    /// Runs one more unit. Space for its report is reserved before it runs.
    ///
    /// An error means that memory ran out; the store and the reports are then as before.
    fn run_next(
        &self,
        store: &mut Store,
        unit: &Unit,
        reports: &mut Vec<UnitReport>,
    ) -> Result<(), AllocError>
        requires ready { W.ready self.now.engine.workers.now }
        ensures ok { OnOk result (
            RanNext (library self.now.engine.lib.now) (unit_of unit.now) (cells_in store.old) (cells_in store.new)
            (map unit_report reports.old.items) (map unit_report reports.new.items)) }
        ensures err { OnErr result (store.new ≡ store.old) }
        ensures none { OnErr result (reports.new.items ≡ reports.old.items) }
    {
        reports.reserve(1)?;
        let report = self.run_unit(store, unit)?;
        reports.push_reserved(report);
        Ok(())
    }
}

/// The results of a sequence of units.
#[derive(Debug, Drop)]
pub struct Items {
    /// The report of each unit that ran, in order.
    pub reports: Vec<UnitReport>,
    /// Why no further unit ran; `None` if all ran.
    pub stopped: Option<AllocError>,
}

impl Items {
    /// The reports of all units; an error if some didn't run.
    pub fn whole(self) -> Result<Vec<UnitReport>, AllocError>
        ensures all { IfOk result (λ units. units ≡ self.reports) }
        ensures unstopped { OnOk result (self.stopped ≡ None) }
        ensures stopped { OnErr result (IsSome self.stopped) }
    {
        match self.stopped {
            Some(error) => Err(error),
            None => Ok(self.reports),
        }
    }
}

/// The store before a script's first unit: it has no object and no rule.
pub fn opening(alloc: Global) -> Result<Store, AllocError>
    ensures { IfOk result (λ s. IsOpening (cells_in s)) }
{
    let store = Store::empty(alloc)?;
    Ok(store)
}

/// Runs units on the committed store, one after another, up to the first for which memory runs out.
///
/// The reports are those of the units before it, and the store is as the last of these left it. Groups of firings use
/// at most `width` threads.
pub fn run_items<W: Workers>(
    workers: &W,
    alloc: Global,
    lib: &Library,
    store: &mut Store,
    items: &[Unit],
    width: usize,
) -> Items
    requires ready { W.ready workers.now }
    ensures ran { RanUnits (library lib.now) (map unit_of items.now) (cells_in store.old) (cells_in store.new)
        (map unit_report result.reports.items) }
    ensures replayed { AreReplayed (library lib.now) (map unit_of items.now) (cells_in store.old)
        (map unit_report result.reports.items) }
    ensures fit { AllByRecursion (λ u. IsUnitOf (library lib.now) u) (map unit_of items.now) →
        HasFitState (library lib.now) (cells_in store.old) → HasFitState (library lib.now) (cells_in store.new) }
    ensures all { result.stopped ≡ None → length result.reports.items ≡ length items.now }
    ensures cut { IsSome result.stopped → length result.reports.items < length items.now }
{
    let past = Past::new(alloc, lib, width);
    Runner::new(workers, alloc, lib, width, &past).run_items(store, items)
}
