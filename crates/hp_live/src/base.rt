//! Rule bases.

ghost use Rattle.std.specs.Prelude.{◌≡◌, ◌++◌, List, IfOk, OnOk, map, string_bytes};
ghost use Rattle.hp_model.specs.Cascade.{run_units};
ghost use Rattle.hp_model.specs.Decode as D;
ghost use Rattle.hp_report.specs.Text.{Gains};
ghost use Rattle.hp_report.specs.Mapped.{unit_report};
ghost use Rattle.hp_rule.specs.Mapped.{library as model_library, unit as model_unit};
ghost use Rattle.hp_script.specs.Asked.{excerpt as model_excerpt};
ghost use Rattle.hp_script.specs.Mapped.{schedule as model_schedule};
ghost use Rattle.hp_script.specs.Versions.{version_view};
ghost use Rattle.hp_lines.specs.Live as L;
ghost use Rattle.hp_live.specs.Kept.{StandsFor};
ghost use Rattle.hp_live.specs.Running.{with_state, ran_base};

use crate::options::Options;
use hp_fire::{Past, Workers};
use hp_report::{class_text, object_text, state_text, units_text};
use hp_rule::{Library, Unit};
use hp_script::{Excerpt, Schedule, Version};
use hp_store::Store;
use hp_top::{Runner, opening};
use hp_tree::UnitReport;
use std::alloc::{AllocError, Global};
use std::fmt::Write;
use std::sync::Arc;

/// A rule base: its script's version and library, its state, its clock, and the number of units that have run.
///
/// Of the units only their number is kept.
#[derive(Drop)]
pub(crate) struct RuleBase {
    /// By its grammar later lines are read.
    pub version: Version,
    pub library: Arc<Library>,
    pub store: Store,
    pub clock: u64,
    pub units: usize,
    // The costs of the rules' last firings. By them later lines decide where workers pay.
    past: Past,
}

impl RuleBase {
    /// The rule base of a script of this version with this library, before its first unit, for this number of workers.
    pub(crate) fn new(
        alloc: Global,
        version: Version,
        library: Arc<Library>,
        workers: usize,
    ) -> Result<RuleBase, AllocError>
        ensures { IfOk result (λ base.
            StandsFor base (L.new_base (version_view version) (model_library library.value))) }
    {
        Ok(RuleBase {
            version,
            past: Past::new(alloc, &library, workers),
            library,
            store: opening(alloc)?,
            clock: 0,
            units: 0,
        })
    }

    /// Runs units on the current state. The answer is their reports. After an error some of the units may have run.
    fn run_units<T: Workers>(
        &mut self,
        workers: &T,
        alloc: Global,
        units: &[Unit],
        width: usize,
    ) -> Result<Vec<UnitReport>, AllocError>
        requires ready { T.ready workers.now }
        ensures reports { IfOk result (λ reports. (base : L.RuleBase) → StandsFor self.old base →
            map unit_report reports.items ≡ (run_units base.library (map model_unit units.now) base.state).units) }
        ensures state { OnOk result ((base : L.RuleBase) → StandsFor self.old base →
            StandsFor self.new (with_state base (run_units base.library (map model_unit units.now) base.state).state)) }
    {
        let runner = Runner::new(workers, alloc, &self.library, width, &self.past);
        let ran = runner.run_items(&mut self.store, units);
        let reports = ran.whole()?;
        Ok(reports)
    }

    /// Runs the units of an item, and makes the answer.
    ///
    /// An error means that memory ran out, or that the number of units exceeds 64 bits; some of them may have run.
    pub(crate) fn run<T: Workers>(
        &mut self,
        workers: &T,
        alloc: Global,
        schedule: Schedule,
        options: Options,
    ) -> Result<String, AllocError>
        requires ready { T.ready workers.now }
        ensures text { IfOk result (λ text. (base : L.RuleBase) → StandsFor self.old base →
            string_bytes text
            ≡ (L.ran options.tree base (model_schedule schedule)).body
            ++ (L.ran options.tree base (model_schedule schedule)).last) }
        ensures state { OnOk result ((base : L.RuleBase) → StandsFor self.old base →
            StandsFor self.new (ran_base base (model_schedule schedule))) }
    {
        let reports = self.run_units(workers, alloc, &schedule.units, options.workers)?;
        let first = self.units.checked_add(1).ok_or(AllocError)?;
        let above = first.checked_add(reports.len()).ok_or(AllocError)?;
        let mut text = units_text(alloc, &self.library, options.tree, first, &reports)?;
        self.units = above - 1;
        self.clock = schedule.clock;
        put_ok(&mut text, self.units)?;
        Ok(text)
    }

    /// A part of the current state, as the lines of an answer.
    pub(crate) fn show(&self, alloc: Global, excerpt: Excerpt) -> Result<String, AllocError>
        ensures { IfOk result (λ text. (base : L.RuleBase) → StandsFor self.now base →
            string_bytes text
            ≡ L.excerpt_text base.library base.state (model_excerpt excerpt) ++ L.ok_line base.units) }
    {
        let mut text = self.excerpt_text(alloc, excerpt)?;
        put_ok(&mut text, self.units)?;
        Ok(text)
    }

    /// The lines of a part of the current state.
    fn excerpt_text(&self, alloc: Global, excerpt: Excerpt) -> Result<String, AllocError>
        ensures { IfOk result (λ text. (base : L.RuleBase) → StandsFor self.now base →
            string_bytes text ≡ L.excerpt_text base.library base.state (model_excerpt excerpt)) }
    {
        match excerpt {
            Excerpt::State => state_text(alloc, &self.library, &self.store),
            Excerpt::Class(class) => class_text(alloc, &self.library, &self.store, class),
            Excerpt::Object(class, key) => {
                object_text(alloc, &self.library, &self.store, class, key)
            }
        }
    }
}

/// Adds the last line of an answer, with the number of units so far.
fn put_ok(out: &mut String, units: usize) -> Result<(), AllocError>
    ensures { OnOk result (Gains out.old out.new (L.ok_line units)) }
{
    writeln!(out, "ok {units}")
}
