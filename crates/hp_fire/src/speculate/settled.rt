//! The settled tasks of a group.

ghost use Rattle.std.specs.Prelude.{◌≡◌, ◌<◌, ◌↔◌, [], ◌∷◌, ◌++◌, None, IsTrue, IfOk, OnOk, length, option_map};
ghost use Rattle.hp_value.specs.Mapped.{veto as veto_in};
ghost use Rattle.hp_attempt.specs.Fronts.{stopped_by};

use hp_attempt::Outcome;
use hp_value::Veto;
use std::alloc::{AllocError, Global};

/// The results of a group's settled tasks, which are its first ones.
#[derive(Drop)]
pub(crate) struct Settled {
    /// The result of each, in order.
    pub(crate) outcomes: Vec<Outcome>,
    /// The veto that stopped the group; `None` if none did.
    pub(crate) end: Option<Veto>,
}

impl Settled {
    /// No task is settled, of this number.
    pub(crate) fn new(alloc: Global, tasks: usize) -> Result<Settled, AllocError>
        ensures { IfOk result (λ s. (s.outcomes.items ≡ []) × (s.end ≡ None)) }
    {
        Ok(Settled {
            outcomes: Vec::with_capacity(alloc, tasks)?,
            end: None,
        })
    }

    /// Whether a task is left to settle, of this number.
    pub(crate) fn goes_on(&self, tasks: usize) -> bool
        ensures { IsTrue result ↔ ((self.now.end ≡ None) × (length self.now.outcomes.items < tasks)) }
    {
        self.end.is_none() && self.outcomes.len() < tasks
    }

    /// Adds the firing of the next task, which the owner ran.
    pub(crate) fn add(&mut self, outcome: Outcome, stop_at_veto: bool) -> Result<(), AllocError>
        ensures outcomes { OnOk result (self.new.outcomes.items ≡ self.old.outcomes.items ++ outcome ∷ []) }
        ensures end { OnOk result (option_map veto_in self.new.end ≡ stopped_by stop_at_veto (outcome ∷ [])) }
    {
        self.end = stopping_veto(&outcome, stop_at_veto)?;
        self.outcomes.push(outcome)?;
        Ok(())
    }

    /// Adds the firings of the next tasks, whose attempts were accepted.
    pub(crate) fn add_front(
        &mut self,
        mut front: Vec<Outcome>,
        stop_at_veto: bool,
    ) -> Result<(), AllocError>
        ensures outcomes { OnOk result (self.new.outcomes.items ≡ self.old.outcomes.items ++ front.items) }
        ensures end { OnOk result (option_map veto_in self.new.end ≡ stopped_by stop_at_veto front.items) }
    {
        self.end = veto_of(&front, stop_at_veto)?;
        self.outcomes.append(&mut front)
    }
}

// The veto at which the firings stopped, if they stop at one.
fn veto_of(front: &[Outcome], stop_at_veto: bool) -> Result<Option<Veto>, AllocError>
    ensures { IfOk result (λ v. option_map veto_in v ≡ stopped_by stop_at_veto front.now) }
{
    match front.last() {
        Some(last) => stopping_veto(last, stop_at_veto),
        None => Ok(None),
    }
}

// The veto of a firing, if it stops the firing's group.
fn stopping_veto(outcome: &Outcome, stop_at_veto: bool) -> Result<Option<Veto>, AllocError>
    ensures { IfOk result (λ v. option_map veto_in v ≡ stopped_by stop_at_veto (outcome.now ∷ [])) }
{
    if !stop_at_veto {
        return Ok(None);
    }
    match &outcome.end {
        Some(veto) => Ok(Some(veto.clone()?)),
        None => Ok(None),
    }
}
