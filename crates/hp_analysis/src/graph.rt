//! The triggering graph of a library, and how long its chains of firings are.

ghost use Rattle.std.specs.Prelude.{◌≡◌, map, Bool};
ghost use Rattle.std.specs.Global.{Vec};
ghost use Rattle.hp_analysis.specs.Sets.{targets};
ghost use Rattle.hp_analysis.specs.Graphs.{seen};

use crate::installs::installed;
use crate::kinds::declaration::Declaration;
use crate::links::Link;
use crate::sets::{is_within, spread, within_each};
use crate::triggers::Triggers;
use hp_rule::{Library, Unit};
use std::alloc::{AllocError, Global};

/// The triggering graph of a library, or of the rules that a script may ever install: which rules a firing of each
/// rule may trigger, whatever the state is.
#[derive(Debug, Drop)]
pub struct Graph<'a> {
    pub(crate) triggers: Triggers<'a>,
    // For each rule the rules that a firing of it may trigger.
    pub(crate) after: Vec<Vec<bool>>,
    ghost edges: { map (λ (set : Vec Bool). set.items) after.items
        ≡ map (targets (seen triggers)) (seen triggers).rules },
}

impl<'a> Graph<'a> {
    ghost use Rattle.std.specs.Prelude.{IfOk, ◌+◌, ◌++◌, ◌&&◌, nat_lt, true, false};
    ghost use Rattle.hp_rule.specs.Mapped.{unit};
    ghost use Rattle.hp_analysis.specs.Sets.{is_within, begun};
    ghost use Rattle.hp_analysis.specs.Tables.{within, IsLeast, script};
    ghost use Rattle.hp_analysis.specs.Reached.{reached};
    ghost use Rattle.hp_analysis.specs.Links.{rule_link};
    ghost use Rattle.hp_analysis.specs.Signalled.{links};
    ghost use Rattle.hp_rule.specs.Libraries as libraries;
    ghost use Rattle.hp_analysis.specs.Installed.{installed, with_only};
    ghost use Rattle.hp_analysis.specs.Depths.{library_depth, script_depth};
    ghost use Rattle.hp_analysis.specs.Declarations.{declared};
    ghost use Rattle.hp_analysis.specs.Outside.{raised};

    /// The graph of a library in which the rules outside the set do nothing.
    fn among(
        alloc: Global,
        library: &'a Library,
        present: Vec<bool>,
    ) -> Result<Graph<'a>, AllocError>
        ensures seen { IfOk result (λ graph.
            seen graph.triggers ≡ with_only present.items (libraries.library library.now)) }
        ensures present { IfOk result (λ graph. graph.triggers.present.items ≡ present.items) }
    {
        let triggers = Triggers::of(alloc, library, present)?;
        let after = triggers.targets(alloc)?;
        Ok(Graph { triggers, after })
    }

    /// The graph of a library.
    ///
    /// An error means that memory ran out.
    pub fn of(alloc: Global, library: &'a Library) -> Result<Graph<'a>, AllocError>
        ensures { IfOk result (λ graph. seen graph.triggers ≡ libraries.library library.now) }
    {
        Graph::among(alloc, library, Vec::new(alloc))
    }

    /// The graph of the rules that a script of these units may ever install: the other rules do nothing in it.
    ///
    /// The script does the same with this library (`laws::others_do_nothing`). An error means that memory ran out.
    pub fn of_installed(
        alloc: Global,
        library: &'a Library,
        units: &[Unit],
    ) -> Result<Graph<'a>, AllocError>
        ensures graph { IfOk result (λ graph. seen graph.triggers
            ≡ with_only (installed (libraries.library library.now) (map unit units.now))
            (libraries.library library.now)) }
        ensures present { IfOk result (λ graph. graph.triggers.present.items
            ≡ installed (libraries.library library.now) (map unit units.now)) }
    {
        let present = installed(alloc, library, units)?;
        Graph::among(alloc, library, present)
    }

    /// The rules of the graph, by their numbers: those that may ever be installed. The others do nothing in it.
    pub fn installed(&self) -> &[bool]
        ensures { result.now ≡ self.now.triggers.present.items }
    {
        &self.triggers.present
    }

    /// Which rules begin no chain of more than k + 1 firings, by those that begin none of more than k.
    pub(crate) fn next_table(
        &self,
        alloc: Global,
        k: u8,
        table: &[bool],
    ) -> Result<Vec<bool>, AllocError>
        requires { table.now ≡ within (seen self.now.triggers) k }
        ensures { IfOk result (λ next. next.items ≡ within (seen self.now.triggers) (k + 1)) }
    {
        within_each(alloc, table, &self.after)
    }

    /// The least number of firings, from 1 up to the depth limit, such that no chain that begins with one of the set
    /// has more.
    fn depth_from(&self, alloc: Global, set: &[bool]) -> Result<Option<u8>, AllocError>
        ensures { IfOk result (IsLeast
            (λ k. nat_lt 0 k && is_within (within (seen self.now.triggers) k) set.now)
            (seen self.now.triggers).depth_limit) }
    {
        let mut table = self.triggers.filled(alloc, false)?;
        for k in 0..self.triggers.depth_limit() {
            table = self.next_table(alloc, k, &table)?;
            if is_within(&table, set) {
                return Ok(Some(k + 1));
            }
        }
        Ok(None)
    }

    /// The number of firings of the longest chain, if no chain has more of them than may nest.
    ///
    /// Then no script with this library meets the depth limit, whatever its transactions are
    /// (`hp_model::laws::chains`).
    pub fn longest_chain(&self, alloc: Global) -> Result<Option<u8>, AllocError>
        ensures { IfOk result (λ depth. depth ≡ library_depth (seen self.now.triggers)) }
    {
        let set = self.triggers.filled(alloc, true)?;
        self.depth_from(alloc, &set)
    }

    /// The number of firings of the longest chain that one of these units begins, if no such chain has more of them
    /// than may nest; 1 if they trigger no rule.
    ///
    /// Then a script of these units doesn't meet the depth limit (`hp_model::laws::chains`).
    pub fn longest_chain_of(&self, alloc: Global, units: &[Unit]) -> Result<Option<u8>, AllocError>
        ensures { IfOk result (λ depth. depth
            ≡ script_depth (script (seen self.now.triggers) (map unit units.now))) }
    {
        let set = self.begun(alloc, units)?;
        self.depth_from(alloc, &set)
    }

    /// The rules that the units' own transactions may trigger.
    pub(crate) fn begun(&self, alloc: Global, units: &[Unit]) -> Result<Vec<bool>, AllocError>
        ensures { IfOk result (λ set. set.items ≡ begun (seen self.now.triggers)
            (map unit units.now) (map (λ r. false) (seen self.now.triggers).rules)) }
    {
        let mut set = self.triggers.filled(alloc, false)?;
        for unit in units {
            self.triggers.mark_unit(unit, &mut set);
        }
        Ok(set)
    }

    /// Why a firing of one rule may trigger another one, by the rules' numbers; nothing if it can't.
    ///
    /// What it names stands there (`laws::links_stand`). An error means that memory ran out.
    pub fn link(&self, alloc: Global, from: usize, to: usize) -> Result<Option<Link>, AllocError>
        ensures { IfOk result (λ l. links l ≡ rule_link (seen self.now.triggers) from to) }
    {
        self.triggers.link(alloc, from, to)
    }

    /// The rules that firings can reach from what these units trigger, by the rules' numbers.
    ///
    /// A script of these units fires no other rule (`laws::unreached_never_fire`).
    pub fn reached(&self, alloc: Global, units: &[Unit]) -> Result<Vec<bool>, AllocError>
        ensures { IfOk result (λ set. set.items
            ≡ reached (seen self.now.triggers) (map unit units.now)) }
    {
        let mut set = self.begun(alloc, units)?;
        spread(&mut set, &self.after);
        Ok(set)
    }

    /// The same with one more unit: a transaction that signals all that is declared. No argument of a signal makes a
    /// difference.
    pub fn reached_with(
        &self,
        alloc: Global,
        units: &[Unit],
        declaration: &Declaration,
    ) -> Result<Vec<bool>, AllocError>
        ensures { IfOk result (λ set. set.items
            ≡ reached (seen self.now.triggers) (map unit units.now ++ raised (declared declaration.now))) }
    {
        let mut set = self.begun(alloc, units)?;
        self.triggers.mark_raised(declaration, &mut set);
        spread(&mut set, &self.after);
        Ok(set)
    }
}
