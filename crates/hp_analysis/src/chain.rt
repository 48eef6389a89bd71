//! Chains of more firings than may nest, as reasons why a library or a script isn't safe.

use crate::graph::Graph;
use crate::sets::first_outside;
use hp_rule::Unit;
use std::alloc::{AllocError, Global};

impl Graph<'_> {
    ghost use Rattle.std.specs.Prelude.{◌≡◌, ◌++◌, IfOk, OnOk, map};
    ghost use Rattle.hp_model.specs.Rules.{rule_at};
    ghost use Rattle.hp_rule.specs.Mapped.{unit};
    ghost use Rattle.hp_analysis.specs.Sets.{targets, outside_from};
    ghost use Rattle.hp_analysis.specs.Graphs.{seen};
    ghost use Rattle.hp_analysis.specs.Tables.{within};
    ghost use Rattle.hp_analysis.specs.Witness.{chain_from, chain_of, library_chain, script_chain};

    /// Which rules begin no chain of more than `most` firings.
    fn table(&self, alloc: Global, most: u8) -> Result<Vec<bool>, AllocError>
        ensures { IfOk result (λ table. table.items
            ≡ within (seen self.now.triggers) most) }
    {
        let mut table = self.triggers.filled(alloc, false)?;
        for k in 0..most {
            table = self.next_table(alloc, k, &table)?;
        }
        Ok(table)
    }

    /// The first rule that a firing of this one may trigger and that isn't in the table.
    fn first_leading(&self, table: &[bool], number: usize) -> Option<usize>
        ensures { result ≡ outside_from table.now 0 (targets (seen self.now.triggers)
            (rule_at (seen self.now.triggers) number)) }
    {
        if number < self.after.len() {
            return first_outside(table, &self.after[number]);
        }
        None
    }

    /// Adds a chain of more than `more` firings that begins with a firing of the rule.
    fn add_chain(
        &self,
        alloc: Global,
        chain: &mut Vec<usize>,
        more: u8,
        number: usize,
    ) -> Result<(), AllocError>
        ensures { OnOk result (chain.new.items
            ≡ chain.old.items ++ chain_from (seen self.now.triggers) more number) }
    {
        chain.push(number)?;
        if more == 0 {
            return Ok(());
        }
        let table = self.table(alloc, more - 1)?;
        match self.first_leading(&table, number) {
            Some(next) => self.add_chain(alloc, chain, more - 1, next),
            None => Ok(()),
        }
    }

    /// A chain of more firings than may nest that begins with a firing of one of the set; empty if there is none.
    fn chain_of(&self, alloc: Global, set: &[bool]) -> Result<Vec<usize>, AllocError>
        ensures { IfOk result (λ chain. chain.items
            ≡ chain_of (seen self.now.triggers) set.now) }
    {
        let limit = self.triggers.depth_limit();
        let table = self.table(alloc, limit)?;
        let mut chain = Vec::new(alloc);
        if let Some(first) = first_outside(&table, set) {
            self.add_chain(alloc, &mut chain, limit, first)?;
        }
        Ok(chain)
    }

    /// A chain of more firings than may nest, by the rules' numbers; empty if there is none.
    ///
    /// Each rule may trigger the next one (`laws::chain_is_path`).
    pub fn too_long(&self, alloc: Global) -> Result<Vec<usize>, AllocError>
        ensures { IfOk result (λ chain. chain.items
            ≡ library_chain (seen self.now.triggers)) }
    {
        let set = self.triggers.filled(alloc, true)?;
        self.chain_of(alloc, &set)
    }

    /// A chain of more firings than may nest that one of these units begins, by the rules' numbers; empty if there is
    /// none.
    pub fn too_long_of(&self, alloc: Global, units: &[Unit]) -> Result<Vec<usize>, AllocError>
        ensures { IfOk result (λ chain. chain.items
            ≡ script_chain (seen self.now.triggers) (map unit units.now)) }
    {
        let set = self.begun(alloc, units)?;
        self.chain_of(alloc, &set)
    }
}
