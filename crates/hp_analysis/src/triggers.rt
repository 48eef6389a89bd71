//! Which rules statements, firings and units may trigger.

ghost use Rattle.std.specs.Prelude.{◌≡◌};
ghost use Rattle.hp_model.specs.Occurrences.{Primitive};
ghost use Rattle.hp_rule.specs.Libraries as libraries;
ghost use Rattle.hp_rule.specs.RuleLists.{listed};
ghost use Rattle.hp_analysis.specs.Listeners.{ending};
ghost use Rattle.hp_analysis.specs.Installed.{with_only};

use crate::forms::{completes, is_plain, may_detach};
use crate::kinds::declaration::Declaration;
use crate::links::{Link, Target, body_link, commit_link};
use crate::listeners::{listeners_of, listening, no_class};
use crate::sets::{filled, has, mark, mark_all};
use hp_event::Pattern;
use hp_rule::{EventExpr, Library, Member, Place, Rule, RuleLists, Stmt, Subject, Unit};
use hp_value::Prim;
use std::alloc::{AllocError, Global};

/// A library of which only some rules do anything, with its listeners.
#[derive(Debug, Drop)]
pub(crate) struct Triggers<'a> {
    library: &'a Library,
    // The rules that do something; a rule that the set has no place for counts as one.
    pub(crate) present: Vec<bool>,
    listeners: RuleLists,
    // The listeners are those of the library in which the others do nothing.
    ghost of_rules: { (p : Primitive) →
        listed listeners p ≡ ending (with_only present.items (libraries.library library.now)).rules p },
}

impl<'a> Triggers<'a> {
    ghost use Rattle.std.specs.Prelude.{IfOk, Bool, map, length, slice_get, true, []};
    ghost use Rattle.std.specs.Global.{Vec};
    ghost use Rattle.hp_model.specs.Occurrences.{commit_reached, moment_reached, signalled};
    ghost use Rattle.hp_model.specs.Chains.{completes, statement_triggers, body_triggers, rule_triggers};
    ghost use Rattle.hp_model.specs.Chains.{unit_triggers, signal_triggers};
    ghost use Rattle.hp_rule.specs.Statements.{statement, body_in, rule};
    ghost use Rattle.hp_rule.specs.Mapped.{unit};
    ghost use Rattle.hp_analysis.specs.Sets.{marked, targets, begun_by};
    ghost use Rattle.hp_analysis.specs.Listeners.{is_plain};
    ghost use Rattle.hp_analysis.specs.Installed.{rule_in};
    ghost use Rattle.hp_detect.specs.Mapped.{event};
    ghost use Rattle.hp_analysis.specs.Graphs.{seen};
    ghost use Rattle.hp_analysis.specs.Links.{rule_link, link_between, link_onward};
    ghost use Rattle.hp_analysis.specs.Signalled.{links};
    ghost use Rattle.hp_analysis.specs.Declarations.{declared};
    ghost use Rattle.hp_analysis.specs.Outside.{signals_in, raised};
    ghost use Rattle.hp_analysis.specs.Sets.{begun};

    /// The triggers of a library in which the rules outside the set do nothing.
    ///
    /// An error means that memory ran out, or that there are more rules or classes than numbers for them.
    pub(crate) fn of(
        alloc: Global,
        library: &'a Library,
        present: Vec<bool>,
    ) -> Result<Triggers<'a>, AllocError>
        ensures seen { IfOk result (λ t. seen t ≡ with_only present.items (libraries.library library.now)) }
        ensures present { IfOk result (λ t. t.present.items ≡ present.items) }
    {
        let listeners = listeners_of(alloc, library, &present)?;
        Ok(Triggers {
            library,
            present,
            listeners,
        })
    }

    /// The depth limit of firings.
    pub(crate) fn depth_limit(&self) -> u8
        ensures { result ≡ (seen self.now).depth_limit }
    {
        self.library.depth_limit()
    }

    /// The set of all rules, or of none.
    pub(crate) fn filled(&self, alloc: Global, member: bool) -> Result<Vec<bool>, AllocError>
        ensures { IfOk result (λ set. set.items ≡ map (λ r. member) (seen self.now).rules) }
    {
        filled(alloc, self.library, member)
    }

    /// Adds the rules that a statement without statements in it may trigger.
    fn mark_own(&self, s: &Stmt, set: &mut Vec<bool>)
        requires { is_plain (statement s.now) ≡ true }
        ensures { set.new.items
            ≡ marked (statement_triggers (seen self.now) (statement s.now)) set.old.items }
    {
        mark_all(set, listening(&self.listeners, s));
    }

    /// Adds the rules that a statement may trigger.
    #[cycle(statement)]
    fn mark_statement(&self, s: &Stmt, set: &mut Vec<bool>)
        ensures { set.new.items
            ≡ marked (statement_triggers (seen self.now) (statement s.now)) set.old.items }
    {
        if is_plain(s) {
            self.mark_own(s, set);
            return;
        }
        match s {
            Stmt::If {
                then_body,
                else_body,
                ..
            } => {
                self.mark_body(then_body, set);
                self.mark_body(else_body, set);
            }
            Stmt::Each { body, .. } => self.mark_body(body, set),
            Stmt::For { body, .. } => self.mark_body(body, set),
            Stmt::With { body, .. } => self.mark_body(body, set),
            Stmt::Let { body, .. } => self.mark_body(body, set),
            Stmt::Sub { body, otherwise } => {
                self.mark_body(body, set);
                self.mark_body(otherwise, set);
            }
            Stmt::Fire(number) => mark(set, *number as usize),
            _ => {}
        }
    }

    /// Adds the rules that a body may trigger.
    #[cycle(statement)]
    pub(crate) fn mark_body(&self, body: &[Stmt], set: &mut Vec<bool>)
        ensures { set.new.items
            ≡ marked (body_triggers (seen self.now) (body_in body.now)) set.old.items }
    {
        for s in body {
            self.mark_statement(s, set);
        }
    }

    /// Adds the rules that a commit event may trigger.
    fn mark_commit(&self, set: &mut Vec<bool>)
        ensures { set.new.items
            ≡ marked (signal_triggers (seen self.now) commit_reached) set.old.items }
    {
        mark_all(set, self.listeners.rules(Subject::Commit));
    }

    /// Adds the rules that the action of this rule may trigger.
    fn mark_action(&self, number: usize, fired: &Rule, set: &mut Vec<bool>)
        ensures { set.new.items ≡ marked (body_triggers (seen self.now) (rule_in self.now.present.items
            (length (seen self.now).classes) number (rule fired.now)).action) set.old.items }
    {
        if has(&self.present, number) {
            self.mark_body(&fired.action, set);
        }
    }

    /// Adds the rules that a firing of this rule may trigger.
    fn mark_rule(&self, number: usize, fired: &Rule, set: &mut Vec<bool>)
        ensures { set.new.items ≡ marked (rule_triggers (seen self.now) (rule_in self.now.present.items
            (length (seen self.now).classes) number (rule fired.now))) set.old.items }
    {
        self.mark_action(number, fired, set);
        if may_detach(fired) {
            self.mark_commit(set);
        }
    }

    /// Whether an occurrence of the event of this rule may end with the moment.
    fn may_wait_for(&self, number: usize, waiting: &Rule, time: u64) -> bool
        ensures { result ≡ completes (rule_in self.now.present.items
            (length (seen self.now).classes) number (rule waiting.now)).event (moment_reached time) }
    {
        if !has(&self.present, number) {
            return false;
        }
        let moment = Prim::Time(time);
        completes(&waiting.event, &moment)
    }

    /// Adds the rules that this moment may trigger.
    fn mark_time(&self, time: u64, set: &mut Vec<bool>)
        ensures { set.new.items ≡ marked (signal_triggers (seen self.now) (moment_reached time)) set.old.items }
    {
        for (n, rule) in self.library.rules().iter().enumerate() {
            if self.may_wait_for(n, rule, time) {
                mark(set, n);
            }
        }
    }

    /// Adds the rules that a unit's own transaction may trigger before its commit event.
    fn mark_begun(&self, begun: &Unit, set: &mut Vec<bool>)
        ensures { set.new.items
            ≡ marked (begun_by (seen self.now) (unit begun.now)) set.old.items }
    {
        match begun {
            Unit::Transaction { body, .. } => self.mark_body(body.statements(), set),
            Unit::Moment(time) => self.mark_time(*time, set),
        }
    }

    /// Adds the rules that a unit's own transaction may trigger.
    pub(crate) fn mark_unit(&self, begun: &Unit, set: &mut Vec<bool>)
        ensures { set.new.items
            ≡ marked (unit_triggers (seen self.now) (unit begun.now)) set.old.items }
    {
        self.mark_begun(begun, set);
        self.mark_commit(set);
    }

    /// Adds the rules that a signal of this name may trigger.
    fn mark_signal(&self, name: &str, set: &mut Vec<bool>)
        ensures { set.new.items
            ≡ marked (signal_triggers (seen self.now) (signalled name.now [])) set.old.items }
    {
        mark_all(set, self.listeners.rules(Subject::Signalled(name)));
    }

    /// Adds the rules that the signals which are declared may trigger.
    fn mark_signals(&self, declaration: &Declaration, set: &mut Vec<bool>)
        ensures { set.new.items ≡ marked (body_triggers (seen self.now)
            (signals_in (declared declaration.now).signatures)) set.old.items }
    {
        for (name, _) in declaration.signatures.iter() {
            self.mark_signal(name, set);
        }
    }

    /// Adds the rules that a transaction may trigger which signals all that is declared, if anything is.
    pub(crate) fn mark_raised(&self, declaration: &Declaration, set: &mut Vec<bool>)
        ensures { set.new.items ≡ begun (seen self.now) (raised (declared declaration.now)) set.old.items }
    {
        if declaration.signatures.is_empty() {
            return;
        }
        self.mark_signals(declaration, set);
        self.mark_commit(set);
    }

    /// For each rule of the library the rules that a firing of it may trigger.
    pub(crate) fn targets(&self, alloc: Global) -> Result<Vec<Vec<bool>>, AllocError>
        ensures { IfOk result (λ (sets : Vec (Vec Bool)). map (λ (set : Vec Bool). set.items) sets.items
            ≡ map (targets (seen self.now)) (seen self.now).rules) }
    {
        let mut sets = Vec::new(alloc);
        for (n, rule) in self.library.rules().iter().enumerate() {
            let mut set = self.filled(alloc, false)?;
            self.mark_rule(n, rule, &mut set);
            sets.push(set)?;
        }
        Ok(sets)
    }

    /// The link from a rule of this number to what is to be triggered.
    fn link_from(
        &self,
        number: usize,
        acting: &Rule,
        target: Target<'_>,
    ) -> Result<Option<Link>, AllocError>
        ensures { IfOk result (λ l. links l ≡ link_between number (rule_in self.now.present.items
            (length (seen self.now).classes) number (rule acting.now)) target.entry.number
            (event target.entry.event.now)) }
    {
        if has(&self.present, number) {
            let rules = Place::Member(Member::Rules);
            let place = rules.item(number);
            if let Some(link) = body_link(&acting.action, &place.item(5), target)? {
                return Ok(Some(link));
            }
        }
        commit_link(number, acting, target)
    }

    /// The link from one rule to another.
    fn link_to(
        &self,
        alloc: Global,
        from: usize,
        acting: &Rule,
        to: usize,
        next: &Rule,
    ) -> Result<Option<Link>, AllocError>
        ensures { IfOk result (λ l. links l ≡ link_between from (rule_in self.now.present.items
            (length (seen self.now).classes) from (rule acting.now)) to
            (rule_in self.now.present.items (length (seen self.now).classes) to (rule next.now)).event) }
    {
        if has(&self.present, to) {
            let event = &next.event;
            let number = to;
            return self.link_from(
                from,
                acting,
                Target {
                    alloc,
                    number,
                    event,
                },
            );
        }
        let none = EventExpr::One(Pattern::Create(no_class(self.library)?));
        let event = &none;
        let number = to;
        self.link_from(
            from,
            acting,
            Target {
                alloc,
                number,
                event,
            },
        )
    }

    /// The link from one rule to that of a number.
    fn link_to_number(
        &self,
        alloc: Global,
        from: usize,
        acting: &Rule,
        to: usize,
    ) -> Result<Option<Link>, AllocError>
        ensures { IfOk result (λ l. links l ≡ link_onward from (rule_in self.now.present.items
            (length (seen self.now).classes) from (rule acting.now)) to (slice_get (seen self.now).rules to)) }
    {
        match self.library.rules().get(to) {
            Some(next) => self.link_to(alloc, from, acting, to, next),
            None => Ok(None),
        }
    }

    /// Why a firing of one rule may trigger another one; nothing if it can't.
    pub(crate) fn link(
        &self,
        alloc: Global,
        from: usize,
        to: usize,
    ) -> Result<Option<Link>, AllocError>
        ensures { IfOk result (λ l. links l ≡ rule_link (seen self.now) from to) }
    {
        match self.library.rules().get(from) {
            Some(acting) => self.link_to_number(alloc, from, acting, to),
            None => Ok(None),
        }
    }
}
