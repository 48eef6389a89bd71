//! The context of a statement.

ghost use Rattle.std.specs.Prelude.{◌≡◌, map, [], None};
ghost use Rattle.hp_model.specs.Firing.{with_row, with_let, action_context, answer_named};
ghost use Rattle.hp_model.specs.Cascade.{no_context};
ghost use Rattle.hp_value.specs.Mapped.{keyed_row, value as value_of};
ghost use Rattle.hp_query.specs.Mapped.{findings};
ghost use Rattle.hp_rule.specs.Mapped.{task as task_of};
ghost use Rattle.hp_fire.specs.Mapped as mapped;

use hp_query::Findings;
use hp_rule::Task;
use hp_value::{Answer, Env, Key, KeyedRow, Row, RuleNo, Value};

/// The context of a statement, besides the view.
#[derive(Clone, Copy)]
pub(crate) struct Context<'a> {
    /// The environment of its expressions, with the clock's moment.
    pub(crate) env: Env<'a>,
    /// The kept answers of the rule's condition; none in the body of a script.
    pub(crate) answers: &'a [Answer],
    /// The rule whose action it is; `None` in the body of a script.
    pub(crate) rule: Option<RuleNo>,
    /// The depth of the transaction around it.
    pub(crate) depth: u8,
}

impl<'a> Context<'a> {
    /// The context of the body of a script, which runs at this moment of the clock.
    pub(crate) fn of_script(depth: u8, time: u64) -> Context<'a>
        ensures context { mapped.context result ≡ no_context time }
        ensures depth { result.depth ≡ depth }
    {
        Context {
            env: Env::new(None, &[], &[], time),
            answers: &[],
            rule: None,
            depth,
        }
    }

    /// The context of a task's action, with what the condition found.
    pub(crate) fn of_action(task: &'a Task, found: &'a Findings) -> Context<'a>
        ensures context { mapped.context result ≡ action_context (task_of task.entry.now) (findings found.entry.now) }
        ensures depth { result.depth ≡ task.entry.now.depth }
    {
        Context {
            env: Env::new(
                Some(&task.occurrence),
                &found.answers,
                &found.values,
                task.time,
            ),
            answers: &found.answers,
            rule: Some(task.rule),
            depth: task.depth,
        }
    }

    /// This context with a name for a row.
    pub(crate) fn bound<'b>(&'b self, name: &'b str, key: Key, row: &'b Row) -> Context<'b>
        ensures context { mapped.context result
            ≡ with_row name.entry.now (record { key = key; row = row.entry.now }) (mapped.context self.entry.now) }
        ensures depth { result.depth ≡ self.entry.now.depth }
    {
        Context {
            env: self.env.bound(name, key, row),
            answers: self.answers,
            rule: self.rule,
            depth: self.depth,
        }
    }

    /// This context with a name for a value.
    pub(crate) fn holding<'b>(&'b self, name: &'b str, value: &'b Value) -> Context<'b>
        ensures context { mapped.context result
            ≡ with_let name.entry.now (value_of value.entry.now) (mapped.context self.entry.now) }
        ensures depth { result.depth ≡ self.entry.now.depth }
    {
        Context {
            env: self.env.holding(name, value),
            answers: self.answers,
            rule: self.rule,
            depth: self.depth,
        }
    }

    /// The rows of the kept answer of a query; none if no answer has this name.
    pub(crate) fn kept(&self, query: &str) -> &[KeyedRow]
        ensures { map keyed_row result.now ≡ answer_named (mapped.context self.now).answers query.now }
    {
        for answer in self.answers {
            if query == answer.name.as_str() {
                return &answer.rows;
            }
        }
        &[]
    }
}
