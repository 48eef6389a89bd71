//! The part of statements before their event is signalled.

ghost use Rattle.std.specs.Prelude.{◌≡◌, ℤ, Ok, IfOk, OnOk, map, option_to_list};
ghost use Rattle.hp_model.specs.Cells.{object_cell};
ghost use Rattle.hp_model.specs.Tree.{without_detachments};
ghost use Rattle.hp_model.specs.Rules as rules;
ghost use Rattle.hp_model.specs.Firing as model;
ghost use Rattle.hp_model.specs.Firing.{Level, level_at, values_of, boolean_value};
ghost use Rattle.hp_model.specs.Conditions as conditions;
ghost use Rattle.hp_model.specs.Answers.{followed, tells};
ghost use Rattle.hp_model.specs.Operations.{operation_items};
ghost use Rattle.hp_value.specs.Mapped.{Meets, environment, expression, keyed_row, primitive, rule_operation};
ghost use Rattle.hp_value.specs.Mapped.{value as value_of};
ghost use Rattle.hp_query.specs.Mapped.{aggregate as aggregate_of, keyed_rows};
ghost use Rattle.hp_rule.specs.Mapped.{assignment, library, task as task_of};
ghost use Rattle.hp_tree.specs.Mapped.{items_in};
ghost use Rattle.hp_view.specs.Adding.{AddsReads};
ghost use Rattle.hp_view.specs.Seeing.{Seeing};
ghost use Rattle.hp_ops.specs.Reading.{IsReadOf};
ghost use Rattle.hp_fire.specs.Mapped.{context as context_in, course as course_in};
ghost use Rattle.hp_fire.specs.Runs.{AreReady, Steps, Looks};
ghost use Rattle.hp_fire.specs.Signals.{signal_of};
ghost use Rattle.hp_fire.specs.Statements.{OperationIsMade, TasksStart};

use crate::context::Context;
use crate::counting::Counting;
use crate::course::{Course, End};
use crate::engine::Engine;
use crate::placing::one_task;
use hp_ops::{
    GivenValues, create, delete, find_object, fire, given_values, new_object, set_rule, update,
};
use hp_query::{Aggregate, let_value, selected_rows};
use hp_rule::{Assignment, RuleOperation, Task};
use hp_tree::{Item, Operation};
use hp_value::{Cause, ClassNo, Env, Expr, Halt, KeyedRow, Prim, RuleNo, Value};
use hp_view::View;
use std::alloc::{AllocError, Global};

/// The query of a statement `each`.
pub(crate) struct Selection<'a> {
    /// The name of the row that is tested.
    pub(crate) variable: &'a str,
    /// The class whose objects are tested.
    pub(crate) class: ClassNo,
    /// The test of each row.
    pub(crate) predicate: &'a Expr,
}

/// The binding of a statement `with`.
pub(crate) struct Binding<'a> {
    /// The name of the object's row in the body.
    pub(crate) variable: &'a str,
    /// The class of the object.
    pub(crate) class: ClassNo,
    /// The key of the object.
    pub(crate) key: &'a Expr,
}

impl<W> Engine<'_, W> {
    /// Creates the object of a statement `create`. The answer is the occurrence to signal.
    #[inline(never)]
    pub(crate) fn create_object(
        &self,
        view: &mut View,
        context: &Context<'_>,
        class: ClassNo,
        key: &Expr,
        pairs: &[Assignment],
    ) -> Result<Prim, Halt>
        ensures { let statement = rules.create class (expression key.now) (map assignment pairs.now) in
            OperationIsMade self.now.lib.now context.now statement view.old view.new result }
    {
        let new = new_object(self.alloc, self.lib, class, &context.env, key, pairs)?;
        create(self.alloc, view, class, new.key, new.row)
    }

    /// Sets the fields of a statement `update`. The answer is the occurrence to signal.
    #[inline(never)]
    pub(crate) fn update_object(
        &self,
        view: &mut View,
        context: &Context<'_>,
        class: ClassNo,
        key: &Expr,
        pairs: &[Assignment],
    ) -> Result<Prim, Halt>
        ensures { let statement = rules.update class (expression key.now) (map assignment pairs.now) in
            OperationIsMade self.now.lib.now context.now statement view.old view.new result }
    {
        let mut given = GivenValues::new(self.alloc);
        let key = given_values(
            self.alloc,
            self.lib,
            class,
            &context.env,
            key,
            pairs,
            &mut given,
        )?;
        update(self.alloc, view, class, key, &given)
    }

    /// Deletes the object of a statement `delete`. The answer is the occurrence to signal.
    #[inline(never)]
    pub(crate) fn delete_object(
        &self,
        view: &mut View,
        context: &Context<'_>,
        class: ClassNo,
        key: &Expr,
    ) -> Result<Prim, Halt>
        ensures { let statement = rules.delete class (expression key.now) in
            OperationIsMade self.now.lib.now context.now statement view.old view.new result }
    {
        let key = integer(&context.env, key)?;
        delete(self.alloc, view, class, key)
    }

    /// Installs, enables, disables or removes a rule.
    #[inline(never)]
    pub(crate) fn change_rule(
        &self,
        view: &mut View,
        operation: RuleOperation,
        rule: RuleNo,
        course: &mut Course,
    ) -> Result<(), Halt>
        ensures { (level : Level) (context : model.Context)
            → let statement = rules.on_rule (rule_operation operation) rule in
            Steps (library self.now.lib.now) (model.run_statement statement level context) view.old view.new
            (course_in course.old) (course_in course.new) result }
    {
        set_rule(self.alloc, view, self.lib, operation, rule)?;
        course.add(Item::Operation(Operation::OnRule { operation, rule }))?;
        Ok(())
    }

    /// Makes the task of a statement `fire`, as a list.
    #[inline(never)]
    pub(crate) fn make_task(
        &self,
        view: &mut View,
        rule: RuleNo,
        depth: u8,
        time: u64,
    ) -> Result<Vec<Task>, Halt>
        ensures ready { IfOk result (λ ts. AreReady (library self.now.lib.now) depth (map task_of ts.items)) }
        ensures starts { (context : model.Context) → let level = level_at (library self.now.lib.now) time depth in
            let work = model.run_statement (rules.fire rule) level context in
            TasksStart self.now.lib.now depth work view.old view.new result }
    {
        let task = fire(self.alloc, view, self.lib, rule, depth, time)?;
        let tasks = one_task(self.alloc, task)?;
        Ok(tasks)
    }

    /// Reads all rows of a statement `each`.
    pub(crate) fn select_rows(
        &self,
        view: &mut View,
        context: &Context<'_>,
        variable: &str,
        class: ClassNo,
        predicate: &Expr,
    ) -> Result<Vec<KeyedRow>, Halt>
        ensures { let predicate = expression predicate.now in
            let environment = (context_in context.now).environment in
            Looks keyed_rows (library self.now.lib.now)
            (λ S. conditions.answer environment variable.now class predicate S.objects) view.old view.new result }
    {
        let mut look = Counting::new(view);
        let rows = selected_rows(
            self.alloc,
            variable,
            class,
            predicate,
            &context.env,
            &mut look,
        );
        look.add_predicate(predicate, self.effort);
        rows
    }

    /// The value of a statement `let`, as the view then is. `Missing` means that there is none: the least or the
    /// greatest of no row.
    pub(crate) fn let_value(
        &self,
        view: &mut View,
        context: &Context<'_>,
        aggregate: &Aggregate,
    ) -> Result<Value, Halt>
        ensures { let aggregate = aggregate_of aggregate.now in
            let environment = (context_in context.now).environment in
            Looks value_of (library self.now.lib.now)
            (λ S. conditions.let_of S.objects environment aggregate) view.old view.new result }
    {
        let mut look = Counting::new(view);
        let value = let_value(self.alloc, aggregate, &context.env, &mut look);
        look.add_aggregate(aggregate, self.effort);
        value
    }

    /// The current row of the object of a statement `with`, and its key. `Missing` means that there is no such object.
    pub(crate) fn named_object(
        &self,
        view: &mut View,
        context: &Context<'_>,
        class: ClassNo,
        key: &Expr,
    ) -> Result<KeyedRow, Halt>
        ensures found { let environment = (context_in context.now).environment in
            Looks keyed_row (library self.now.lib.now)
            (λ S. model.named_object S.objects environment class (expression key.now)) view.old view.new result }
        ensures reads { (k : ℤ) →
            model.integer_value (context_in context.now).environment (expression key.now) ≡ Ok k →
            AddsReads (IsReadOf (object_cell class k)) view.old.reads view.new.reads }
    {
        let key = integer(&context.env, key)?;
        match find_object(self.alloc, view, class, key)? {
            Some(row) => Ok(KeyedRow { key, row }),
            None => Err(Halt::Cause(Cause::Missing)),
        }
    }
}

/// The value of an expression that has to be an integer.
fn integer(env: &Env<'_>, expr: &Expr) -> Result<i64, Halt>
    ensures { Meets (λ k. k) result (model.integer_value (environment env.now) (expression expr.now)) }
{
    Ok(expr.integer(env)?)
}

/// Whether the condition of a statement `if` is true.
pub(crate) fn is_true(env: &Env<'_>, expr: &Expr) -> Result<bool, Halt>
    ensures { Meets (λ b. b) result (boolean_value (environment env.now) (expression expr.now)) }
{
    Ok(expr.boolean(env)?)
}

/// Makes the occurrence of a statement `signal`.
#[inline(never)]
pub(crate) fn make_signal(
    alloc: Global,
    env: &Env<'_>,
    name: &str,
    arguments: &[Expr],
) -> Result<Prim, Halt>
    ensures { let values = values_of (environment env.now) (map expression arguments.now) in
        Meets primitive result (signal_of name.now values) }
{
    let mut args = Vec::new(alloc);
    for argument in arguments {
        let value = argument.eval(alloc, env)?;
        args.push(value).map_err(AllocError::from)?;
    }
    let name = String::from_str(alloc, name)?;
    Ok(Prim::Signal { name, args })
}

/// Emits the value of a statement `emit`.
#[inline(never)]
pub(crate) fn emit(
    alloc: Global,
    context: &Context<'_>,
    expr: &Expr,
    course: &mut Course,
) -> Result<(), Halt>
    ensures { (view : Seeing) (lib : rules.Library) (level : Level)
        → let statement = rules.emit (expression expr.now) in
        Steps lib (model.run_statement statement level (context_in context.now)) view view
        (course_in course.old) (course_in course.new) result }
{
    let value = expr.eval(alloc, &context.env)?;
    course.add(Item::Emit(value))?;
    Ok(())
}

/// Adds an occurrence's operation to a course, which nothing has ended then. An occurrence that isn't an operation adds
/// nothing.
pub(crate) fn add_operation(course: &mut Course, prim: Prim) -> Result<(), AllocError>
    ensures { OnOk result (course_in course.new
        ≡ followed (course_in course.old) (tells (without_detachments (operation_items (primitive prim))))) }
{
    match operation_item(prim) {
        Some(item) => course.add(item),
        None => {
            course.end_with(End::Done);
            Ok(())
        }
    }
}

/// The item of an operation. An occurrence that isn't an operation has none.
fn operation_item(prim: Prim) -> Option<Item>
    ensures { items_in (option_to_list result) ≡ without_detachments (operation_items (primitive prim)) }
{
    let operation = match prim {
        Prim::Create { class, key, new } => Operation::Create { class, key, new },
        Prim::Update {
            class,
            key,
            old: _old,
            new,
        } => Operation::Update { class, key, new },
        Prim::Delete {
            class,
            key,
            old: _old,
        } => Operation::Delete { class, key },
        Prim::Signal {
            name: _name,
            args: _args,
        } => return None,
        Prim::Commit | Prim::Time(_) => return None,
    };
    Some(Item::Operation(operation))
}
