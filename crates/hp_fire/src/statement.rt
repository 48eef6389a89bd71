//! Statements of each kind, and bodies.

ghost use Rattle.std.specs.Prelude.{OnOk};
ghost use Rattle.hp_model.specs.Rules as rules;
ghost use Rattle.hp_model.specs.Transactions.{Work};
ghost use Rattle.hp_value.specs.Mapped.{expression, primitive};
ghost use Rattle.hp_query.specs.Mapped.{aggregate as aggregate_of};
ghost use Rattle.hp_rule.specs.Mapped.{body_in, library, statement as statement_of};
ghost use Rattle.hp_view.specs.Seeing.{Seeing};
ghost use Rattle.hp_fire.specs.Mapped.{course as course_in};
ghost use Rattle.hp_fire.specs.Runs.{Steps, Makes};
ghost use Rattle.hp_fire.specs.Statements.{StatementRuns, BodyRuns, body_for_each, level_in};

use crate::closing::close_sub;
use crate::context::Context;
use crate::course::{Course, End};
use crate::engine::Engine;
use crate::halting::or_aborted;
use crate::operations::{Binding, Selection, add_operation, emit, is_true, make_signal};
use crate::speculate::{STATEMENT, Workers};
use crate::vetoes::run_veto;
use hp_ops::trigger;
use hp_query::Aggregate;
use hp_rule::Stmt;
use hp_value::{Cause, Expr, Halt, KeyedRow, Prim};
use hp_view::View;
use std::alloc::AllocError;

impl<W: Workers> Engine<'_, W> {
    /// Runs the statements of a body in order, up to the first that isn't done, and adds what they do to a course.
    #[cycle(fire)]
    pub(crate) fn statements(
        &self,
        view: &mut View,
        body: &[Stmt],
        context: &Context<'_>,
        course: &mut Course,
    ) -> Result<(), AllocError>
        requires ready { W.ready self.now.workers.now }
        ensures { OnOk result (BodyRuns self.now.lib.now context.now (body_in body.now) view.old view.new
            course.old course.new) }
    {
        self.effort.add(STATEMENT.saturating_mul(body.len() as u64));
        if let [only] = body {
            let given = self.statement(view, only, context, course);
            return or_aborted(course, given);
        }
        self.in_order(view, body, context, course)
    }

    /// Runs the statements of a body one after another, up to the first that isn't done.
    // Apart, since a body of one statement needs none of its temporaries.
    #[cycle(fire)]
    #[inline(never)]
    fn in_order(
        &self,
        view: &mut View,
        body: &[Stmt],
        context: &Context<'_>,
        course: &mut Course,
    ) -> Result<(), AllocError>
        requires ready { W.ready self.now.workers.now }
        ensures { OnOk result (BodyRuns self.now.lib.now context.now (body_in body.now) view.old view.new
            course.old course.new) }
    {
        course.end_with(End::Done);
        for stmt in body {
            let given = self.statement(view, stmt, context, course);
            or_aborted(course, given)?;
            if !course.is_done() {
                return Ok(());
            }
        }
        Ok(())
    }

    /// Runs a statement. A cause ends it before it has any effect.
    #[cycle(fire)]
    fn statement(
        &self,
        view: &mut View,
        stmt: &Stmt,
        context: &Context<'_>,
        course: &mut Course,
    ) -> Result<(), Halt>
        requires ready { W.ready self.now.workers.now }
        ensures { StatementRuns self.now.lib.now context.now (statement_of stmt.now) view.old view.new
            course.old course.new result }
    {
        match stmt {
            Stmt::Create { class, key, pairs } => {
                self.signal_event(
                    self.create_object(view, context, *class, key, pairs),
                    view,
                    context,
                    course,
                )
            }
            Stmt::Update { class, key, pairs } => {
                self.signal_event(
                    self.update_object(view, context, *class, key, pairs),
                    view,
                    context,
                    course,
                )
            }
            Stmt::Delete { class, key } => {
                self.signal_event(
                    self.delete_object(view, context, *class, key),
                    view,
                    context,
                    course,
                )
            }
            Stmt::Signal { name, arguments } => {
                self.signal_event(
                    make_signal(self.alloc, &context.env, name, arguments),
                    view,
                    context,
                    course,
                )
            }
            Stmt::Emit(value) => emit(self.alloc, context, value, course),
            Stmt::If {
                condition,
                then_body,
                else_body,
            } => self.run_branch(view, condition, then_body, else_body, context, course),
            Stmt::Each {
                variable,
                class,
                predicate,
                body,
            } => {
                let selection = Selection {
                    variable,
                    class: *class,
                    predicate,
                };
                self.each_found(view, selection, body, context, course)
            }
            Stmt::For { query, body } => {
                let query: &str = query;
                let rows = (&*context).kept(query);
                self.each_row(view, body, query, rows, context, course)
            }
            Stmt::With {
                variable,
                class,
                key,
                body,
            } => {
                let binding = Binding {
                    variable,
                    class: *class,
                    key,
                };
                self.with_object(view, binding, body, context, course)
            }
            Stmt::Sub { body, otherwise } => {
                self.sub_or_otherwise(view, body, otherwise, context, course)
            }
            Stmt::Let {
                name,
                aggregate,
                body,
            } => self.with_let(view, name, aggregate, body, context, course),
            Stmt::Abort => {
                course.end_with(End::Abort(Cause::Asked));
                Ok(())
            }
            Stmt::Veto(message) => run_veto(self.alloc, context, message, course),
            Stmt::OnRule { operation, rule } => self.change_rule(view, *operation, *rule, course),
            Stmt::Fire(rule) => {
                let tasks = self.make_task(view, *rule, context.depth, context.env.time);
                self.start(view, tasks, context.depth, course)
            }
        }
    }

    // Most kinds of statements have functions of their own, which keeps the stack frame of a level of statements small:
    // a frame holds the temporaries of all its arms and clears them on entry, whichever arm runs. So the larger ones of
    // the rarer kinds are never inlined, and nor are a group of firings (`fire_group`) and what operations do before
    // their event is signalled.

    /// Runs a statement `if`.
    #[cycle(fire)]
    fn run_branch(
        &self,
        view: &mut View,
        condition: &Expr,
        then_body: &[Stmt],
        else_body: &[Stmt],
        context: &Context<'_>,
        course: &mut Course,
    ) -> Result<(), Halt>
        requires ready { W.ready self.now.workers.now }
        ensures { let condition = expression condition.now in
            let statement = rules.when condition (body_in then_body.now) (body_in else_body.now) in
            StatementRuns self.now.lib.now context.now statement view.old view.new course.old course.new result }
    {
        if is_true(&context.env, condition)? {
            self.statements(view, then_body, context, course)?;
            Ok(())
        } else {
            self.statements(view, else_body, context, course)?;
            Ok(())
        }
    }

    /// Runs a statement `each`.
    #[cycle(fire)]
    #[inline(never)]
    fn each_found(
        &self,
        view: &mut View,
        selection: Selection<'_>,
        body: &[Stmt],
        context: &Context<'_>,
        course: &mut Course,
    ) -> Result<(), Halt>
        requires ready { W.ready self.now.workers.now }
        ensures { let x = selection.entry.variable.now in
            let predicate = expression selection.entry.predicate.now in
            let statement = rules.each x selection.entry.class predicate (body_in body.now) in
            StatementRuns self.now.lib.now context.now statement view.old view.new course.old course.new result }
    {
        let Selection {
            variable,
            class,
            predicate,
        } = selection;
        let rows = self.select_rows(view, context, variable, class, predicate)?;
        self.each_row(view, body, variable, &rows, context, course)
    }

    /// Runs a statement `with`.
    #[cycle(fire)]
    #[inline(never)]
    fn with_object(
        &self,
        view: &mut View,
        binding: Binding<'_>,
        body: &[Stmt],
        context: &Context<'_>,
        course: &mut Course,
    ) -> Result<(), Halt>
        requires ready { W.ready self.now.workers.now }
        ensures { let x = binding.entry.variable.now in
            let key = expression binding.entry.key.now in
            let statement = rules.with_object x binding.entry.class key (body_in body.now) in
            StatementRuns self.now.lib.now context.now statement view.old view.new course.old course.new result }
    {
        let Binding {
            variable,
            class,
            key,
        } = binding;
        let row = self.named_object(view, context, class, key)?;
        let inner = (&*context).bound(variable, row.key, &row.row);
        self.statements(view, body, &inner, course)?;
        Ok(())
    }

    /// Runs a statement `let`. Its value is found on the view as it then is, before the body runs.
    #[cycle(fire)]
    #[inline(never)]
    fn with_let(
        &self,
        view: &mut View,
        name: &str,
        aggregate: &Aggregate,
        body: &[Stmt],
        context: &Context<'_>,
        course: &mut Course,
    ) -> Result<(), Halt>
        requires ready { W.ready self.now.workers.now }
        ensures { let statement = rules.let_value name.now (aggregate_of aggregate.now) (body_in body.now) in
            StatementRuns self.now.lib.now context.now statement view.old view.new course.old course.new result }
    {
        let value = self.let_value(view, context, aggregate)?;
        let inner = (&*context).holding(name, &value);
        self.statements(view, body, &inner, course)?;
        Ok(())
    }

    /// Runs a statement `sub`.
    #[cycle(fire)]
    #[inline(never)]
    fn sub_or_otherwise(
        &self,
        view: &mut View,
        body: &[Stmt],
        otherwise: &[Stmt],
        context: &Context<'_>,
        course: &mut Course,
    ) -> Result<(), Halt>
        requires ready { W.ready self.now.workers.now }
        ensures { let statement = rules.subtransaction (body_in body.now) (body_in otherwise.now) in
            StatementRuns self.now.lib.now context.now statement view.old view.new course.old course.new result }
    {
        let mark = view.enter();
        let around = course.begin_part(self.alloc);
        self.statements(view, body, context, course)?;
        let aborted = close_sub(self.alloc, view, mark, around, course)?;
        if !aborted {
            return Ok(());
        }
        self.statements(view, otherwise, context, course)?;
        Ok(())
    }

    /// Runs a body for each row, bound to a name, up to the first run that isn't done.
    #[cycle(fire)]
    fn each_row(
        &self,
        view: &mut View,
        body: &[Stmt],
        variable: &str,
        rows: &[KeyedRow],
        context: &Context<'_>,
        course: &mut Course,
    ) -> Result<(), Halt>
        requires ready { W.ready self.now.workers.now }
        ensures { let work = body_for_each self.now.lib.now context.now variable.now rows.now (body_in body.now) in
            Steps (library self.now.lib.now) work view.old view.new (course_in course.old) (course_in course.new)
            result }
    {
        course.end_with(End::Done);
        for row in rows {
            let inner = (&*context).bound(&*variable, row.key, &row.row);
            self.statements(view, body, &inner, course)?;
            if !course.is_done() {
                return Ok(());
            }
        }
        Ok(())
    }

    /// Adds what a statement has made to a course and signals it: the event of an operation, or the signal of a
    /// statement `signal`. A cause for which it was not made ends the statement.
    #[cycle(fire)]
    fn signal_event(
        &self,
        made: Result<Prim, Halt>,
        view: &mut View,
        context: &Context<'_>,
        course: &mut Course,
    ) -> Result<(), Halt>
        requires ready { W.ready self.now.workers.now }
        ensures { (work : Work) (before : Seeing) → let level = level_in self.now.lib.now context.now in
            Makes primitive (library self.now.lib.now) level work before view.old made
            → Steps (library self.now.lib.now) work before view.new (course_in course.old) (course_in course.new)
            result }
    {
        let prim = made?;
        let tasks = trigger(
            self.alloc,
            view,
            self.lib,
            &prim,
            context.depth,
            context.env.time,
        );
        add_operation(course, prim)?;
        let started = self.start(view, tasks, context.depth, course);
        or_aborted(course, started)?;
        Ok(())
    }
}
