//! The commit event, and the rounds of deferred tasks.

ghost use Rattle.std.specs.Prelude.{◌≡◌, IfOk, false};
ghost use Rattle.hp_model.specs.Occurrences.{commit_reached};
ghost use Rattle.hp_model.specs.Transactions.{then_do};
ghost use Rattle.hp_model.specs.Firing.{level_at, signal_in, fire_task};
ghost use Rattle.hp_model.specs.Cascade as model;
ghost use Rattle.hp_model.specs.Cascade.{top_course};
ghost use Rattle.hp_model.specs.Answers as answers;
ghost use Rattle.hp_rule.specs.Mapped.{library};
ghost use Rattle.hp_fire.specs.Mapped.{course as course_of};
ghost use Rattle.hp_top.specs.Runs.{Continues, IsRound};

use crate::runner::Runner;
use hp_fire::{Course, End, Workers, group_course};
use hp_rule::Library;
use hp_value::Prim;
use hp_view::View;
use std::alloc::AllocError;

impl<W: Workers> Runner<'_, W> {
    /// Completes the course of a top-level transaction after its work: the commit event at the transaction's depth and
    /// the clock's moment in its unit, and the rounds of deferred tasks.
    ///
    /// In HiPAC deferred tasks run after the last operation and before the commit.
    pub(crate) fn complete(
        &self,
        view: &mut View,
        begun: Course,
        depth: u8,
        time: u64,
    ) -> Result<Course, AllocError>
        requires ready { W.ready self.now.engine.workers.now }
        ensures { IfOk result (λ c.
            Continues (library self.now.engine.lib.now)
            (top_course (library self.now.engine.lib.now) time depth) view.old view.new (course_of begun)
            (course_of c)) }
    {
        let course = self.signal_commit(view, begun, depth, time)?;
        let all = self.run_rounds(view, course)?;
        Ok(all)
    }

    /// Signals the commit event, if the course so far is done.
    fn signal_commit(
        &self,
        view: &mut View,
        mut begun: Course,
        depth: u8,
        time: u64,
    ) -> Result<Course, AllocError>
        requires ready { W.ready self.now.engine.workers.now }
        ensures { IfOk result (λ c.
            Continues (library self.now.engine.lib.now)
            (λ work S. then_do (work S)
            (signal_in (level_at (library self.now.engine.lib.now) time depth) commit_reached))
            view.old view.new (course_of begun) (course_of c)) }
    {
        match begun.end {
            End::Done => {
                let commit = self.engine.run_signal(view, &Prim::Commit, depth, time)?;
                begun.join(commit)?;
                Ok(begun)
            }
            End::Abort(_) => Ok(begun),
            End::Vetoed(_) => Ok(begun),
            End::Veto(_) => Ok(begun),
        }
    }

    /// Runs the queued tasks in rounds, while the course is done and tasks are queued. Each round runs what the one
    /// before it queued.
    fn run_rounds(&self, view: &mut View, begun: Course) -> Result<Course, AllocError>
        requires ready { W.ready self.now.engine.workers.now }
        ensures { IfOk result (λ c.
            Continues (library self.now.engine.lib.now)
            (λ work S. model.rounds (model.most_rounds (library self.now.engine.lib.now))
            (fire_task (library self.now.engine.lib.now))
            (work S)) view.old view.new (course_of begun) (course_of c)) }
    {
        let most = most_rounds(self.engine.lib);
        let mut course = begun;
        for _ in 0..most {
            if is_settled(&course) {
                return Ok(course);
            }
            course = self.run_round(view, course)?;
        }
        Ok(course)
    }

    /// Runs a round: the queued tasks fire as siblings, and a veto aborts the transaction.
    fn run_round(&self, view: &mut View, mut course: Course) -> Result<Course, AllocError>
        requires ready { W.ready self.now.engine.workers.now }
        requires unsettled { answers.is_settled (course_of course).end (course_of course).queued ≡ false }
        ensures { IfOk result (λ c.
            IsRound (library self.now.engine.lib.now) view.old view.new (course_of course) (course_of c)) }
    {
        let group = self.engine.run_siblings(view, &course.queued, true)?;
        let next = group_course(self.alloc(), group)?;
        course.queued = Vec::new(self.alloc());
        course.join(next)?;
        Ok(course)
    }
}

/// The most rounds, or generations: each task is deeper than the one that made it, or is the action of its condition.
pub(crate) fn most_rounds(lib: &Library) -> u32
    ensures { result ≡ model.most_rounds (library lib.now) }
{
    2 * (u32::from(lib.depth_limit()) + 1)
}

/// Whether no round follows.
fn is_settled(course: &Course) -> bool
    ensures { result ≡ answers.is_settled (course_of course.now).end (course_of course.now).queued }
{
    match course.end {
        End::Done => course.queued.is_empty(),
        End::Abort(_) | End::Vetoed(_) | End::Veto(_) => true,
    }
}
