//! The start of a wave.

ghost use Rattle.std.specs.Prelude.{◌≡◌, ◌<◌, All, IfOk, length};
ghost use Rattle.hp_model.specs.Rules.{Library as ModelLibrary};
ghost use Rattle.hp_board.specs.Deal.{IsSeatOf};
ghost use Rattle.hp_attempt.specs.Fronts.{AreSound};
ghost use Rattle.hp_fire.specs.Groups.{IsWave};

use crate::speculate::extents::{frozen, share_beneath};
use crate::speculate::pending::Pending;
use crate::speculate::policy::WRITES_PER_ACCEPT;
use crate::speculate::wave::{Wave, kept_layers};
use hp_board::{Board, Seat};
use hp_rule::{Library, Task};
use hp_view::View;
use std::alloc::{AllocError, Global};

/// The settings of a wave.
pub(crate) struct Plan<'a> {
    /// The library.
    pub(crate) lib: &'a Library,
    /// The tasks of the group.
    pub(crate) tasks: &'a [Task],
    /// How many of them are settled.
    pub(crate) done: usize,
    /// Whether a veto stops the group.
    pub(crate) stop_at_veto: bool,
    /// Whether workers are started even if they don't pay.
    pub(crate) eager: bool,
    /// The most threads that the wave may use.
    pub(crate) width: usize,
}

/// A wave that is ready to start.
pub(crate) struct Start<'a> {
    /// What all workers share.
    pub(crate) wave: Wave<'a>,
    /// The seat of the owner's part.
    pub(crate) seat: Seat,
    /// The workers' seats.
    pub(crate) seats: Vec<Seat>,
}

/// Prepares a wave over the tasks that aren't settled, for as many workers as there are threads, the owner's part
/// included. Of the attempts so far, the first and those whose reads don't hold in the view are dropped.
///
/// An error means that memory ran out; some of these attempts may then be dropped.
pub(crate) fn prepare<'a>(
    plan: Plan<'a>,
    alloc: Global,
    view: &mut View,
    pending: &mut Pending,
) -> Result<Start<'a>, AllocError>
    requires { plan.done < length plan.tasks.now }
    ensures view { view.new ≡ view.old }
    ensures sound { (library : ModelLibrary) → AreSound library pending.old.attempts.items
        → AreSound library pending.new.attempts.items }
    ensures wave { IfOk result (λ s. IsWave s.wave × (s.wave.tasks.now ≡ plan.entry.tasks.now)
        × (s.wave.stop_at_veto ≡ plan.entry.stop_at_veto)) }
    ensures seat { IfOk result (λ s. IsSeatOf s.wave.board.deal s.seat) }
    ensures seats { IfOk result (λ s. All (IsSeatOf s.wave.board.deal) s.seats.items) }
{
    let Plan {
        lib,
        tasks,
        done,
        stop_at_veto,
        eager,
        width,
    } = plan;
    let left = tasks.len() - done;
    let workers = width.clamp(1, 64).min(left);
    share_beneath(alloc, lib, &tasks[done..], view)?;
    pending.drop_first_and_stale(view);
    let snapshot = frozen(alloc, lib, &tasks[done..], view)?;
    let kept = kept_layers(alloc, &pending.attempts)?;
    let (board, mut seats) = Board::new(alloc, left, workers)?;
    let Some(seat) = seats.pop() else {
        unreachable!();
    };
    let wave = Wave {
        tasks,
        done,
        stop_at_veto,
        eager,
        kept,
        snapshot,
        board,
        early: view.written() <= left.saturating_mul(WRITES_PER_ACCEPT),
    };
    Ok(Start { wave, seat, seats })
}
