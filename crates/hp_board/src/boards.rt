//! The board of one group.

ghost use Rattle.std.specs.Prelude.{◌≡◌, ℕ, ◌+◌, ◌<◌, ◌≤◌, ◌^◌, ◌↔◌, length, vec_len, All};
ghost use Rattle.std.specs.Prelude.{IfOk, IfErr, IfNone, IfSome, IsTrue, None, true};
ghost use Rattle.hp_board.specs.Deal.{IsSeatOf, IsFresh, DrawsNumber, FindsNone, times_in, once_below};
ghost use Rattle.hp_board.specs.Passes.{IsPassOf, Learns, known_at};
ghost use Rattle.hp_board.specs.Boards.{IsBoard};

use crate::cells::{OnceCells, Pass, Posted};
use crate::counter::{Counter, Drawn, Seat};
use std::alloc::{AllocError, Global};
use std::marker::Model;

/// The board of a group of tasks: their numbers from 0, for workers to draw, and for each number a cell that is set
/// once.
///
/// Threads share it by `&`, and none of them waits at it: no call takes a lock, nor a handle that may wait. Each draw,
/// look and post is one atomic step, and one event of the group's machine ([`Group`](crate::Group)):
///
/// | Call | Step | Event |
/// |---|---|---|
/// | [`draw`](Board::draw) | one `fetch_add` on the counter | a draw; numbers below the counter are drawn |
/// | [`look`](Board::look) | one read of a cell | one predecessor of a look |
/// | [`post`](Board::post) | one store to a cell | a post |
///
/// Only the body shows which thread draws a number, and that a look finds what another thread has posted; no contract
/// does.
#[derive(Drop)]
pub struct Board<T> {
    counter: Counter,
    cells: OnceCells<T>,
}

impl<T> Model for Board<T> {
    ghost use Rattle.std.specs.Prelude.{◌≡◌, length};
    ghost use Rattle.hp_board.specs.Boards.{BoardView};

    ghost Value = { BoardView };

    ghost view = { λ b. record { deal = b.counter; cells = b.cells } };

    ghost invariant = { λ b. length b.cells ≡ b.counter.numbers };
}

impl<T: Drop> Board<T> {
    /// A board for `n` tasks, and its seats, 1 to 64, which have drawn nothing. No cell is set.
    ///
    /// `n` plus 64 has to fit in a `u64`: the counter goes up to `n`, plus once more for each seat.
    pub fn new(alloc: Global, n: usize, seats: usize) -> Result<(Board<T>, Vec<Seat>), AllocError>
        requires seats { (0 < seats) × (seats ≤ 64) }
        requires room { n + 64 < 2 ^ 64 }
        ensures board { IfOk result (λ r. IsBoard n seats r.0) }
        ensures seats { IfOk result (λ r. (vec_len r.1 ≡ seats) × All (IsFresh r.0.deal) r.1.items) }
    {
        let (counter, all) = Counter::new(alloc, n, seats)?;
        let cells = OnceCells::new(alloc, n)?;
        Ok((Board { counter, cells }, all))
    }

    /// A pass of this board that knows nothing.
    pub fn pass(&self, alloc: Global) -> Result<Pass<T>, AllocError>
        ensures cells { IfOk result (IsPassOf self.now.cells) }
        ensures new { IfOk result (All (λ f. f.known ≡ None)) }
    {
        self.cells.pass(alloc)
    }

    /// Draws the number of a task, which no other draw returns. `None` means that no number is left; once `draw`
    /// returns `None` for a seat it always does, without another step on the counter.
    ///
    /// [`close`](Board::close) states that no number is drawn twice, for all seats that it is given.
    pub fn draw(&self, seat: Seat) -> (Option<usize>, Seat)
        requires { IsSeatOf self.now.deal seat }
        ensures seat { IsSeatOf self.now.deal result.1 }
        ensures some { IfSome result.0 (λ i.
            (i < self.now.deal.numbers) × (i < length self.now.cells) × DrawsNumber seat i result.1) }
        ensures none { IfNone result.0 (FindsNone seat result.1) }
        ensures still { seat.done ≡ true → result.0 ≡ None }
    {
        self.counter.draw(seat)
    }

    /// Looks at what task `j` has posted. The pass then knows the value that was found: a later look with it finds that
    /// value again. `None` means that the pass knows nothing of the cell, and is as before.
    pub fn look(&self, j: usize, pass: Pass<T>) -> (Option<&T>, Pass<T>)
        requires cell { j < length self.now.cells }
        requires pass { IsPassOf self.now.cells pass }
        ensures none { IfNone result.0 ((known_at pass j ≡ None) × (result.1 ≡ pass)) }
        ensures some { IfSome result.0 (λ r. Learns pass j r.now result.1) }
        ensures pass { IsPassOf self.entry.now.cells result.1 }
    {
        self.cells.look(j, pass)
    }

    /// Posts what task `i` has written. The pass then knows that value of the cell.
    ///
    /// An `Err` means that the cell was already set: both arguments come back, and the pass knows the value in the
    /// cell.
    pub fn post(
        &self,
        i: usize,
        posted: Posted<T>,
        pass: Pass<T>,
    ) -> Result<Pass<T>, (Posted<T>, Pass<T>)>
        requires cell { i < length self.now.cells }
        requires pass { IsPassOf self.now.cells pass }
        ensures ok { IfOk result (λ p.
            Learns pass i posted p × IsPassOf self.now.cells p × (known_at pass i ≡ None)) }
        ensures err { IfErr result (λ r.
            (r.0 ≡ posted) × IsPassOf self.now.cells r.1 × ((x : T) × Learns pass i x r.1)) }
    {
        self.cells.post(i, posted, pass)
    }

    /// Ends the drawing, and drops what was posted. The numbers that these seats have drawn are less than `below`, each
    /// drawn once. Given all seats of the board, they are all the numbers less than `below`. If one of the seats has
    /// drawn `None`, `below` is the number of tasks.
    ///
    /// A seat may be missing, for example that of a thread that could not be started: then its numbers are missing too.
    pub fn close(self, seats: Vec<Seat>) -> Drawn
        requires { All (IsSeatOf self.deal) seats.items }
        ensures below { result.below ≤ self.deal.numbers }
        ensures all { IsTrue result.all ↔ (result.below ≡ self.deal.numbers) }
        ensures once { (x : ℕ) → times_in x seats.items ≤ once_below x result.below }
        ensures every { vec_len seats ≡ self.deal.seats →
            (x : ℕ) → times_in x seats.items ≡ once_below x result.below }
        ensures done { All (λ t. t.done ≡ true → result.below ≡ self.deal.numbers) seats.items }
    {
        let Board { counter, cells: _ } = self;
        counter.close(seats)
    }
}
