//! Seats that draw numbers.

ghost use Rattle.std.specs.Prelude.{◌≡◌, ℕ, ◌+◌, ◌<◌, ◌≤◌, ◌^◌, [], All, IfOk, IfSome};
ghost use Rattle.std.specs.Prelude.{IfNone, vec_len, true, IsTrue, ◌↔◌, None};
ghost use Rattle.hp_board.specs.Deal.{IsSeatOf, IsFresh, IsCounter, DrawsNumber, FindsNone};
ghost use Rattle.hp_board.specs.Deal.{IsOneWord, Gathers, Knows, Ended, times_in, once_below};

use crate::tally::{CounterRule, Draws, OneMore, Shape, Tally};
use atomic_table::{Seat as Token, Table};
use std::alloc::{AllocError, Global};
use std::marker::Model;

/// A worker's seat at a board. It draws numbers, from one thread at a time.
///
/// In contracts it is the numbers drawn, in order, and whether it has found that none is left.
#[derive(Drop)]
pub struct Seat {
    token: Token<u64, Tally>,
    done: bool,
}

impl Model for Seat {
    ghost use Rattle.hp_board.specs.Deal.{Taken, IsToken};

    ghost Value = { Taken };

    ghost view = { λ s. record {
      table = s.token.table_id;
      numbers = s.token.me.0.numbers;
      drawn = s.token.me.0.drawn;
      done = s.done;
    } };

    ghost invariant = { λ s. IsToken s.token.me s.done };
}

/// The numbers below a bound, for seats to draw: one counter of the draws so far.
#[derive(Drop)]
pub struct Counter {
    table: Table<u64, Tally, Shape, CounterRule, Global>,
    numbers: usize,
    seats: usize,
}

impl Model for Counter {
    ghost use Rattle.hp_board.specs.Deal.{Deal, IsTable};

    ghost Value = { Deal };

    ghost view = { λ d. record {
      table = d.table.shared.table_id;
      numbers = d.numbers;
      seats = d.seats;
    } };

    ghost invariant = { λ d. IsTable d.table.shared.table_id d.table.shared.key d.numbers d.seats };
}

/// What was drawn from a board in all.
#[derive(Clone, Copy, Debug, PartialEq, Eq)]
pub struct Drawn {
    /// Exactly the numbers below this one were drawn.
    pub below: usize,
    /// Whether these are all numbers of the board.
    pub all: bool,
}

impl Counter {
    /// A counter of the numbers below `numbers`, with `seats` seats that have drawn nothing.
    pub fn new(
        alloc: Global,
        numbers: usize,
        seats: usize,
    ) -> Result<(Counter, Vec<Seat>), AllocError>
        requires seats { (0 < seats) × (seats ≤ 64) }
        requires room { numbers + 64 < 2 ^ 64 }
        ensures counter { IfOk result (λ r. IsCounter numbers seats r.0) }
        ensures seats { IfOk result (λ r. (vec_len r.1 ≡ seats) × All (IsFresh r.0) r.1.items) }
    {
        let shape = Shape {
            numbers: numbers as u64,
            seats: seats as u64,
        };
        let (table, mut first) = Table::of_words(alloc, &[0], &shape)?;
        let mut all = Vec::with_capacity(alloc, seats)?;
        for _ in 1..seats {
            let token = table.shared.split_seat::<OneMore>(&mut first);
            all.push(Seat { token, done: false })?;
        }
        all.push(Seat {
            token: first,
            done: false,
        })?;
        let counter = Counter {
            table,
            numbers,
            seats,
        };
        Ok((counter, all))
    }

    /// Draws a number, by one step on the counter. A seat that has found none left takes no further step.
    pub fn draw(&self, mut seat: Seat) -> (Option<usize>, Seat)
        requires { IsSeatOf self.now seat }
        ensures seat { IsSeatOf self.now result.1 }
        ensures some { IfSome result.0 (λ i. (i < self.now.numbers) × DrawsNumber seat i result.1) }
        ensures none { IfNone result.0 (FindsNone seat result.1) }
        ensures still { seat.done ≡ true → result.0 ≡ None }
    {
        if seat.done {
            return (None, seat);
        }
        let found = self.table.shared.fetch_add::<Draws>(&mut seat.token, 0, 1);
        if found < self.numbers as u64 {
            (Some(found as usize), seat)
        } else {
            seat.done = true;
            (None, seat)
        }
    }

    // One token that knows all that these seats have drawn, if there is a seat.
    fn gather(&self, mut seats: Vec<Seat>) -> Option<Token<u64, Tally>>
        requires { All (IsSeatOf self.now) seats.items }
        ensures none { IfNone result (seats.items ≡ []) }
        ensures some { IfSome result (λ t. (t.table_id ≡ self.now.table) × Gathers t.me.0 seats.items) }
    {
        let Seat {
            token: mut first,
            done: _,
        } = seats.pop()?;
        while let Some(seat) = seats.pop() {
            let Seat { token, done: _ } = seat;
            self.table.shared.join_seat::<OneMore>(&mut first, token);
        }
        Some(first)
    }

    // The counter at the end.
    fn end(self, seats: Vec<Seat>) -> u64
        requires { All (IsSeatOf self) seats.items }
        ensures { Ended self.numbers self.seats seats.items result }
    {
        let token = self.gather(seats);
        let Counter {
            table,
            numbers: _,
            seats: _,
        } = self;
        match token {
            Some(token) => end_with(table, token),
            None => end_alone(table),
        }
    }

    /// Ends the drawing. The numbers that these seats have drawn are less than `below`, each drawn once; given all
    /// seats, they are all of these numbers.
    pub fn close(self, seats: Vec<Seat>) -> Drawn
        requires { All (IsSeatOf self) seats.items }
        ensures below { result.below ≤ self.numbers }
        ensures all { IsTrue result.all ↔ (result.below ≡ self.numbers) }
        ensures once { (x : ℕ) → times_in x seats.items ≤ once_below x result.below }
        ensures every { vec_len seats ≡ self.seats →
            (x : ℕ) → times_in x seats.items ≡ once_below x result.below }
        ensures done { All (λ t. t.done ≡ true → result.below ≡ self.numbers) seats.items }
    {
        let numbers = self.numbers;
        let word = self.end(seats);
        let below = word.min(numbers as u64) as usize;
        Drawn {
            below,
            all: below == numbers,
        }
    }
}

type Words = Table<u64, Tally, Shape, CounterRule, Global>;

// The counter at the end, and what the token knows of it.
fn end_with(table: Words, token: Token<u64, Tally>) -> u64
    requires word { IsOneWord table.shared.table_id }
    requires token { token.table_id ≡ table.shared.table_id }
    ensures { Knows table.shared.key result token.me.0 }
{
    let closed = table.close_with(token);
    let word = closed.word(0);
    closed.free();
    word
}

// The counter at the end, if no seat came back.
fn end_alone(table: Words) -> u64
    requires { IsOneWord table.shared.table_id }
{
    let closed = table.close();
    let word = closed.word(0);
    closed.free();
    word
}
