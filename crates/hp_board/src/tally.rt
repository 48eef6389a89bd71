//! The rule of the counter from which seats draw numbers, in the terms of `atomic_table`.

use atomic_table::{Join, Play, Split, TableRule};
use std::collections::LinkedList;

// What a seat knows: the number of tasks, the shares that it holds (with all shares one knows all that was drawn), what
// it drew, and how often it found no number left. It is used in proofs only; no value of it is made.
pub struct Tally {
    pub numbers: u64,
    pub parts: u64,
    pub drawn: LinkedList<u64>,
    pub missed: u64,
}

/// How many numbers there are, and how many seats draw them.
#[derive(Clone, Copy)]
pub struct Shape {
    pub numbers: u64,
    pub seats: u64,
}

/// The rule: the seats have drawn the numbers below the counter, each once, and the counter stays within 64 bits.
pub struct CounterRule;

impl TableRule<u64, Tally, Shape> for CounterRule {
    ghost use Rattle.std.specs.Prelude.{[]};
    ghost use Rattle.hp_board.specs.Deal.{Counted, tally};

    ghost holds = { Counted };

    ghost first = { λ k. tally k.numbers k.seats [] 0 };
}

/// A draw: the seat gets the number that it found, or has found no number left once more.
pub struct Draws;

impl Play<u64, Tally> for Draws {
    ghost use Rattle.std.specs.Prelude.{◌≡◌};
    ghost use Rattle.hp_board.specs.Deal.{after_draw};

    ghost then = { λ step me found after. after ≡ (after_draw me.0 found, me.1) };
}

/// Splits a seat in two, of which the new one takes one share; or joins two seats.
pub struct OneMore;

impl Split<Tally> for OneMore {
    ghost use Rattle.hp_board.specs.Deal.{fewer, newcomer};

    ghost left = { fewer };

    ghost right = { newcomer };
}

impl Join<Tally> for OneMore {
    ghost use Rattle.hp_board.specs.Deal.{joined, nobody};

    ghost both = { joined };

    ghost spent = { nobody };
}
