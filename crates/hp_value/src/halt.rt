//! Why an evaluation or a statement ends early.

ghost use Rattle.std.specs.Prelude.{◌≡◌};
ghost use Rattle.hp_value.specs.declared.halt.Halt.TheVariants.{Memory, Cause as ByCause};

use std::alloc::AllocError;

/// Why a statement aborts the innermost transaction around it. A veto, of which [`Veto`] tells, aborts too.
///
/// These causes are this project's own choice.
#[derive(Clone, Copy, Debug, PartialEq, Eq)]
pub enum Cause {
    /// A1: `create` of an object that exists.
    Exists,
    /// A2: a missing object is updated, deleted or read, or an absent rule is enabled, disabled or fired.
    Missing,
    /// A3: a value of the wrong kind, or a field that the row lacks.
    Kind,
    /// A4: a result outside the range of `i64`.
    Overflow,
    /// A5: a zero divisor.
    DivideByZero,
    /// A6: the occurrence has no such part, or the part lacks what the expression reads.
    NoParameter,
    /// A7: a rule is triggered beyond the depth limit.
    Depth,
    /// A8: the statement `abort`.
    Asked,
}

/// Why an evaluation has no value: a cause in the script itself, or out of memory.
#[derive(Clone, Copy, Debug, PartialEq, Eq)]
pub enum Halt {
    /// The statement aborts, by this cause.
    Cause(Cause),
    /// Out of memory.
    Memory,
}

impl From<AllocError> for Halt {
    ghost from_gives = { λ _ h. h ≡ Memory };

    fn from(_error: AllocError) -> Self {
        Halt::Memory
    }
}

impl From<Cause> for Halt {
    ghost from_gives = { λ c h. h ≡ ByCause c };

    fn from(cause: Cause) -> Self {
        Halt::Cause(cause)
    }
}
