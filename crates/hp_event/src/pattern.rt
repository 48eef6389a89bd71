//! Patterns and what they match.

ghost use Rattle.std.specs.Prelude.{◌≡◌};
ghost use Rattle.hp_model.specs.Events as model;
ghost use Rattle.hp_value.specs.Mapped.{primitive};
ghost use Rattle.hp_event.specs.Mapped.{pattern};

use hp_value::{ClassNo, Prim};
use std::alloc::AllocError;

/// A primitive event: it occurs at each primitive occurrence that the pattern matches.
///
/// HiPAC's primitive events are database operations, external notifications and temporal events. The choice of these
/// seven kinds is this project's own.
#[derive(Debug, Drop)]
pub enum Pattern {
    /// An object of the class is created.
    Create(ClassNo),
    /// An object of the class is updated, even if no value changes.
    Update(ClassNo),
    /// An object of the class is deleted.
    Delete(ClassNo),
    /// A signal of this name is given, with any arguments.
    Signal(String),
    /// A top-level transaction is about to commit.
    Commit,
    /// The logical clock reaches this moment.
    At(u64),
    /// The logical clock reaches the first moment, or that moment plus a multiple of the period.
    Every {
        /// The first moment.
        first: u64,
        /// The distance between two moments. A period of 0 gives the first moment alone.
        period: u64,
    },
}

impl PartialEq for Pattern {
    ghost use Rattle.std.specs.Ordering.{on};
    ghost use Rattle.std.specs.Cmp.{on_equiv, partial_equiv_from_equiv};
    ghost use Rattle.hp_event.specs.Mapped.{pattern};
    ghost use Rattle.hp_event.specs.Same.{pattern_same, pattern_equiv};

    ghost eq = { on pattern pattern_same };

    ghost laws = { partial_equiv_from_equiv (on_equiv pattern pattern_equiv) };

    fn eq(&self, other: &Pattern) -> bool {
        match (self, other) {
            (Pattern::Create(c), Pattern::Create(d)) => c == d,
            (Pattern::Update(c), Pattern::Update(d)) => c == d,
            (Pattern::Delete(c), Pattern::Delete(d)) => c == d,
            (Pattern::Signal(s), Pattern::Signal(t)) => s == t,
            (Pattern::Commit, Pattern::Commit) => true,
            (Pattern::At(t), Pattern::At(u)) => t == u,
            (
                Pattern::Every { first, period },
                Pattern::Every {
                    first: f,
                    period: p,
                },
            ) => first == f && period == p,
            _ => false,
        }
    }
}

impl Eq for Pattern {
    ghost use Rattle.std.specs.Cmp.{on_equiv};
    ghost use Rattle.hp_event.specs.Mapped.{pattern};
    ghost use Rattle.hp_event.specs.Same.{pattern_equiv};

    ghost laws = { on_equiv pattern pattern_equiv };
}

impl Clone for Pattern {
    ghost use Rattle.std.specs.Prelude.{◌≡◌};
    ghost use Rattle.hp_event.specs.Mapped.{pattern};

    ghost is_clone = { λ p q. pattern q ≡ pattern p };

    fn clone(&self) -> Result<Pattern, AllocError> {
        match self {
            Pattern::Create(class) => Ok(Pattern::Create(*class)),
            Pattern::Update(class) => Ok(Pattern::Update(*class)),
            Pattern::Delete(class) => Ok(Pattern::Delete(*class)),
            Pattern::Signal(name) => Ok(Pattern::Signal(name.clone()?)),
            Pattern::Commit => Ok(Pattern::Commit),
            Pattern::At(time) => Ok(Pattern::At(*time)),
            Pattern::Every { first, period } => Ok(Pattern::Every {
                first: *first,
                period: *period,
            }),
        }
    }
}

impl Pattern {
    /// Whether the pattern matches the primitive occurrence. It allocates nothing.
    pub fn matches(&self, prim: &Prim) -> bool
        ensures { result ≡ model.matches (pattern self.now) (primitive prim.now) }
    {
        match (self, prim) {
            (Pattern::Create(wanted), Prim::Create { class, .. }) => wanted == class,
            (Pattern::Update(wanted), Prim::Update { class, .. }) => wanted == class,
            (Pattern::Delete(wanted), Prim::Delete { class, .. }) => wanted == class,
            (Pattern::Signal(wanted), Prim::Signal { name, .. }) => wanted == name,
            (Pattern::Commit, Prim::Commit) => true,
            (Pattern::At(wanted), Prim::Time(time)) => wanted == time,
            (Pattern::Every { first, period }, Prim::Time(time)) => is_multiple(
                *first, *period, *time,
            ),
            _ => false,
        }
    }
}

/// Whether the moment is the first one plus a multiple of the period.
fn is_multiple(first: u64, period: u64, time: u64) -> bool
    ensures { result ≡ model.is_multiple first period time }
{
    match time.checked_sub(first) {
        Some(since) if period == 0 => since == 0,
        Some(since) => since % period == 0,
        None => false,
    }
}
