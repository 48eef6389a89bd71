//! Primitive occurrences, occurrences of events, and coupling modes.

use crate::halt::Cause;
use crate::operator::in_range;
use crate::row::Row;
use crate::value::{ClassNo, Key, Value};
use smallvec::SmallVec;
use std::alloc::AllocError;

/// A primitive occurrence: what rules are notified of.
///
/// HiPAC's primitive events are database operations, external notifications and temporal events.
#[derive(Debug, Drop)]
pub enum Primitive {
    /// An object was created.
    Create {
        /// The object's class.
        class: ClassNo,
        /// Its key.
        key: Key,
        /// Its row.
        new: Row,
    },
    /// An object's fields were set, possibly to the values that they had.
    Update {
        /// The object's class.
        class: ClassNo,
        /// Its key.
        key: Key,
        /// Its row before.
        old: Row,
        /// Its row after.
        new: Row,
    },
    /// An object was deleted.
    Delete {
        /// The object's class.
        class: ClassNo,
        /// Its key.
        key: Key,
        /// Its row before.
        old: Row,
    },
    /// A script or an action gave a signal.
    Signal {
        /// The signal's name.
        name: String,
        /// Its arguments.
        args: Vec<Value>,
    },
    /// A top-level transaction is about to commit.
    Commit,
    /// The logical clock reached this moment.
    Time(u64),
}

/// The commit, with which the unused place of an occurrence's parts is filled.
impl Default for Primitive {
    fn default() -> Primitive {
        Primitive::Commit
    }
}

impl PartialEq for Primitive {
    ghost use Rattle.std.specs.Ordering.{on};
    ghost use Rattle.std.specs.Cmp.{on_equiv, partial_equiv_from_equiv};
    ghost use Rattle.hp_value.specs.Same.{primitive_same, primitive_equiv};
    ghost use Rattle.hp_value.specs.Mapped.{primitive};

    ghost eq = { on primitive primitive_same };

    ghost laws = { partial_equiv_from_equiv (on_equiv primitive primitive_equiv) };

    fn eq(&self, other: &Primitive) -> bool {
        match (self, other) {
            (
                Primitive::Create { class, key, new },
                Primitive::Create {
                    class: c,
                    key: k,
                    new: n,
                },
            ) => class == c && key == k && new == n,
            (
                Primitive::Update {
                    class,
                    key,
                    old,
                    new,
                },
                Primitive::Update {
                    class: c,
                    key: k,
                    old: o,
                    new: n,
                },
            ) => class == c && key == k && old == o && new == n,
            (
                Primitive::Delete { class, key, old },
                Primitive::Delete {
                    class: c,
                    key: k,
                    old: o,
                },
            ) => class == c && key == k && old == o,
            (Primitive::Signal { name, args }, Primitive::Signal { name: x, args: xs }) => {
                name == x && args == xs
            }
            (Primitive::Commit, Primitive::Commit) => true,
            (Primitive::Time(t), Primitive::Time(u)) => t == u,
            _ => false,
        }
    }
}

impl Eq for Primitive {
    ghost use Rattle.std.specs.Cmp.{on_equiv};
    ghost use Rattle.hp_value.specs.Same.{primitive_equiv};
    ghost use Rattle.hp_value.specs.Mapped.{primitive};

    ghost laws = { on_equiv primitive primitive_equiv };
}

impl Clone for Primitive {
    ghost use Rattle.std.specs.Prelude.{◌≡◌};
    ghost use Rattle.hp_value.specs.Mapped.{primitive};

    ghost is_clone = { λ x y. primitive y ≡ primitive x };

    fn clone(&self) -> Result<Primitive, AllocError> {
        match self {
            Primitive::Create { class, key, new } => Ok(Primitive::Create {
                class: *class,
                key: *key,
                new: new.clone()?,
            }),
            Primitive::Update {
                class,
                key,
                old,
                new,
            } => Ok(Primitive::Update {
                class: *class,
                key: *key,
                old: old.clone()?,
                new: new.clone()?,
            }),
            Primitive::Delete { class, key, old } => Ok(Primitive::Delete {
                class: *class,
                key: *key,
                old: old.clone()?,
            }),
            Primitive::Signal { name, args } => Ok(Primitive::Signal {
                name: name.clone()?,
                args: args.clone()?,
            }),
            Primitive::Commit => Ok(Primitive::Commit),
            Primitive::Time(t) => Ok(Primitive::Time(*t)),
        }
    }
}

/// A short name for `Primitive`.
pub type Prim = Primitive;

impl Primitive {
    ghost use Rattle.std.specs.Prelude.{◌≡◌};
    ghost use Rattle.hp_model.specs.Values.{integer};
    ghost use Rattle.hp_model.specs.Expressions as model;
    ghost use Rattle.hp_value.specs.Mapped.{outcome, primitive, value};

    /// The row after an operation. `NoParameter` means that there is none.
    pub fn new_row(&self) -> Result<&Row, Cause>
        ensures { outcome (λ r. r.now) result ≡ model.new_row (primitive self.now) }
    {
        match self {
            Primitive::Create { new, .. } => Ok(new),
            Primitive::Update { new, .. } => Ok(new),
            _ => Err(Cause::NoParameter),
        }
    }

    /// The row before an operation. `NoParameter` means that there is none.
    pub fn old_row(&self) -> Result<&Row, Cause>
        ensures { outcome (λ r. r.now) result ≡ model.old_row (primitive self.now) }
    {
        match self {
            Primitive::Update { old, .. } => Ok(old),
            Primitive::Delete { old, .. } => Ok(old),
            _ => Err(Cause::NoParameter),
        }
    }

    /// The key of an operation's object. `NoParameter` means that this is no operation.
    pub fn key(&self) -> Result<Key, Cause>
        ensures { outcome integer result ≡ model.operation_key (primitive self.now) }
    {
        match self {
            Primitive::Create { key, .. } => Ok(*key),
            Primitive::Update { key, .. } => Ok(*key),
            Primitive::Delete { key, .. } => Ok(*key),
            _ => Err(Cause::NoParameter),
        }
    }

    /// An argument of a signal, by its index from 0. `NoParameter` means that this is no signal, or that it has no such
    /// argument.
    pub fn argument(&self, place: u16) -> Result<&Value, Cause>
        ensures { outcome (λ v. value v.now) result ≡ model.argument_of (primitive self.now) place }
    {
        match self {
            Primitive::Signal { args, .. } => args.get(place as usize).ok_or(Cause::NoParameter),
            _ => Err(Cause::NoParameter),
        }
    }

    /// The moment that the clock reached. `NoParameter` means that this is no moment, `Overflow` that the moment is
    /// outside the range of `i64`.
    pub fn moment(&self) -> Result<i64, Cause>
        ensures { outcome integer result ≡ model.moment_of (primitive self.now) }
    {
        match self {
            Primitive::Time(t) => in_range(*t),
            _ => Err(Cause::NoParameter),
        }
    }
}

/// The parts of an occurrence. One part, as most events have, stands in the occurrence itself.
pub type OccurrenceParts = SmallVec<Primitive, 1>;

/// An occurrence of an event.
#[derive(Debug, Drop)]
pub struct Occurrence {
    /// The primitive occurrences that make it up, in the order that its event gives them.
    pub parts: OccurrenceParts,
    /// How many occurrences it stands for, capped at `u64::MAX` (this project's own choice).
    pub count: u64,
}

impl PartialEq for Occurrence {
    ghost use Rattle.std.specs.Ordering.{on};
    ghost use Rattle.std.specs.Cmp.{on_equiv, partial_equiv_from_equiv};
    ghost use Rattle.hp_value.specs.Same.{occurrence_same, occurrence_equiv};
    ghost use Rattle.hp_value.specs.Mapped.{occurrence};

    ghost eq = { on occurrence occurrence_same };

    ghost laws = { partial_equiv_from_equiv (on_equiv occurrence occurrence_equiv) };

    fn eq(&self, other: &Occurrence) -> bool {
        self.parts == other.parts && self.count == other.count
    }
}

impl Eq for Occurrence {
    ghost use Rattle.std.specs.Cmp.{on_equiv};
    ghost use Rattle.hp_value.specs.Same.{occurrence_equiv};
    ghost use Rattle.hp_value.specs.Mapped.{occurrence};

    ghost laws = { on_equiv occurrence occurrence_equiv };
}

impl Clone for Occurrence {
    ghost use Rattle.std.specs.Prelude.{◌≡◌};
    ghost use Rattle.hp_value.specs.Mapped.{occurrence};

    ghost is_clone = { λ x y. occurrence y ≡ occurrence x };

    fn clone(&self) -> Result<Occurrence, AllocError> {
        Ok(Occurrence {
            parts: self.parts.clone()?,
            count: self.count,
        })
    }
}

/// When and in which transaction a rule's condition is evaluated, relative to the event, or its action runs, relative
/// to the condition.
///
/// The modes are HiPAC's, except `Exclusive`, which is this project's own.
#[derive(Clone, Copy, Debug, PartialEq, Eq)]
pub enum Coupling {
    /// At once, inside the triggering transaction.
    Immediate,
    /// Inside the triggering top-level transaction, after its last operation and before its commit.
    Deferred,
    /// In another top-level transaction, whether or not the triggering one commits.
    Separate,
    /// In another top-level transaction, only if the triggering one commits.
    Dependent,
    /// In another top-level transaction, only if the triggering one aborts.
    Exclusive,
}
