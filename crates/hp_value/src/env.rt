//! The environment of an expression.

use crate::halt::Cause;
use crate::occurrence::{Occurrence, Primitive};
use crate::operator::in_range;
use crate::row::{KeyedRow, Row};
use crate::value::{Key, Value};
use std::alloc::AllocError;

/// The kept answer of a query. In HiPAC a condition passes its answers on to the action.
#[derive(Debug, Drop)]
pub struct Answer {
    /// The query's name.
    pub name: String,
    /// The rows for which the query's predicate was true, in ascending key order.
    pub rows: Vec<KeyedRow>,
}

/// A value by its name, as a `let` of a condition found it.
#[derive(Debug, Drop)]
pub struct NamedValue {
    /// The name.
    pub name: String,
    /// The value.
    pub value: Value,
}

/// The environment in which an expression is evaluated. It borrows all that it names: binding a name allocates nothing.
#[derive(Clone, Copy)]
pub struct Env<'a> {
    /// The occurrence that triggered the rule; `None` in the body of a script.
    pub occurrence: Option<&'a Occurrence>,
    /// The rows by name.
    pub rows: Names<'a>,
    /// The values by name.
    pub values: Values<'a>,
    /// The clock's moment while the unit runs.
    pub time: u64,
}

/// Values by name, as a linked list on the stack. The innermost name comes first and hides outer ones.
#[derive(Clone, Copy)]
pub enum Values<'a> {
    /// The values that a condition found; none in the body of a script. A later one hides an earlier one of its name.
    Found(&'a [NamedValue]),
    /// One more name, in front of the outer ones.
    Bound {
        /// The name.
        name: &'a str,
        /// The value that it means.
        value: &'a Value,
        /// The names bound outside this one.
        outer: &'a Values<'a>,
    },
}

/// Rows by name, as a linked list on the stack. The innermost name comes first and hides outer ones.
#[derive(Clone, Copy)]
pub enum Names<'a> {
    /// The kept answers of a condition; none in the body of a script. A query's name means the first row of its answer.
    /// A later answer hides an earlier one of the same name, and an empty answer binds nothing.
    Answers(&'a [Answer]),
    /// One more name, in front of the outer ones.
    Bound {
        /// The name.
        name: &'a str,
        /// The key of the object that the name means.
        key: Key,
        /// The object's row.
        row: &'a Row,
        /// The names bound outside this one.
        outer: &'a Names<'a>,
    },
}

impl PartialEq for Answer {
    ghost use Rattle.std.specs.Ordering.{on};
    ghost use Rattle.std.specs.Cmp.{on_equiv, partial_equiv_from_equiv};
    ghost use Rattle.hp_value.specs.Same.{answer_same, answer_equiv};
    ghost use Rattle.hp_value.specs.Mapped.{answer};

    ghost eq = { on answer answer_same };

    ghost laws = { partial_equiv_from_equiv (on_equiv answer answer_equiv) };

    fn eq(&self, other: &Answer) -> bool {
        self.name == other.name && self.rows == other.rows
    }
}

impl Eq for Answer {
    ghost use Rattle.std.specs.Cmp.{on_equiv};
    ghost use Rattle.hp_value.specs.Same.{answer_equiv};
    ghost use Rattle.hp_value.specs.Mapped.{answer};

    ghost laws = { on_equiv answer answer_equiv };
}

impl Clone for Answer {
    ghost use Rattle.std.specs.Prelude.{◌≡◌};
    ghost use Rattle.hp_value.specs.Mapped.{answer};

    ghost is_clone = { λ x y. answer y ≡ answer x };

    fn clone(&self) -> Result<Answer, AllocError> {
        Ok(Answer {
            name: self.name.clone()?,
            rows: self.rows.clone()?,
        })
    }
}

impl Answer {
    ghost use Rattle.std.specs.Prelude.{◌≡◌, option_map, bytes_eq, cond, map};
    ghost use Rattle.hp_value.specs.Mapped.{first_under, answer};

    /// The first row of the answer, with its key, if the query has this name.
    fn first_under(&self, name: &str) -> Option<(Key, &Row)>
        ensures { option_map (λ r. record { key = r.0; row = r.1.now }) result
            ≡ first_under name.now (answer self.now) }
    {
        if name != self.name.as_str() {
            return None;
        }
        match self.rows.first() {
            Some(first) => Some((first.key, &first.row)),
            None => None,
        }
    }
}

impl<'a> Names<'a> {
    ghost use Rattle.std.specs.Prelude.{◌≡◌, option_map, bytes_eq};
    ghost use Rattle.std.specs.Map.{lookup};
    ghost use Rattle.hp_value.specs.Mapped.{answered_rows, answers};

    /// The row that kept answers bind to a name, with its key: the last answer that binds it wins.
    // Not inlined, so that a lookup of the row that is tested saves few registers.
    #[inline(never)]
    fn answered(kept: &'a [Answer], name: &str) -> Option<(Key, &'a Row)>
        ensures { option_map (λ r. record { key = r.0; row = r.1.now }) result
            ≡ lookup (bytes_eq name.now) (answered_rows (answers kept.now)) }
    {
        let mut found = None;
        for answer in kept {
            found = answer.first_under(name).or(found);
        }
        found
    }
}

impl<'a> Names<'a> {
    ghost use Rattle.std.specs.Prelude.{◌≡◌, ◌∷◌, option_map, bytes_eq};
    ghost use Rattle.std.specs.Map.{lookup};
    ghost use Rattle.hp_value.specs.Mapped.{rows_in, answered_rows, answers};

    /// The names that a condition's kept answers bind.
    pub fn new(kept: &'a [Answer]) -> Names<'a>
        ensures { rows_in result ≡ answered_rows (answers kept.entry.now) }
    {
        Names::Answers(kept)
    }

    /// These names, and one more in front of them.
    pub fn bound<'b>(&'b self, name: &'b str, key: Key, row: &'b Row) -> Names<'b>
        ensures { rows_in result
            ≡ (name.entry.now, record { key = key; row = row.entry.now }) ∷ rows_in self.entry.now }
    {
        Names::Bound {
            name,
            key,
            row,
            outer: self,
        }
    }

    /// The innermost row of this name, with its key.
    pub fn row(&self, name: &str) -> Option<(Key, &'a Row)>
        ensures { option_map (λ r. record { key = r.0; row = r.1.now }) result
            ≡ lookup (bytes_eq name.now) (rows_in self.now) }
    {
        match self {
            Names::Answers(answers) => Names::answered(answers, name),
            Names::Bound {
                name: bound,
                key,
                row,
                outer,
            } => {
                if name == *bound {
                    Some((*key, row))
                } else {
                    outer.row(name)
                }
            }
        }
    }
}

impl PartialEq for NamedValue {
    ghost use Rattle.std.specs.Ordering.{on};
    ghost use Rattle.std.specs.Cmp.{on_equiv, partial_equiv_from_equiv};
    ghost use Rattle.hp_value.specs.Same.{pair_same, pair_equiv};
    ghost use Rattle.hp_value.specs.Mapped.{named_value};

    ghost eq = { on named_value pair_same };

    ghost laws = { partial_equiv_from_equiv (on_equiv named_value pair_equiv) };

    fn eq(&self, other: &NamedValue) -> bool {
        self.name == other.name && self.value == other.value
    }
}

impl Eq for NamedValue {
    ghost use Rattle.std.specs.Cmp.{on_equiv};
    ghost use Rattle.hp_value.specs.Same.{pair_equiv};
    ghost use Rattle.hp_value.specs.Mapped.{named_value};

    ghost laws = { on_equiv named_value pair_equiv };
}

impl Clone for NamedValue {
    ghost use Rattle.std.specs.Prelude.{◌≡◌};
    ghost use Rattle.hp_value.specs.Mapped.{named_value};

    ghost is_clone = { λ x y. named_value y ≡ named_value x };

    fn clone(&self) -> Result<NamedValue, AllocError> {
        Ok(NamedValue {
            name: self.name.clone()?,
            value: self.value.clone()?,
        })
    }
}

impl<'a> Values<'a> {
    ghost use Rattle.std.specs.Prelude.{◌≡◌, ◌∷◌, option_map, bytes_eq};
    ghost use Rattle.std.specs.Map.{lookup};
    ghost use Rattle.hp_value.specs.Mapped as mapped;

    /// The value that those found bind to a name: the last one wins.
    fn found(found: &'a [NamedValue], name: &str) -> Option<&'a Value>
        ensures { option_map (λ v. mapped.value v.now) result
            ≡ lookup (bytes_eq name.now) (mapped.found_values (mapped.named_values found.now)) }
    {
        let mut last = None;
        for named in found {
            if name == named.name.as_str() {
                last = Some(&named.value);
            }
        }
        last
    }

    /// The names that a condition's values bind.
    pub fn new(found: &'a [NamedValue]) -> Values<'a>
        ensures { mapped.values_in result ≡ mapped.found_values (mapped.named_values found.entry.now) }
    {
        Values::Found(found)
    }

    /// These names, and one more in front of them.
    pub fn bound<'b>(&'b self, name: &'b str, value: &'b Value) -> Values<'b>
        ensures { mapped.values_in result
            ≡ (name.entry.now, mapped.value value.entry.now) ∷ mapped.values_in self.entry.now }
    {
        Values::Bound {
            name,
            value,
            outer: self,
        }
    }

    /// The innermost value of this name.
    pub fn value(&self, name: &str) -> Option<&'a Value>
        ensures { option_map (λ v. mapped.value v.now) result
            ≡ lookup (bytes_eq name.now) (mapped.values_in self.now) }
    {
        match self {
            Values::Found(found) => Values::found(found, name),
            Values::Bound {
                name: known,
                value,
                outer,
            } => {
                if name == *known {
                    Some(value)
                } else {
                    outer.value(name)
                }
            }
        }
    }
}

impl<'a> Env<'a> {
    ghost use Rattle.std.specs.Prelude.{◌≡◌, [], option_map};
    ghost use Rattle.hp_model.specs.Conditions.{with_findings};
    ghost use Rattle.hp_value.specs.Mapped as mapped;

    /// The environment in which a condition or an action begins, at a moment of the clock. A condition begins without
    /// answers and values; an action has those that its condition found.
    pub fn new(
        occurrence: Option<&'a Occurrence>,
        answers: &'a [Answer],
        values: &'a [NamedValue],
        time: u64,
    ) -> Env<'a>
        ensures { mapped.environment result ≡ with_findings
            (record {
              occurrence = option_map (λ o. mapped.occurrence o.now) occurrence.entry;
              rows = [];
              values = [];
              now = time;
            })
            (record { answers = mapped.answers answers.entry.now; values = mapped.named_values values.entry.now }) }
    {
        Env {
            occurrence,
            rows: Names::new(answers),
            values: Values::new(values),
            time,
        }
    }
}

impl<'a> Env<'a> {
    ghost use Rattle.std.specs.Prelude.{◌≡◌};
    ghost use Rattle.hp_model.specs.Values.{integer};
    ghost use Rattle.hp_model.specs.Expressions as model;
    ghost use Rattle.hp_value.specs.Mapped.{outcome, value, primitive, environment};

    /// This environment with one more name, which hides outer ones.
    pub fn bound<'b>(&'b self, name: &'b str, key: Key, row: &'b Row) -> Env<'b>
        ensures { environment result ≡ model.bound name.entry.now (record { key = key; row = row.entry.now })
            (environment self.entry.now) }
    {
        Env {
            occurrence: self.occurrence,
            rows: self.rows.bound(name, key, row),
            values: self.values,
            time: self.time,
        }
    }

    /// This environment with one more value, whose name hides outer ones.
    pub fn holding<'b>(&'b self, name: &'b str, held: &'b Value) -> Env<'b>
        ensures { environment result
            ≡ model.holding name.entry.now (value held.entry.now) (environment self.entry.now) }
    {
        Env {
            occurrence: self.occurrence,
            rows: self.rows,
            values: self.values.bound(name, held),
            time: self.time,
        }
    }

    /// The innermost row of this name, with its key. `Kind` means that no row has the name; a checked expression uses
    /// no such name.
    pub fn row(&self, name: &str) -> Result<(Key, &'a Row), Cause>
        ensures { outcome (λ r. record { key = r.0; row = r.1.now }) result
            ≡ model.row_named (environment self.now) name.now }
    {
        self.rows.row(name).ok_or(Cause::Kind)
    }

    /// A part of the occurrence, by its index from 0. `NoParameter` means that there is no occurrence, or no such part.
    pub fn part(&self, i: u16) -> Result<&'a Primitive, Cause>
        ensures { outcome (λ p. primitive p.now) result ≡ model.part_of (environment self.now) i }
    {
        let found = match self.occurrence {
            Some(o) => o.parts.get(i as usize),
            None => None,
        };
        found.ok_or(Cause::NoParameter)
    }

    /// The value of a field of the row of this name.
    #[inline(never)]
    pub(crate) fn field_of(&self, variable: &str, field: &str) -> Result<&'a Value, Cause>
        ensures { outcome (λ v. value v.now) result
            ≡ model.value_of (environment self.now) (model.field_of variable.now field.now) }
    {
        let (_, row) = self.row(variable)?;
        row.field(field)
    }

    /// The key of the row of this name.
    pub(crate) fn key_of(&self, variable: &str) -> Result<Key, Cause>
        ensures { outcome integer result ≡ model.value_of (environment self.now) (model.key_of variable.now) }
    {
        let (key, _) = self.row(variable)?;
        Ok(key)
    }

    /// The value of a field of an operation's row after it.
    #[inline(never)]
    pub(crate) fn new_field(&self, part: u16, field: &str) -> Result<&'a Value, Cause>
        ensures { outcome (λ v. value v.now) result
            ≡ model.value_of (environment self.now) (model.new_field part field.now) }
    {
        self.part(part)?.new_row()?.field(field)
    }

    /// The value of a field of an operation's row before it.
    #[inline(never)]
    pub(crate) fn old_field(&self, part: u16, field: &str) -> Result<&'a Value, Cause>
        ensures { outcome (λ v. value v.now) result
            ≡ model.value_of (environment self.now) (model.old_field part field.now) }
    {
        self.part(part)?.old_row()?.field(field)
    }

    /// The key of an operation's object.
    pub(crate) fn key_in(&self, part: u16) -> Result<Key, Cause>
        ensures { outcome integer result ≡ model.value_of (environment self.now) (model.key_in part) }
    {
        self.part(part)?.key()
    }

    /// The value of an argument of a signal.
    #[inline(never)]
    pub(crate) fn argument(&self, part: u16, place: u16) -> Result<&'a Value, Cause>
        ensures { outcome (λ v. value v.now) result
            ≡ model.value_of (environment self.now) (model.argument part place) }
    {
        self.part(part)?.argument(place)
    }

    /// The moment that the clock reached.
    pub(crate) fn time_of(&self, part: u16) -> Result<i64, Cause>
        ensures { outcome integer result ≡ model.value_of (environment self.now) (model.time_of part) }
    {
        self.part(part)?.moment()
    }

    /// The occurrence's count. `NoParameter` means that there is no occurrence.
    pub(crate) fn count(&self) -> Result<i64, Cause>
        ensures { outcome integer result ≡ model.value_of (environment self.now) model.occurrence_count }
    {
        match self.occurrence {
            Some(o) => in_range(o.count),
            None => Err(Cause::NoParameter),
        }
    }

    /// The value of the `let` of this name. `Kind` means that there is none; a checked expression uses no such name.
    #[inline(never)]
    pub(crate) fn value_of(&self, name: &str) -> Result<&'a Value, Cause>
        ensures { outcome (λ v. value v.now) result
            ≡ model.value_of (environment self.now) (model.value_named name.now) }
    {
        self.values.value(name).ok_or(Cause::Kind)
    }

    /// The clock's moment.
    pub(crate) fn moment(&self) -> Result<i64, Cause>
        ensures { outcome integer result ≡ model.value_of (environment self.now) model.time_now }
    {
        in_range(self.time)
    }
}
