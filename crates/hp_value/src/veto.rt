//! Vetoes.

ghost use Rattle.std.specs.Prelude.{◌≡◌, IfOk, option_map};
ghost use Rattle.hp_value.specs.Mapped.{value, veto};

use crate::value::{RuleNo, Value};
use std::alloc::{AllocError, Global};

/// A9: a rule vetoes, and what it undoes ends with this.
///
/// What it says lies behind a pointer: few statements end with a veto, and the ends of all have space for one.
#[derive(Debug, Drop)]
pub struct Veto {
    told: Box<Told>,
}

// What a veto says.
#[derive(Debug, Drop)]
struct Told {
    rule: RuleNo,
    message: Option<Value>,
}

impl Veto {
    /// A veto of this rule, with its reason if it gives one.
    pub fn new(alloc: Global, rule: RuleNo, message: Option<Value>) -> Result<Veto, AllocError>
        ensures { IfOk result (λ v. veto v ≡ record { rule = rule; message = option_map value message }) }
    {
        Ok(Veto {
            told: Box::new(alloc, Told { rule, message })?,
        })
    }

    /// The rule that vetoes.
    pub fn rule(&self) -> RuleNo
        ensures { result ≡ (veto self.now).rule }
    {
        self.told.rule
    }

    /// Its reason, if it gives one.
    pub fn message(&self) -> Option<&Value>
        ensures { option_map (λ v. value v.now) result ≡ (veto self.now).message }
    {
        self.told.message.as_ref()
    }
}

impl PartialEq for Veto {
    ghost use Rattle.std.specs.Ordering.{on};
    ghost use Rattle.std.specs.Cmp.{on_equiv, partial_equiv_from_equiv};
    ghost use Rattle.hp_value.specs.Same.{veto_same, veto_equiv};
    ghost use Rattle.hp_value.specs.Mapped.{veto};

    ghost eq = { on veto veto_same };

    ghost laws = { partial_equiv_from_equiv (on_equiv veto veto_equiv) };

    fn eq(&self, other: &Veto) -> bool {
        self.rule() == other.rule()
            && match (self.message(), other.message()) {
                (None, None) => true,
                (Some(v), Some(w)) => v == w,
                _ => false,
            }
    }
}

impl Eq for Veto {
    ghost use Rattle.std.specs.Cmp.{on_equiv};
    ghost use Rattle.hp_value.specs.Same.{veto_equiv};
    ghost use Rattle.hp_value.specs.Mapped.{veto};

    ghost laws = { on_equiv veto veto_equiv };
}

impl Clone for Veto {
    ghost use Rattle.std.specs.Prelude.{◌≡◌};
    ghost use Rattle.hp_value.specs.Mapped.{veto};

    ghost is_clone = { λ x y. veto y ≡ veto x };

    fn clone(&self) -> Result<Veto, AllocError> {
        Ok(Veto {
            told: self.told.clone()?,
        })
    }
}

impl Clone for Told {
    ghost use Rattle.std.specs.Prelude.{◌≡◌, option_map};
    ghost use Rattle.hp_value.specs.Mapped.{value};

    ghost is_clone = { λ x y. (y.rule ≡ x.rule) × (option_map value y.message ≡ option_map value x.message) };

    fn clone(&self) -> Result<Told, AllocError> {
        let message = match &self.message {
            Some(v) => Some(v.clone()?),
            None => None,
        };
        Ok(Told {
            rule: self.rule,
            message,
        })
    }
}
