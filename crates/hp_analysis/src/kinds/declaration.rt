//! What is declared of signals, and which rules statements may fire.

ghost use Rattle.std.specs.Prelude.{◌≡◌, ◌++◌, ◌∷◌, [], map, OnOk, if◌then◌else◌, bytes_eq, List, ℕ, string_bytes};
ghost use Rattle.std.specs.Prelude.{Some, is_some};
ghost use Rattle.std.specs.Map.{lookup};
ghost use Rattle.hp_model.specs.Kinds as model;
ghost use Rattle.hp_model.specs.Kinds.{signature_of};
ghost use Rattle.hp_analysis.specs.Kinded.{sort};
ghost use Rattle.hp_analysis.specs.Declarations.{declared, sorts_found};
ghost use Rattle.std.specs.BTreeMap.{get_by_text};

use crate::kinds::sort::Sort;
use hp_value::RuleNo;
use std::alloc::{AllocError, Global};
use std::collections::BTreeMap;

/// For some signals, the sorts of their first arguments; and the rules that statements may fire.
///
/// A rule base is checked against a declaration. What the check promises holds for each declaration, so it doesn't
/// matter where one comes from: `infer` finds one for a rule base, and `declare` replaces a signature. A signal that is
/// declared to have no arguments is declared; `infer_with` leaves it so.
#[derive(Debug, Drop)]
pub struct Declaration {
    pub(crate) signatures: BTreeMap<String, Vec<Sort>>,
    pub(crate) fired: Vec<RuleNo>,
}

impl Declaration {
    /// A declaration of no arguments, by which no rule may be fired by a statement.
    pub fn new(alloc: Global) -> Declaration
        ensures signatures { (name : List ℕ) → signature_of (declared result) name ≡ [] }
        ensures nothing { (declared result).signatures ≡ [] }
        ensures fired { (declared result).fired ≡ [] }
    {
        Declaration {
            signatures: BTreeMap::new(alloc),
            fired: Vec::new(alloc),
        }
    }

    /// The sorts that are stored for a signal.
    fn stored(&self, name: &str) -> &[Sort]
        ensures { map sort result.now ≡ sorts_found (get_by_text self.now.signatures name.now) }
    {
        match self.signatures.get(name) {
            Some(sorts) => sorts,
            None => &[],
        }
    }

    /// The sorts of the first arguments of a signal. A signal that isn't declared has none.
    pub fn signature(&self, name: &str) -> &[Sort]
        ensures { map sort result.now ≡ signature_of (declared self.now) name.now }
    {
        self.stored(name)
    }

    /// Whether a signal is declared, also if it is to have no arguments.
    pub fn is_declared(&self, name: &str) -> bool
        ensures { result ≡ is_some (lookup (bytes_eq name.now) (declared self.now).signatures) }
    {
        self.signatures.contains_key(name)
    }

    /// Declares the first arguments of a signal, in place of what was declared of it.
    ///
    /// An error means that memory ran out. The signal may then be undeclared.
    pub fn declare(&mut self, name: String, sorts: Vec<Sort>) -> Result<(), AllocError>
        ensures signature { OnOk result ((other : List ℕ) → signature_of (declared self.new) other
            ≡ (if bytes_eq (string_bytes name) other then map sort sorts.items
            else signature_of (declared self.old) other)) }
        ensures stored { OnOk result ((other : List ℕ) → lookup (bytes_eq other) (declared self.new).signatures
            ≡ (if bytes_eq (string_bytes name) other then Some (map sort sorts.items)
            else lookup (bytes_eq other) (declared self.old).signatures)) }
        ensures fired { OnOk result ((declared self.new).fired ≡ (declared self.old).fired) }
    {
        self.signatures.insert(name, sorts)?;
        Ok(())
    }

    /// Whether a statement may fire the rule of this number.
    pub fn is_fired(&self, number: usize) -> bool
        ensures { result ≡ model.is_fired (declared self.now) number }
    {
        self.fired.iter().any(|rule| *rule as usize == number)
    }

    /// Lets statements fire the rule of this number.
    pub(crate) fn allow(&mut self, number: RuleNo) -> Result<(), AllocError>
        ensures signatures { OnOk result ((declared self.new).signatures ≡ (declared self.old).signatures) }
        ensures fired { OnOk result ((declared self.new).fired ≡ (declared self.old).fired ++ number ∷ []) }
    {
        self.fired.push(number)?;
        Ok(())
    }
}
