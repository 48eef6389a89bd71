//! What the rules of a library promise before they run: how deep their firings nest, which rules can fire, and whether
//! each value is used as what it is.
//!
//! `hp_model/specs/Chains.antt` defines the triggering graph and its chains; `hp_model::laws::chains` says what a bound
//! of their length is good for, and `hp_model::laws::others_never_fire` what a set of rules that can be reached is.
//! `Kinds.antt` defines the judgement of kinds, and `hp_model::laws::kinds` says what an accepted library never meets.
#![tactic(auto)]

mod calm;
mod chain;
mod forms;
mod graph;
mod guards;
mod installs;
mod kinds;
pub mod laws;
mod links;
mod listeners;
mod sets;
mod triggers;

pub use graph::Graph;
pub use guards::{Opening, have_no_opening, opening_of};
pub use installs::installed;
pub use kinds::all::{KindFinding, kind_findings};
pub use kinds::check::{library_findings, unit_findings};
pub use kinds::declaration::Declaration;
pub use kinds::finding::{Finding, Reason, Wanted};
pub use kinds::infer::{Inferred, UnknownArgument, infer, infer_with};
pub use kinds::sort::Sort;
pub use links::Link;
pub use sets::has;
