//! Values, rows, occurrences and expressions of a rule manager over typed objects.
//!
//! The types stand for those of `hp_model`: `specs/Mapped.antt` has a function for each. `AllocError` and
//! `Halt::Memory` mean that memory ran out.
#![tactic(auto)]

mod cell;
mod class_part;
mod constant;
mod env;
mod eval;
mod expr;
mod halt;
mod objects;
mod occurrence;
mod operand;
mod operator;
mod row;
mod rule_operation;
mod value;
mod veto;

pub use cell::Cell;
pub use class_part::{Attribute, Bounds, ClassPart};
pub use constant::Constant;
pub use env::{Answer, Env, NamedValue, Names, Values};
pub use expr::{Arithmetic, Comparison, Expr};
pub use halt::{Cause, Halt};
pub use objects::ObjectList;
pub use occurrence::{Coupling, Occurrence, OccurrenceParts, Prim, Primitive};
pub use row::{ClassDef, Field, KeyedRow, Row, RowValues};
pub use rule_operation::RuleOperation;
pub use value::{ClassNo, Key, Kind, RuleNo, Value};
pub use veto::Veto;
