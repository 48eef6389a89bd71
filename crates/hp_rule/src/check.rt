//! The checks of libraries and bodies.
//!
//! Each check follows its definition in `hp_model`: it passes exactly if that does, and else has the same fault.

pub(crate) mod aggregate;
pub(crate) mod classes;
pub(crate) mod condition;
pub(crate) mod event;
pub(crate) mod expr;
pub(crate) mod name;
pub(crate) mod pairs;
pub(crate) mod query;
pub(crate) mod rules;
pub(crate) mod scope;
pub(crate) mod statement;
