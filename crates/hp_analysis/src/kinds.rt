//! Kinds: that each value is used as what it is, read off the rule base alone.

mod aggregate;
pub(crate) mod all;
pub(crate) mod check;
mod columns;
pub(crate) mod declaration;
mod expr;
pub(crate) mod finding;
pub(crate) mod infer;
mod known;
mod occurred;
mod part;
mod rows;
mod rule;
mod scope;
pub(crate) mod sort;
mod sorts;
mod statement;
mod test;
