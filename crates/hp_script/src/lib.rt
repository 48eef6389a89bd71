//! Reads scripts: from bytes to JSON, and from JSON to a checked library and its units, or to the first fault.
//!
//! The grammar and the order of its checks are in `hp_model` (`specs/Decode.antt` and the files that it names).
#![tactic(auto)]

mod aggregate;
mod aggregate_form;
mod assignment;
mod class;
mod coupling;
mod decoding;
mod entry;
mod entry_form;
mod event;
mod expression;
mod expression_form;
mod item;
mod json;
mod known;
mod leaf;
mod list;
mod moment;
mod name;
mod names;
mod number;
mod operation;
mod query;
mod reference;
mod refusal;
mod request;
mod rule;
mod rule_head;
mod schedule;
mod scope;
mod script;
mod setting;
mod shape;
mod shown;
mod statement;
mod statement_form;
mod version;

pub use decoding::{decode, decode_value};
pub use hp_rule::{Limit, Member, PathStep};
pub use json::json_at;
pub use list::{list_at, short_list_at};
pub use name::name_at;
pub use refusal::{DecodeError, Refusal, bad_name, shaped};
pub use request::{Excerpt, Request, decode_request, decode_request_value};
pub use schedule::Schedule;
pub use script::Script;
pub use shape::pair_of;
pub use shown::{Path, Steps, refusal_text};
pub use version::Version;
