//! Scripts and lines in the text notation: from text to a checked script or request, or to the first fault with its
//! line and column. And scripts and lines in either notation.
//!
//! `hp_model` (`specs/TextScripts.antt`) says what a text means.
#![tactic(auto)]

mod decoding;
mod places;
mod reading;
mod refusal;
mod shown;

pub use decoding::{decode_text, decode_text_request};
pub use places::{member_name, step_of};
pub use reading::{Unread, read_request, read_script};
pub use refusal::{TextError, TextRefusal};
pub use shown::text_refusal_line;
