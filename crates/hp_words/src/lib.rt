//! The command line of the programs.
//!
//! `specs/Words.antt` says what its words mean, as `clap` reads them.
#![tactic(auto)]

mod check;
mod words;

pub use check::{CheckOptions, check_options_of, parse_check_words};
pub use words::{
    LiveOptions, Options, WordFault, live_options_of, options_of, own_words, parse_live_words,
    parse_words, word_code,
};
