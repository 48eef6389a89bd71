//! Steps of paths, and limits, as text.

ghost use Rattle.std.specs.Prelude.{Some};
ghost use Rattle.hp_model.specs.Output.{limit_word, step_text};
ghost use Rattle.hp_rule.specs.Faults.{limit};
ghost use Rattle.hp_rule.specs.Places.{member, path_step};

use crate::fault::Limit;
use crate::place::{Member, PathStep};
use std::fmt;

impl fmt::Display for Member {
    ghost output = { λ m. Some (member m) };

    fn fmt<W: fmt::Write>(&self, f: &mut fmt::Formatter<W>) -> fmt::Result {
        match self {
            Member::Version => write!(f, "version"),
            Member::Depth => write!(f, "depth"),
            Member::Classes => write!(f, "classes"),
            Member::Rules => write!(f, "rules"),
            Member::Items => write!(f, "items"),
        }
    }
}

impl fmt::Display for PathStep {
    ghost output = { λ s. Some (step_text (path_step s)) };

    fn fmt<W: fmt::Write>(&self, f: &mut fmt::Formatter<W>) -> fmt::Result {
        match self {
            PathStep::Member(member) => write!(f, "{member}"),
            PathStep::Item(position) => write!(f, "{position}"),
        }
    }
}

impl fmt::Display for Limit {
    ghost output = { λ l. Some (limit_word (limit l)) };

    fn fmt<W: fmt::Write>(&self, f: &mut fmt::Formatter<W>) -> fmt::Result {
        match self {
            Limit::Size => write!(f, "size"),
            Limit::Classes => write!(f, "classes"),
            Limit::Fields => write!(f, "fields"),
            Limit::Rules => write!(f, "rules"),
            Limit::Expression => write!(f, "expr"),
            Limit::Event => write!(f, "event"),
            Limit::Nesting => write!(f, "nesting"),
            Limit::Text => write!(f, "text"),
            Limit::Depth => write!(f, "depth"),
            Limit::Arguments => write!(f, "args"),
            Limit::Moments => write!(f, "moments"),
        }
    }
}
