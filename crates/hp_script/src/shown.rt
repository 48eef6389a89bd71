//! Refusals as text.

ghost use Rattle.std.specs.Prelude.{◌≡◌, ◌∷◌, Some, IfOk, string_bytes};
ghost use Rattle.std.specs.List.{flat_map};
ghost use Rattle.hp_model.specs.Output.{path_text, step_text, refusal_words, refusal_text as line_of};
ghost use Rattle.hp_model.specs.Report.{words};
ghost use Rattle.hp_rule.specs.Places.{path};
ghost use Rattle.hp_script.specs.Mapped.{refusal as mapped};

use crate::refusal::Refusal;
use hp_rule::PathStep;
use std::alloc::{AllocError, Global};
use std::fmt;

/// A path from the root, which is shown as `/items/0/1`, and as `/` if it has no steps.
#[derive(Clone, Copy)]
pub struct Path<'a>(pub &'a [PathStep]);

impl fmt::Display for Path<'_> {
    ghost output = { λ p. Some (path_text (path p.0.now)) };

    fn fmt<W: fmt::Write>(&self, f: &mut fmt::Formatter<W>) -> fmt::Result {
        if self.0.is_empty() {
            return write!(f, "/");
        }
        let steps = Steps(self.0);
        write!(f, "{steps}")
    }
}

/// The rest of a path, after its first steps. Each step is shown with a slash before it.
#[derive(Clone, Copy)]
pub struct Steps<'a>(pub &'a [PathStep]);

impl fmt::Display for Steps<'_> {
    ghost output = { λ s. Some (flat_map (λ step. 47 ∷ step_text step) (path s.0.now)) };

    fn fmt<W: fmt::Write>(&self, f: &mut fmt::Formatter<W>) -> fmt::Result {
        for step in self.0 {
            write!(f, "/{step}")?;
        }
        Ok(())
    }
}

impl fmt::Display for Refusal {
    ghost output = { λ r. Some (words (refusal_words (mapped r))) };

    fn fmt<W: fmt::Write>(&self, f: &mut fmt::Formatter<W>) -> fmt::Result {
        match self {
            Refusal::S1 => write!(f, "S1"),
            Refusal::S2(path) => {
                let path = Path(path.as_slice());
                write!(f, "S2 {path}")
            }
            Refusal::S3(path) => {
                let path = Path(path.as_slice());
                write!(f, "S3 {path}")
            }
            Refusal::S4(path) => {
                let path = Path(path.as_slice());
                write!(f, "S4 {path}")
            }
            Refusal::S5(limit) => write!(f, "S5 {limit}"),
            Refusal::S6 => write!(f, "S6"),
        }
    }
}

/// The line that is written for a refused script, with its line feed: `refused S6`, `refused S5 size`, or
/// `refused S2 /items/0/1/0`, where the path has the names of members and the positions of items.
///
/// An error means that memory ran out.
pub fn refusal_text(alloc: Global, refusal: &Refusal) -> Result<String, AllocError>
    ensures { IfOk result (λ s. string_bytes s ≡ line_of (mapped refusal.now)) }
{
    format!(in alloc; "refused {refusal}\n")
}
