//! Events.

ghost use Rattle.std.specs.Prelude.{◌≡◌, ◌||◌, ℕ, [], Option, OnOk, IfSome, map};
ghost use Rattle.serde_json.specs.Data.{Data};
ghost use Rattle.serde_json.specs.View.{view};
ghost use Rattle.hp_model.specs.Parts.{name_of};
ghost use Rattle.hp_model.specs.NotationForms as F;
ghost use Rattle.hp_model.specs.NotationPrint as P;
ghost use Rattle.hp_model.specs.NotationPrint.{event_pieces, enclosed_if, is_or, is_then};
ghost use Rattle.hp_model.specs.NotationValues.{of_one, of_two, natural_of};
ghost use Rattle.hp_model.specs.NotationValues.{event_of, event_of_one, event_of_two, event_of_form};
ghost use Rattle.hp_text.specs.Mapped.{mark_view};
ghost use Rattle.hp_print.specs.Written.{gap_view, step, Writes};
ghost use Rattle.hp_print.specs.Events.{change_view, joint_mark, joint_view, is_joint, other_joint};

use crate::names::{name, natural};
use crate::shape::form_of;
use crate::token::Gap;
use crate::writer::Writer;
use hp_text::Mark;
use serde_json::Value;
use std::alloc::AllocError;

/// The most levels that an event may have.
const MAX_LEVELS: usize = 64;

/// The kinds of changes to an object.
#[derive(Clone, Copy)]
enum Change {
    Creation,
    Change,
    Deletion,
}

impl Change {
    fn sign(self) -> Mark
        ensures { mark_view result ≡ F.change_mark (change_view self) }
    {
        match self {
            Change::Creation => Mark::Create,
            Change::Change => Mark::Update,
            Change::Deletion => Mark::Delete,
        }
    }
}

/// Writes an event of a change to an object.
fn on_change(w: &mut Writer, gap: Gap, change: Change, class: &Value) -> Result<(), AllocError>
    ensures { OnOk result (Writes w.old w.new (step (λ e. event_pieces e (gap_view gap))
        (of_one (F.on_change (change_view change)) (name_of (view class.now))))) }
{
    w.mark(gap, change.sign())?;
    name(w, Gap::Space, class)
}

/// Writes the event of a signal.
fn on_signal(w: &mut Writer, gap: Gap, signal: &Value) -> Result<(), AllocError>
    ensures { OnOk result (Writes w.old w.new (step (λ e. event_pieces e (gap_view gap))
        (of_one F.on_signal (name_of (view signal.now))))) }
{
    w.mark(gap, Mark::Signal)?;
    name(w, Gap::Space, signal)
}

/// Writes a moment.
fn at_moment(w: &mut Writer, gap: Gap, time: &Value) -> Result<(), AllocError>
    ensures { OnOk result (Writes w.old w.new (step (λ e. event_pieces e (gap_view gap))
        (of_one F.at_moment (natural_of (view time.now))))) }
{
    w.word(gap, "moment")?;
    natural(w, Gap::Space, time)
}

/// Writes moments at a distance from each other.
fn every_moment(w: &mut Writer, gap: Gap, first: &Value, period: &Value) -> Result<(), AllocError>
    ensures { OnOk result (Writes w.old w.new (step (λ e. event_pieces e (gap_view gap))
        (of_two F.every_moment (natural_of (view first.now)) (natural_of (view period.now))))) }
{
    w.word(gap, "every")?;
    natural(w, Gap::Space, period)?;
    w.word(Gap::Space, "from")?;
    natural(w, Gap::Space, first)
}

/// What joins two events.
#[derive(Clone, Copy)]
enum Joint {
    Or,
    Then,
}

impl Joint {
    fn sign(self) -> Mark
        ensures { mark_view result ≡ joint_mark self }
    {
        match self {
            Joint::Or => Mark::Or,
            Joint::Then => Mark::Then,
        }
    }
}

/// Whether the event that a form is, is joined so.
fn is_joined_form(joint: Joint, word: &str, parts: &[Value]) -> bool
    ensures { (part : Data → Option F.Event) →
        IfSome (event_of_form part word.now (map view parts.now)) (λ e. result ≡ is_joint joint e) }
{
    if parts.len() != 2 {
        return false;
    }
    match joint {
        Joint::Or => word == "or",
        Joint::Then => word == "seq",
    }
}

/// Whether the event that a value is, is joined so.
fn is_joint(joint: Joint, value: &Value) -> bool
    ensures { (n : ℕ) → IfSome (event_of n (view value.now)) (λ e. result ≡ is_joint joint e) }
{
    match form_of(value) {
        Some(form) => is_joined_form(joint, form.word, form.parts),
        None => false,
    }
}

/// Writes the event of a word and a part.
fn of_one(w: &mut Writer, gap: Gap, word: &str, part: &Value) -> Result<(), AllocError>
    ensures { OnOk result (Writes w.old w.new
        (step (λ e. event_pieces e (gap_view gap)) (event_of_one word.now (view part.now)))) }
{
    match word {
        "create" => on_change(w, gap, Change::Creation, part),
        "update" => on_change(w, gap, Change::Change, part),
        "delete" => on_change(w, gap, Change::Deletion, part),
        "signal" => on_signal(w, gap, part),
        "at" => at_moment(w, gap, part),
        _ => {
            w.refuse();
            Ok(())
        }
    }
}

/// Writes an event, in parentheses or not.
#[cycle(event)]
fn enclosed(
    w: &mut Writer,
    levels: usize,
    gap: Gap,
    is_enclosed: bool,
    value: &Value,
) -> Result<(), AllocError>
    ensures { OnOk result (Writes w.old w.new
        (step (λ e. enclosed_if is_enclosed (event_pieces e) (gap_view gap)) (event_of levels (view value.now)))) }
{
    if is_enclosed {
        w.mark(gap, Mark::OpenParenthesis)?;
        event(w, levels, Gap::Tight, value)?;
        return w.mark(Gap::Tight, Mark::CloseParenthesis);
    }
    event(w, levels, gap, value)
}

/// Writes the left part of two that are joined, in parentheses if it is joined otherwise.
#[cycle(event)]
fn left_part(
    w: &mut Writer,
    levels: usize,
    gap: Gap,
    joint: Joint,
    value: &Value,
) -> Result<(), AllocError>
    ensures { OnOk result (Writes w.old w.new
        (step (λ e. enclosed_if (other_joint joint e) (event_pieces e) (gap_view gap))
        (event_of levels (view value.now)))) }
{
    let is_enclosed = match joint {
        Joint::Or => is_joint(Joint::Then, value),
        Joint::Then => is_joint(Joint::Or, value),
    };
    enclosed(w, levels, gap, is_enclosed, value)
}

/// Writes the right part of two that are joined, in parentheses if it is joined, too.
#[cycle(event)]
fn right_part(w: &mut Writer, levels: usize, value: &Value) -> Result<(), AllocError>
    ensures { OnOk result (Writes w.old w.new
        (step (λ e. enclosed_if (is_or e || is_then e) (event_pieces e) P.space) (event_of levels (view value.now)))) }
{
    let is_joined = is_joint(Joint::Or, value) || is_joint(Joint::Then, value);
    enclosed(w, levels, Gap::Space, is_joined, value)
}

/// Writes two events that are joined.
#[cycle(event)]
fn joined(
    w: &mut Writer,
    levels: usize,
    gap: Gap,
    joint: Joint,
    left: &Value,
    right: &Value,
) -> Result<(), AllocError>
    ensures { OnOk result (Writes w.old w.new (step (λ e. event_pieces e (gap_view gap))
        (of_two (joint_view joint) (event_of levels (view left.now)) (event_of levels (view right.now))))) }
{
    left_part(w, levels, gap, joint, left)?;
    w.mark(Gap::Space, joint.sign())?;
    right_part(w, levels, right)
}

/// Writes a closure.
#[cycle(event)]
fn closure(
    w: &mut Writer,
    levels: usize,
    gap: Gap,
    left: &Value,
    right: &Value,
) -> Result<(), AllocError>
    ensures { OnOk result (Writes w.old w.new (step (λ e. event_pieces e (gap_view gap))
        (of_two F.closure_event (event_of levels (view left.now)) (event_of levels (view right.now))))) }
{
    w.word(gap, "closure")?;
    w.mark(Gap::Tight, Mark::OpenParenthesis)?;
    event(w, levels, Gap::Tight, left)?;
    w.mark(Gap::Space, Mark::Until)?;
    event(w, levels, Gap::Space, right)?;
    w.mark(Gap::Tight, Mark::CloseParenthesis)
}

/// Writes the event of a word and two parts.
#[cycle(event)]
fn of_two(
    w: &mut Writer,
    levels: usize,
    gap: Gap,
    word: &str,
    first: &Value,
    second: &Value,
) -> Result<(), AllocError>
    ensures { OnOk result (Writes w.old w.new (step (λ e. event_pieces e (gap_view gap))
        (event_of_two (event_of levels) word.now (view first.now) (view second.now)))) }
{
    match word {
        "every" => every_moment(w, gap, first, second),
        "or" => joined(w, levels, gap, Joint::Or, first, second),
        "seq" => joined(w, levels, gap, Joint::Then, first, second),
        "closure" => closure(w, levels, gap, first, second),
        _ => {
            w.refuse();
            Ok(())
        }
    }
}

/// Writes the event of a word alone.
fn word_alone(w: &mut Writer, gap: Gap, word: &str) -> Result<(), AllocError>
    ensures { (part : Data → Option F.Event) → OnOk result (Writes w.old w.new
        (step (λ e. event_pieces e (gap_view gap)) (event_of_form part word.now []))) }
{
    match word {
        "commit" => w.word(gap, "commit"),
        _ => {
            w.refuse();
            Ok(())
        }
    }
}

/// Writes the event in a value, which has at most `levels` levels.
#[cycle(event)]
#[tactic(auto, unfolding(hp_model::specs::NotationValues::event_of))]
fn event(w: &mut Writer, levels: usize, gap: Gap, value: &Value) -> Result<(), AllocError>
    ensures { OnOk result (Writes w.old w.new
        (step (λ e. event_pieces e (gap_view gap)) (event_of levels (view value.now)))) }
{
    let Some(form) = form_of(value) else {
        w.refuse();
        return Ok(());
    };
    if levels == 0 {
        w.refuse();
        return Ok(());
    }
    match form.parts {
        [] => word_alone(w, gap, form.word),
        [part] => of_one(w, gap, form.word, part),
        [first, second] => of_two(w, levels - 1, gap, form.word, first, second),
        _ => {
            w.refuse();
            Ok(())
        }
    }
}

/// Writes the event in a value.
pub(crate) fn any_event(w: &mut Writer, gap: Gap, value: &Value) -> Result<(), AllocError>
    ensures { OnOk result (Writes w.old w.new
        (step (λ e. event_pieces e (gap_view gap)) (event_of 64 (view value.now)))) }
{
    event(w, MAX_LEVELS, gap, value)
}
