//! The due moments of a move of the clock.

ghost use Rattle.std.specs.Prelude.{◌≡◌, ◌≤◌, ◌<◌, ◌^◌, map, IfOk, option_map};
ghost use Rattle.hp_model.specs.Occurrences.{moment_reached};
ghost use Rattle.hp_model.specs.Events.{is_multiple, matches, mentions};
ghost use Rattle.hp_model.specs.Decode.{names_moment, due_moments};
ghost use Rattle.hp_event.specs.Mapped.{pattern as pattern_of_model};
ghost use Rattle.hp_detect.specs.Mapped.{event as event_of_model};
ghost use Rattle.hp_rule.specs.Mapped.{rule};
ghost use Rattle.hp_script.specs.Moments.{NextOf, earlier, limited};

use hp_event::Pattern;
use hp_rule::{EventExpr, Rule};
use std::alloc::{AllocError, Global};

/// The most moments that one move of the clock may pass.
const MAX_MOMENTS: usize = 1_000;

/// The first of the moments `first`, `first + period`, .. that is after a time.
#[tactic(auto, using(crate::proofs::Moments::multiple_before_first, crate::proofs::Moments::no_multiple, crate::proofs::Moments::next_multiple))]
fn next_multiple(first: u64, period: u64, after: u64) -> Option<u64>
    requires small { after < 2 ^ 63 }
    ensures { NextOf (is_multiple first period) after result }
{
    if after < first {
        return Some(first);
    }
    if period == 0 {
        return None;
    }
    after.checked_add(period - (after - first) % period)
}

/// The first moment after a time that matches the pattern.
fn next_match(pattern: &Pattern, after: u64) -> Option<u64>
    requires small { after < 2 ^ 63 }
    ensures { NextOf (λ t. matches (pattern_of_model pattern.now) (moment_reached t)) after result }
{
    match pattern {
        Pattern::At(time) => { if after < *time { Some(*time) } else { None } }
        Pattern::Every { first, period } => next_multiple(*first, *period, after),
        _ => None,
    }
}

/// The earlier of two moments.
fn earlier(a: Option<u64>, b: Option<u64>) -> Option<u64>
    ensures { result ≡ earlier a b }
{
    match (a, b) {
        (Some(a), Some(b)) => Some(a.min(b)),
        (Some(a), None) => Some(a),
        (None, b) => b,
    }
}

/// The first moment after a time that a pattern of the event matches.
#[tactic(auto, using(crate::proofs::Moments::next_of_both))]
fn next_mention(event: &EventExpr, after: u64) -> Option<u64>
    requires small { after < 2 ^ 63 }
    ensures { NextOf (λ t. mentions (event_of_model event.now) (moment_reached t)) after result }
{
    match event {
        EventExpr::One(pattern) => next_match(pattern, after),
        EventExpr::Or(a, b) | EventExpr::Seq(a, b) | EventExpr::Closure(a, b) => {
            let first = next_mention(a, after);
            let second = next_mention(b, after);
            earlier(first, second)
        }
    }
}

/// The first moment after a time that the event of some rule names.
#[tactic(auto, using(crate::proofs::Moments::next_of_more))]
fn next_moment(rules: &[Rule], after: u64) -> Option<u64>
    requires small { after < 2 ^ 63 }
    ensures { NextOf (names_moment (map rule rules.now)) after result }
{
    let mut next = None;
    for rule in rules {
        next = earlier(next, next_mention(&rule.event, after));
    }
    next
}

/// The moments after `after`, up to and with `until`, that the event of some rule names; `None` for more than 1,000.
pub(crate) fn due_moments(
    alloc: Global,
    rules: &[Rule],
    after: u64,
    until: u64,
) -> Result<Option<Vec<u64>>, AllocError>
    requires order { after ≤ until }
    requires small { until < 2 ^ 63 }
    ensures { IfOk result (λ found.
        option_map (λ v. v.items) found ≡ limited (due_moments (map rule rules.now) after until)) }
{
    let mut moments = Vec::new(alloc);
    let mut now = after;
    while let Some(moment) = next_moment(rules, now) {
        if moment > until {
            break;
        }
        if moments.len() == MAX_MOMENTS {
            return Ok(None);
        }
        moments.push(moment)?;
        now = moment;
    }
    Ok(Some(moments))
}
