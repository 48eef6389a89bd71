//! Events.

ghost use Rattle.std.specs.Prelude.{◌≡◌, ◌≤◌};
ghost use Rattle.hp_model.specs.NotationPhrases as P;
ghost use Rattle.hp_model.specs.NotationEvents as V;
ghost use Rattle.hp_text.specs.Mapped.{mark_view, node_view, tokens_view, Reads};
ghost use Rattle.hp_text.specs.Joints.{joint_view, joint_mark, joint_tag};

use crate::event_parts::{every, of_name, of_number};
use crate::expression::joined;
use crate::fault::Stop;
use crate::mark::Mark;
use crate::node::{Node, list_node, text_node};
use crate::token::Token;
use crate::tokens::{Tokens, fault, first, is_mark, pass, place, skip};
use std::alloc::Global;

/// The most operators that a chain of events has, which bounds how deep its value nests.
const MAX_CHAIN: usize = 64;

/// What joins two events.
#[derive(Clone, Copy)]
pub(crate) enum Joint {
    Or,
    Then,
}

/// The word in the text.
fn mark_of(joint: Joint) -> Mark
    ensures { mark_view result ≡ joint_mark joint }
{
    match joint {
        Joint::Or => Mark::Or,
        Joint::Then => Mark::Then,
    }
}

/// The word in JSON.
fn tag_of(joint: Joint) -> &'static str
    ensures { result.now ≡ joint_tag joint }
{
    match joint {
        Joint::Or => "or",
        Joint::Then => "seq",
    }
}

/// What may join more events to one: the operator that follows it, and no other.
fn joint_after(tokens: &Tokens<'_>) -> Joint
    ensures { joint_view result ≡ V.event_operator (tokens_view tokens.now) }
{
    if is_mark(Mark::Or, tokens) {
        Joint::Or
    } else {
        Joint::Then
    }
}

/// Reads an event, which may have `levels` levels.
#[cycle(event)]
#[tactic(auto, unfolding(hp_model::specs::NotationEvents::event_within, hp_model::specs::NotationEvents::event))]
pub(crate) fn event(alloc: Global, levels: usize, tokens: &mut Tokens<'_>) -> Result<Node, Stop>
    ensures { Reads node_view result tokens.new (V.event_within levels (tokens_view tokens.old)) }
{
    if levels == 0 {
        return Err(fault(tokens));
    }
    let inner = levels - 1;
    let first = simple_event(alloc, inner, tokens)?;
    let joint = joint_after(tokens);
    event_from(alloc, inner, joint, MAX_CHAIN, first, tokens)
}

/// Reads at most `operators` operators, and the events after them.
#[cycle(event)]
#[tactic(auto, unfolding(hp_model::specs::NotationPhrases::chain_from))]
fn event_from(
    alloc: Global,
    inner: usize,
    joint: Joint,
    operators: usize,
    left: Node,
    tokens: &mut Tokens<'_>,
) -> Result<Node, Stop>
    requires { operators ≤ 64 }
    ensures { Reads node_view result tokens.new
        (P.chain_from (V.simple_event (V.event_within inner)) (joint_view joint) operators (node_view left)
        (tokens_view tokens.old)) }
{
    if !is_mark(mark_of(joint), tokens) {
        return Ok(left);
    }
    if operators == 0 {
        return Err(fault(tokens));
    }
    skip(tokens);
    let right = simple_event(alloc, inner, tokens)?;
    let joined = joined(alloc, tag_of(joint), left, right)?;
    event_from(alloc, inner, joint, operators - 1, joined, tokens)
}

/// Reads an event that no operator joins to others, within which `inner` levels are left.
#[cycle(event)]
fn simple_event(alloc: Global, inner: usize, tokens: &mut Tokens<'_>) -> Result<Node, Stop>
    ensures { Reads node_view result tokens.new (V.simple_event (V.event_within inner) (tokens_view tokens.old)) }
{
    let at = place(tokens);
    match first(tokens) {
        Some(Token::Mark(mark)) => {
            let mark = *mark;
            skip(tokens);
            marked_event(alloc, inner, at, mark, tokens)
        }
        Some(Token::Word("commit")) => {
            skip(tokens);
            Ok(list_node(alloc, at, [text_node(alloc, at, "commit")?])?)
        }
        Some(Token::Word("moment")) => {
            skip(tokens);
            of_number(alloc, at, "at", tokens)
        }
        Some(Token::Word("every")) => {
            skip(tokens);
            every(alloc, at, tokens)
        }
        Some(Token::Word("closure")) => {
            skip(tokens);
            closure(alloc, inner, at, tokens)
        }
        _ => Err(fault(tokens)),
    }
}

/// Reads what stands after the mark of an event.
#[cycle(event)]
fn marked_event(
    alloc: Global,
    inner: usize,
    at: usize,
    mark: Mark,
    tokens: &mut Tokens<'_>,
) -> Result<Node, Stop>
    ensures { Reads node_view result tokens.new
        (V.marked_event (V.event_within inner) at (mark_view mark) (tokens_view tokens.old)) }
{
    match mark {
        Mark::Create => of_name(alloc, at, "create", tokens),
        Mark::Update => of_name(alloc, at, "update", tokens),
        Mark::Delete => of_name(alloc, at, "delete", tokens),
        Mark::Signal => of_name(alloc, at, "signal", tokens),
        Mark::OpenParenthesis => {
            let enclosed = event(alloc, inner, tokens)?;
            pass(Mark::CloseParenthesis, tokens)?;
            Ok(enclosed)
        }
        _ => Err(Stop::Fault(at)),
    }
}

/// Reads the two events of a closure.
#[cycle(event)]
fn closure(alloc: Global, inner: usize, at: usize, tokens: &mut Tokens<'_>) -> Result<Node, Stop>
    ensures { Reads node_view result tokens.new (V.closure (V.event_within inner) at (tokens_view tokens.old)) }
{
    pass(Mark::OpenParenthesis, tokens)?;
    let each = event(alloc, inner, tokens)?;
    pass(Mark::Until, tokens)?;
    let end = event(alloc, inner, tokens)?;
    pass(Mark::CloseParenthesis, tokens)?;
    Ok(list_node(alloc, at, [text_node(alloc, at, "closure")?, each, end])?)
}
