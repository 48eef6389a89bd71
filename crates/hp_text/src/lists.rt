//! Lists with commas between their parts.

ghost use Rattle.std.specs.Prelude.{◌≡◌, map};
ghost use Rattle.hp_model.specs.NotationTokens.{size};
ghost use Rattle.hp_model.specs.NotationTree as T;
ghost use Rattle.hp_model.specs.NotationPhrases as P;
ghost use Rattle.hp_model.specs.NotationExpressions as E;
ghost use Rattle.hp_model.specs.NotationStatements as S;
ghost use Rattle.hp_text.specs.Mapped.{node_view, tokens_view, Reads};
ghost use Rattle.hp_text.specs.Rows.{nodes_view};
ghost use Rattle.hp_text.specs.Lists.{phrase_of};

use crate::class::field;
use crate::expression::sum;
use crate::fault::Stop;
use crate::mark::Mark;
use crate::node::{Node, list_node, offset};
use crate::parts::{MAX_LEVELS, name};
use crate::rows::any_expression;
use crate::tokens::{Tokens, count, fault, is_mark, pass, place, skip};
use std::alloc::Global;

/// Reads the value in a `set`, so that no `=` follows the `=`.
fn any_sum(alloc: Global, tokens: &mut Tokens<'_>) -> Result<Node, Stop>
    ensures { Reads node_view result tokens.new (E.any_sum (tokens_view tokens.old)) }
{
    sum(alloc, MAX_LEVELS - 1, tokens)
}

/// Reads `F = e`.
fn pair(alloc: Global, tokens: &mut Tokens<'_>) -> Result<Node, Stop>
    ensures { Reads node_view result tokens.new (S.pair (tokens_view tokens.old)) }
{
    let field = name(alloc, tokens)?;
    pass(Mark::Equal, tokens)?;
    let value = any_sum(alloc, tokens)?;
    let at = offset(&field);
    Ok(list_node(alloc, at, [field, value])?)
}

/// What a list with commas consists of.
#[derive(Clone, Copy)]
pub(crate) enum Part {
    /// `F = e`.
    Pair,
    Expression,
    /// `F: k`.
    Field,
}

/// Reads one part of a list.
fn read_part(alloc: Global, part: Part, tokens: &mut Tokens<'_>) -> Result<Node, Stop>
    ensures { Reads node_view result tokens.new (phrase_of part (tokens_view tokens.old)) }
{
    match part {
        Part::Pair => pair(alloc, tokens),
        Part::Expression => any_expression(alloc, tokens),
        Part::Field => field(alloc, tokens),
    }
}

/// Reads one part or more, with commas between them. There are no more of them than tokens.
pub(crate) fn listed(alloc: Global, kind: Part, tokens: &mut Tokens<'_>) -> Result<Vec<Node>, Stop>
    ensures { Reads nodes_view result tokens.new
        (P.listed (phrase_of kind) (size (tokens_view tokens.old)) (tokens_view tokens.old)) }
{
    let mut parts = Vec::new(alloc);
    let count = count(tokens);
    for done in 0..count {
        let part = read_part(alloc, kind, tokens)?;
        parts.push(part)?;
        if !is_mark(Mark::Comma, tokens) {
            return Ok(parts);
        }
        skip(tokens);
    }
    Err(fault(tokens))
}

/// Reads `set F = e, ..`, if it is there.
pub(crate) fn pairs(alloc: Global, tokens: &mut Tokens<'_>) -> Result<Node, Stop>
    ensures { Reads node_view result tokens.new (S.pairs (tokens_view tokens.old)) }
{
    let at = place(tokens);
    if !is_mark(Mark::Set, tokens) {
        return Ok(Node::List(at, Vec::new(alloc)));
    }
    skip(tokens);
    let pairs = listed(alloc, Part::Pair, tokens)?;
    Ok(Node::List(at, pairs))
}

/// Reads what stands after the parenthesis of arguments.
fn some_arguments(alloc: Global, at: usize, tokens: &mut Tokens<'_>) -> Result<Node, Stop>
    ensures { Reads node_view result tokens.new (S.some_arguments at (tokens_view tokens.old)) }
{
    if is_mark(Mark::CloseParenthesis, tokens) {
        skip(tokens);
        return Ok(Node::List(at, Vec::new(alloc)));
    }
    let arguments = listed(alloc, Part::Expression, tokens)?;
    pass(Mark::CloseParenthesis, tokens)?;
    Ok(Node::List(at, arguments))
}

/// Reads `(e, ..)`, if it is there.
pub(crate) fn arguments(alloc: Global, tokens: &mut Tokens<'_>) -> Result<Node, Stop>
    ensures { Reads node_view result tokens.new (S.arguments (tokens_view tokens.old)) }
{
    let at = place(tokens);
    if !is_mark(Mark::OpenParenthesis, tokens) {
        return Ok(Node::List(at, Vec::new(alloc)));
    }
    skip(tokens);
    some_arguments(alloc, at, tokens)
}
