//! Operands that are no numbers and have no parentheses round them.

ghost use Rattle.std.specs.Prelude.{◌≡◌, false};
ghost use Rattle.hp_model.specs.NotationTokens.{key_mark};
ghost use Rattle.hp_model.specs.NotationPhrases as P;
ghost use Rattle.hp_model.specs.NotationExpressions as E;
ghost use Rattle.hp_text.specs.Mapped.{node_view, tokens_view, Gives, Reads};

use crate::fault::Stop;
use crate::mark::Mark;
use crate::node::{Node, list_node, text_node};
use crate::parts::{name, natural};
use crate::tokens::{Tokens, fault, is_mark, is_word, pass, place, skip};
use std::alloc::Global;

/// Reads the key or a field of a row.
fn of_row(alloc: Global, at: usize, row: Node, tokens: &mut Tokens<'_>) -> Result<Node, Stop>
    ensures { Reads node_view result tokens.new (E.of_row at (node_view row) (tokens_view tokens.old)) }
{
    if is_mark(Mark::Key, tokens) {
        skip(tokens);
        return Ok(list_node(alloc, at, [text_node(alloc, at, "key")?, row])?);
    }
    let field = name(alloc, tokens)?;
    Ok(list_node(alloc, at, [text_node(alloc, at, "of")?, row, field])?)
}

/// A name alone: a value, or the moment of the clock.
fn alone(alloc: Global, at: usize, is_now: bool, name: Node) -> Result<Node, Stop>
    ensures { Gives node_view result (E.alone at is_now (node_view name)) }
{
    if is_now {
        return Ok(list_node(alloc, at, [text_node(alloc, at, "now")?])?);
    }
    Ok(list_node(alloc, at, [text_node(alloc, at, "value")?, name])?)
}

/// Reads what stands after a name.
pub(crate) fn after_name(
    alloc: Global,
    at: usize,
    is_now: bool,
    name: Node,
    tokens: &mut Tokens<'_>,
) -> Result<Node, Stop>
    ensures { Reads node_view result tokens.new (E.named at is_now (node_view name) (tokens_view tokens.old)) }
{
    if is_mark(Mark::Point, tokens) {
        skip(tokens);
        return of_row(alloc, at, name, tokens);
    }
    alone(alloc, at, is_now, name)
}

/// Reads `[n]`.
fn bracketed(tokens: &mut Tokens<'_>) -> Result<Node, Stop>
    ensures { Reads node_view result tokens.new (E.bracketed (tokens_view tokens.old)) }
{
    let number = natural(tokens)?;
    pass(Mark::CloseBracket, tokens)?;
    Ok(number)
}

/// Reads `[n]`, the number of an event's part, which is 0 if it isn't there.
fn part(tokens: &mut Tokens<'_>) -> Result<Node, Stop>
    ensures { Reads node_view result tokens.new (E.part (tokens_view tokens.old)) }
{
    if !is_mark(Mark::OpenBracket, tokens) {
        return Ok(Node::Integer(place(tokens), 0));
    }
    skip(tokens);
    bracketed(tokens)
}

/// Reads the field of a part's row, after `new` or `old`.
pub(crate) fn row_field(
    alloc: Global,
    at: usize,
    tag: &str,
    tokens: &mut Tokens<'_>,
) -> Result<Node, Stop>
    ensures { Reads node_view result tokens.new (E.row_field at tag.now (tokens_view tokens.old)) }
{
    let part = part(tokens)?;
    pass(Mark::Point, tokens)?;
    let field = name(alloc, tokens)?;
    Ok(list_node(alloc, at, [text_node(alloc, at, tag)?, part, field])?)
}

/// Reads the number of an argument.
fn argument(alloc: Global, at: usize, part: Node, tokens: &mut Tokens<'_>) -> Result<Node, Stop>
    ensures { Reads node_view result tokens.new (E.argument at (node_view part) (tokens_view tokens.old)) }
{
    pass(Mark::OpenParenthesis, tokens)?;
    let number = natural(tokens)?;
    pass(Mark::CloseParenthesis, tokens)?;
    Ok(list_node(alloc, at, [text_node(alloc, at, "arg")?, part, number])?)
}

/// Reads the moment of a part of the event, or an argument.
fn time_or_argument(
    alloc: Global,
    at: usize,
    part: Node,
    tokens: &mut Tokens<'_>,
) -> Result<Node, Stop>
    requires { P.begins (P.is_mark key_mark) (tokens_view tokens.old) ≡ false }
    ensures { Reads node_view result tokens.new (E.of_part at (node_view part) (tokens_view tokens.old)) }
{
    if is_word("time", tokens) {
        skip(tokens);
        return Ok(list_node(alloc, at, [text_node(alloc, at, "time")?, part])?);
    }
    if !is_word("arg", tokens) {
        return Err(fault(tokens));
    }
    skip(tokens);
    argument(alloc, at, part, tokens)
}

/// Reads what a part of the event has.
fn of_part(alloc: Global, at: usize, part: Node, tokens: &mut Tokens<'_>) -> Result<Node, Stop>
    ensures { Reads node_view result tokens.new (E.of_part at (node_view part) (tokens_view tokens.old)) }
{
    if is_mark(Mark::Key, tokens) {
        skip(tokens);
        return Ok(list_node(alloc, at, [text_node(alloc, at, "id")?, part])?);
    }
    time_or_argument(alloc, at, part, tokens)
}

/// Reads what a part of the event has, by its number.
fn of_chosen_part(alloc: Global, at: usize, tokens: &mut Tokens<'_>) -> Result<Node, Stop>
    ensures { Reads node_view result tokens.new (E.of_chosen_part at (tokens_view tokens.old)) }
{
    let part = part(tokens)?;
    pass(Mark::Point, tokens)?;
    of_part(alloc, at, part, tokens)
}

/// Reads the number of occurrences, or what the first part has.
fn of_first_part(
    alloc: Global,
    at: usize,
    first: usize,
    tokens: &mut Tokens<'_>,
) -> Result<Node, Stop>
    ensures { Reads node_view result tokens.new (E.of_first_part at first (tokens_view tokens.old)) }
{
    if is_word("count", tokens) {
        skip(tokens);
        return Ok(list_node(alloc, at, [text_node(alloc, at, "count")?])?);
    }
    of_part(alloc, at, Node::Integer(first, 0), tokens)
}

/// Reads what `event` has.
pub(crate) fn of_event(alloc: Global, at: usize, tokens: &mut Tokens<'_>) -> Result<Node, Stop>
    ensures { Reads node_view result tokens.new (E.of_event at (tokens_view tokens.old)) }
{
    if is_mark(Mark::OpenBracket, tokens) {
        return of_chosen_part(alloc, at, tokens);
    }
    let first = place(tokens);
    pass(Mark::Point, tokens)?;
    of_first_part(alloc, at, first, tokens)
}
