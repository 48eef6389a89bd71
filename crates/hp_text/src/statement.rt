//! Statements without bodies.

ghost use Rattle.std.specs.Prelude.{◌≡◌};
ghost use Rattle.hp_model.specs.NotationPhrases as P;
ghost use Rattle.hp_model.specs.NotationStatements as S;
ghost use Rattle.hp_text.specs.Mapped.{node_view, tokens_view, Reads};

use crate::fault::Stop;
use crate::lists::{arguments, pairs};
use crate::mark::Mark;
use crate::node::{Node, list_node, text_node};
use crate::parts::name;
use crate::rows::{any_expression, object};
use crate::token::Token;
use crate::tokens::{Tokens, first};
use std::alloc::Global;

/// Reads the object and the fields that `create` or `update` sets.
pub(crate) fn setting(
    alloc: Global,
    at: usize,
    tag: &str,
    tokens: &mut Tokens<'_>,
) -> Result<Node, Stop>
    ensures { Reads node_view result tokens.new (S.setting at tag.now (tokens_view tokens.old)) }
{
    let (class, key) = object(alloc, tokens)?;
    let pairs = pairs(alloc, tokens)?;
    Ok(list_node(alloc, at, [text_node(alloc, at, tag)?, class, key, pairs])?)
}

/// Reads the object that is deleted.
pub(crate) fn deletion(alloc: Global, at: usize, tokens: &mut Tokens<'_>) -> Result<Node, Stop>
    ensures { Reads node_view result tokens.new (S.deletion at (tokens_view tokens.old)) }
{
    let (class, key) = object(alloc, tokens)?;
    Ok(list_node(alloc, at, [text_node(alloc, at, "delete")?, class, key])?)
}

/// Reads a signal and its arguments.
pub(crate) fn signalling(alloc: Global, at: usize, tokens: &mut Tokens<'_>) -> Result<Node, Stop>
    ensures { Reads node_view result tokens.new (S.signalling at (tokens_view tokens.old)) }
{
    let name = name(alloc, tokens)?;
    let arguments = arguments(alloc, tokens)?;
    Ok(list_node(
        alloc,
        at,
        [text_node(alloc, at, "signal")?, name, arguments],
    )?)
}

/// Reads an expression after a word.
pub(crate) fn of_expression(
    alloc: Global,
    at: usize,
    tag: &str,
    tokens: &mut Tokens<'_>,
) -> Result<Node, Stop>
    ensures { Reads node_view result tokens.new (S.of_expression at tag.now (tokens_view tokens.old)) }
{
    let value = any_expression(alloc, tokens)?;
    Ok(list_node(alloc, at, [text_node(alloc, at, tag)?, value])?)
}

/// Whether a message begins with the first token. The word `let` begins the next statement.
fn begins_message(tokens: &Tokens<'_>) -> bool
    ensures { result ≡ P.begins S.begins_message (tokens_view tokens.now) }
{
    match first(tokens) {
        Some(Token::Mark(mark)) => matches!(
            mark,
            Mark::OpenParenthesis
                | Mark::Minus
                | Mark::Not
                | Mark::True
                | Mark::False
                | Mark::New
                | Mark::Old
                | Mark::Event
        ),
        Some(Token::Word(word)) => *word != "let",
        Some(_) => true,
        None => false,
    }
}

/// Reads the message of a veto, if one begins here.
pub(crate) fn veto(alloc: Global, at: usize, tokens: &mut Tokens<'_>) -> Result<Node, Stop>
    ensures { Reads node_view result tokens.new (S.veto at (tokens_view tokens.old)) }
{
    if begins_message(tokens) {
        return of_expression(alloc, at, "veto", tokens);
    }
    Ok(list_node(alloc, at, [text_node(alloc, at, "veto")?])?)
}
