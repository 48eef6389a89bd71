//! Small parts that many phrases have.

ghost use Rattle.hp_model.specs.NotationPhrases as P;
ghost use Rattle.hp_text.specs.Mapped.{node_view, tokens_view, Reads};

use crate::fault::Stop;
use crate::node::{Node, text_node};
use crate::token::Token;
use crate::tokens::{Tokens, fault, first, place, skip};
use std::alloc::Global;

/// How deep bodies, events and expressions may each nest. This bounds the reader's stack.
pub(crate) const MAX_LEVELS: usize = 64;

/// Reads a name.
pub(crate) fn name(alloc: Global, tokens: &mut Tokens<'_>) -> Result<Node, Stop>
    ensures { Reads node_view result tokens.new (P.name (tokens_view tokens.old)) }
{
    let at = place(tokens);
    match first(tokens) {
        Some(Token::Word(name)) => {
            skip(tokens);
            Ok(text_node(alloc, at, name)?)
        }
        Some(Token::Quoted(name)) => {
            skip(tokens);
            Ok(text_node(alloc, at, name)?)
        }
        _ => Err(fault(tokens)),
    }
}

/// Reads a number that isn't negative.
pub(crate) fn natural(tokens: &mut Tokens<'_>) -> Result<Node, Stop>
    ensures { Reads node_view result tokens.new (P.natural (tokens_view tokens.old)) }
{
    let at = place(tokens);
    match first(tokens) {
        Some(Token::Number(number)) => {
            if number.value > i64::MAX as u64 {
                return Err(fault(tokens));
            }
            skip(tokens);
            Ok(Node::Integer(at, number.value as i64))
        }
        _ => Err(fault(tokens)),
    }
}
