//! Items of a script, and lines to a running rule base.

ghost use Rattle.std.specs.Prelude.{◌≡◌};
ghost use Rattle.hp_model.specs.NotationTokens.{place};
ghost use Rattle.hp_model.specs.NotationPhrases as P;
ghost use Rattle.hp_model.specs.NotationScripts as N;
ghost use Rattle.hp_text.specs.Mapped.{node_view, tokens_view, Reads, Makes};
ghost use Rattle.hp_text.specs.Scripts.{ends};

use crate::body::body;
use crate::event_parts::of_number;
use crate::fault::Stop;
use crate::node::{Node, list_node, text_node};
use crate::parts::MAX_LEVELS;
use crate::token::Ending;
use crate::tokens::{Tokens, fault, is_word, pass_word, place, skip};
use std::alloc::Global;

/// Whether an item begins with the first token.
pub(crate) fn begins_item(tokens: &Tokens<'_>) -> bool
    ensures { result ≡ P.begins N.is_item (tokens_view tokens.now) }
{
    is_word("transaction", tokens) || is_word("clock", tokens)
}

/// Reads the body of a transaction.
fn transaction(alloc: Global, at: usize, tokens: &mut Tokens<'_>) -> Result<Node, Stop>
    ensures { Reads node_view result tokens.new (N.transaction at (tokens_view tokens.old)) }
{
    let body = body(alloc, MAX_LEVELS, tokens)?;
    Ok(list_node(alloc, at, [text_node(alloc, at, "tx")?, body])?)
}

/// Reads `transaction b` or `clock n`.
#[tactic(auto, unfolding(hp_model::specs::NotationScripts::item))]
pub(crate) fn item(alloc: Global, tokens: &mut Tokens<'_>) -> Result<Node, Stop>
    ensures { Reads node_view result tokens.new (N.item (tokens_view tokens.old)) }
{
    let at = place(tokens);
    if is_word("transaction", tokens) {
        skip(tokens);
        return transaction(alloc, at, tokens);
    }
    pass_word("clock", tokens)?;
    of_number(alloc, at, "clock", tokens)
}

/// Whether nothing is left.
fn is_end(tokens: &Tokens<'_>) -> bool
    ensures { result ≡ ends (tokens_view tokens.now) }
{
    match tokens.placed {
        [_, ..] => false,
        [] => match tokens.ending {
            Ending::End(_) => true,
            Ending::Unreadable(_) => false,
        },
    }
}

/// Sees that nothing is left.
pub(crate) fn end(tokens: &Tokens<'_>) -> Result<(), Stop>
    ensures { Makes (λ _. place (tokens_view tokens.now)) result (N.ended (tokens_view tokens.now)) }
{
    if is_end(tokens) {
        return Ok(());
    }
    Err(fault(tokens))
}

/// Reads an item, or `show`, and the end.
#[tactic(auto, unfolding(hp_model::specs::NotationScripts::line))]
pub(crate) fn line(alloc: Global, tokens: &mut Tokens<'_>) -> Result<Node, Stop>
    ensures { Makes node_view result (N.line (tokens_view tokens.old)) }
{
    if is_word("show", tokens) {
        let at = place(tokens);
        skip(tokens);
        end(tokens)?;
        return Ok(list_node(alloc, at, [text_node(alloc, at, "show")?])?);
    }
    let item = item(alloc, tokens)?;
    end(tokens)?;
    Ok(item)
}
