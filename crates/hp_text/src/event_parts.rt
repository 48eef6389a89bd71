//! Events without parts.

ghost use Rattle.std.specs.Prelude.{◌≡◌};
ghost use Rattle.hp_model.specs.NotationEvents as V;
ghost use Rattle.hp_text.specs.Mapped.{node_view, tokens_view, Reads};

use crate::fault::Stop;
use crate::node::{Node, list_node, text_node};
use crate::parts::{name, natural};
use crate::tokens::{Tokens, pass_word};
use std::alloc::Global;

/// Reads a name after a word.
pub(crate) fn of_name(
    alloc: Global,
    at: usize,
    tag: &str,
    tokens: &mut Tokens<'_>,
) -> Result<Node, Stop>
    ensures { Reads node_view result tokens.new (V.of_name at tag.now (tokens_view tokens.old)) }
{
    let name = name(alloc, tokens)?;
    Ok(list_node(alloc, at, [text_node(alloc, at, tag)?, name])?)
}

/// Reads a number after a word.
pub(crate) fn of_number(
    alloc: Global,
    at: usize,
    tag: &str,
    tokens: &mut Tokens<'_>,
) -> Result<Node, Stop>
    ensures { Reads node_view result tokens.new (V.of_number at tag.now (tokens_view tokens.old)) }
{
    let number = natural(tokens)?;
    Ok(list_node(alloc, at, [text_node(alloc, at, tag)?, number])?)
}

/// Reads `n from n2` after `every`. The value has the first moment before the period.
pub(crate) fn every(alloc: Global, at: usize, tokens: &mut Tokens<'_>) -> Result<Node, Stop>
    ensures { Reads node_view result tokens.new (V.every at (tokens_view tokens.old)) }
{
    let period = natural(tokens)?;
    pass_word("from", tokens)?;
    let first = natural(tokens)?;
    Ok(list_node(alloc, at, [text_node(alloc, at, "every")?, first, period])?)
}
