//! Classes.

ghost use Rattle.std.specs.Prelude.{◌≡◌};
ghost use Rattle.hp_model.specs.NotationTokens.{size};
ghost use Rattle.hp_model.specs.NotationPhrases as P;
ghost use Rattle.hp_model.specs.NotationScripts as N;
ghost use Rattle.hp_text.specs.Mapped.{node_view, tokens_view, Reads};
ghost use Rattle.hp_text.specs.Rows.{nodes_view};

use crate::fault::Stop;
use crate::lists::{Part, listed};
use crate::mark::Mark;
use crate::node::{Node, list_node, offset, text_node};
use crate::parts::name;
use crate::token::Token;
use crate::tokens::{Tokens, fault, first, is_mark, is_name, pass, pass_word, place, skip};
use std::alloc::Global;

/// Reads the kind of a field.
fn kind(alloc: Global, tokens: &mut Tokens<'_>) -> Result<Node, Stop>
    ensures { Reads node_view result tokens.new (N.kind (tokens_view tokens.old)) }
{
    let at = place(tokens);
    match first(tokens) {
        Some(Token::Word("int")) => {
            skip(tokens);
            Ok(text_node(alloc, at, "int")?)
        }
        Some(Token::Word("bool")) => {
            skip(tokens);
            Ok(text_node(alloc, at, "bool")?)
        }
        Some(Token::Word("text")) => {
            skip(tokens);
            Ok(text_node(alloc, at, "text")?)
        }
        _ => Err(fault(tokens)),
    }
}

/// Reads `F: k`.
pub(crate) fn field(alloc: Global, tokens: &mut Tokens<'_>) -> Result<Node, Stop>
    ensures { Reads node_view result tokens.new (N.field (tokens_view tokens.old)) }
{
    let name = name(alloc, tokens)?;
    pass(Mark::Colon, tokens)?;
    let kind = kind(alloc, tokens)?;
    let at = offset(&name);
    Ok(list_node(alloc, at, [name, kind])?)
}

/// Reads the fields of a class, if there are any.
fn fields(alloc: Global, at: usize, tokens: &mut Tokens<'_>) -> Result<Node, Stop>
    ensures { Reads node_view result tokens.new (N.fields at (tokens_view tokens.old)) }
{
    if !is_name(tokens) {
        return Ok(Node::List(at, Vec::new(alloc)));
    }
    let fields = listed(alloc, Part::Field, tokens)?;
    Ok(Node::List(at, fields))
}

/// Reads what stands after the word `class`.
fn class_from(alloc: Global, at: usize, tokens: &mut Tokens<'_>) -> Result<Node, Stop>
    ensures { Reads node_view result tokens.new (N.class_from at (tokens_view tokens.old)) }
{
    let name = name(alloc, tokens)?;
    let fields_at = place(tokens);
    pass(Mark::OpenBrace, tokens)?;
    let fields = fields(alloc, fields_at, tokens)?;
    pass(Mark::CloseBrace, tokens)?;
    Ok(list_node(alloc, at, [name, fields])?)
}

/// Reads `class N { F: k, .. }`.
#[tactic(auto, unfolding(hp_model::specs::NotationScripts::class))]
pub(crate) fn class(alloc: Global, tokens: &mut Tokens<'_>) -> Result<Node, Stop>
    ensures { Reads node_view result tokens.new (N.class (tokens_view tokens.old)) }
{
    let at = place(tokens);
    pass_word("class", tokens)?;
    class_from(alloc, at, tokens)
}
