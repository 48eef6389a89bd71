//! Rows, objects, and the name and the value of a `let`.

ghost use Rattle.hp_model.specs.NotationExpressions as E;
ghost use Rattle.hp_model.specs.NotationStatements as S;
ghost use Rattle.hp_text.specs.Mapped.{node_view, tokens_view, Reads};
ghost use Rattle.hp_text.specs.Rows.{rows_view, pair_view};

use crate::event_parts::of_name;
use crate::expression::expression;
use crate::fault::Stop;
use crate::mark::Mark;
use crate::node::{Node, list_node, text_node};
use crate::parts::{MAX_LEVELS, name};
use crate::token::Token;
use crate::tokens::{Tokens, fault, first, is_mark, is_word, pass, pass_word, place, skip};
use std::alloc::Global;

/// The name of a row, its class, and what is true of the row.
#[derive(Drop)]
pub(crate) struct RowParts {
    pub name: Node,
    pub class: Node,
    pub predicate: Node,
}

/// Reads an expression that nests in no other.
pub(crate) fn any_expression(alloc: Global, tokens: &mut Tokens<'_>) -> Result<Node, Stop>
    ensures { Reads node_view result tokens.new (E.any_expression (tokens_view tokens.old)) }
{
    expression(alloc, MAX_LEVELS, tokens)
}

/// Reads `where e`. Without it the predicate is always true.
fn predicate(alloc: Global, tokens: &mut Tokens<'_>) -> Result<Node, Stop>
    ensures { Reads node_view result tokens.new (S.predicate (tokens_view tokens.old)) }
{
    if !is_mark(Mark::Where, tokens) {
        return Ok(Node::Truth(place(tokens), true));
    }
    skip(tokens);
    any_expression(alloc, tokens)
}

/// Reads `C N where e`.
pub(crate) fn rows(alloc: Global, tokens: &mut Tokens<'_>) -> Result<RowParts, Stop>
    ensures { Reads rows_view result tokens.new (S.rows (tokens_view tokens.old)) }
{
    let class = name(alloc, tokens)?;
    let name = name(alloc, tokens)?;
    let predicate = predicate(alloc, tokens)?;
    Ok(RowParts {
        name,
        class,
        predicate,
    })
}

/// Reads the rows that are counted.
fn count(alloc: Global, at: usize, tokens: &mut Tokens<'_>) -> Result<Node, Stop>
    ensures { Reads node_view result tokens.new (S.count at (tokens_view tokens.old)) }
{
    let RowParts {
        name,
        class,
        predicate,
    } = rows(alloc, tokens)?;
    Ok(list_node(
        alloc,
        at,
        [text_node(alloc, at, "count")?, name, class, predicate],
    )?)
}

/// Reads what is summed or compared over some rows.
fn over(alloc: Global, at: usize, tag: &str, tokens: &mut Tokens<'_>) -> Result<Node, Stop>
    ensures { Reads node_view result tokens.new (S.over at tag.now (tokens_view tokens.old)) }
{
    let value = any_expression(alloc, tokens)?;
    pass_word("over", tokens)?;
    let RowParts {
        name,
        class,
        predicate,
    } = rows(alloc, tokens)?;
    Ok(list_node(
        alloc,
        at,
        [text_node(alloc, at, tag)?, name, class, predicate, value],
    )?)
}

/// Reads an aggregate over the rows of a class, the next key of one, or an expression.
#[tactic(auto, unfolding(hp_model::specs::NotationStatements::aggregate))]
fn aggregate(alloc: Global, tokens: &mut Tokens<'_>) -> Result<Node, Stop>
    ensures { Reads node_view result tokens.new (S.aggregate (tokens_view tokens.old)) }
{
    let at = place(tokens);
    match first(tokens) {
        Some(Token::Word("count")) => {
            skip(tokens);
            count(alloc, at, tokens)
        }
        Some(Token::Word("sum")) => {
            skip(tokens);
            over(alloc, at, "sum", tokens)
        }
        Some(Token::Word("least")) => {
            skip(tokens);
            over(alloc, at, "least", tokens)
        }
        Some(Token::Word("greatest")) => {
            skip(tokens);
            over(alloc, at, "greatest", tokens)
        }
        Some(Token::Word("next")) => {
            skip(tokens);
            of_name(alloc, at, "next", tokens)
        }
        _ => any_expression(alloc, tokens),
    }
}

/// Reads the name of a value, which isn't the word for the moment.
fn value_name(alloc: Global, tokens: &mut Tokens<'_>) -> Result<Node, Stop>
    ensures { Reads node_view result tokens.new (S.value_name (tokens_view tokens.old)) }
{
    if is_word("now", tokens) {
        return Err(fault(tokens));
    }
    name(alloc, tokens)
}

/// Reads `N = a`: a name and its value.
pub(crate) fn binding(alloc: Global, tokens: &mut Tokens<'_>) -> Result<(Node, Node), Stop>
    ensures { Reads pair_view result tokens.new (S.binding (tokens_view tokens.old)) }
{
    let name = value_name(alloc, tokens)?;
    pass(Mark::Equal, tokens)?;
    let value = aggregate(alloc, tokens)?;
    Ok((name, value))
}

/// Reads `C(e)`: a class and a key.
pub(crate) fn object(alloc: Global, tokens: &mut Tokens<'_>) -> Result<(Node, Node), Stop>
    ensures { Reads pair_view result tokens.new (S.object (tokens_view tokens.old)) }
{
    let class = name(alloc, tokens)?;
    pass(Mark::OpenParenthesis, tokens)?;
    let key = any_expression(alloc, tokens)?;
    pass(Mark::CloseParenthesis, tokens)?;
    Ok((class, key))
}
