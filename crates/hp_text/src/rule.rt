//! Rules.

ghost use Rattle.std.specs.Prelude.{◌≡◌, ◌++◌, MatchOption, map, Some, true, false};
ghost use Rattle.hp_model.specs.NotationTree as T;
ghost use Rattle.hp_model.specs.NotationTokens.{size, spelling, if_mark};
ghost use Rattle.hp_model.specs.NotationPhrases as P;
ghost use Rattle.hp_model.specs.NotationScripts as N;
ghost use Rattle.hp_text.specs.Mapped.{mark_view, node_view, tokens_view, Gives, Reads, Finds};
ghost use Rattle.hp_text.specs.Rows.{nodes_view, closed_view};

use crate::body::body;
use crate::event::event;
use crate::fault::Stop;
use crate::mark::Mark;
use crate::node::{Node, list_node, offset, text_node};
use crate::parts::{MAX_LEVELS, name};
use crate::rows::{RowParts, binding, rows};
use crate::token::Token;
use crate::tokens::{Tokens, count, fault, first, is_mark, is_word, pass, pass_word, place, skip};
use std::alloc::Global;

/// Reads the word of a rule that vetoes if it can't decide, if it is there.
fn closed(alloc: Global, tokens: &mut Tokens<'_>) -> Result<Option<Node>, Stop>
    ensures { Finds closed_view result tokens.new (N.closed (tokens_view tokens.old)) }
{
    if !is_word("closed", tokens) {
        return Ok(None);
    }
    let at = place(tokens);
    skip(tokens);
    Ok(Some(text_node(alloc, at, "closed")?))
}

/// The word of a mode in JSON, if the mark is one.
fn mode_word(mark: Mark) -> Option<&'static str>
    ensures { MatchOption result (N.is_mode (mark_view mark) ≡ false)
        (λ w. (N.is_mode (mark_view mark) ≡ true) × (w.now ≡ spelling (mark_view mark))) }
{
    match mark {
        Mark::Immediate => Some("immediate"),
        Mark::Deferred => Some("deferred"),
        Mark::Separate => Some("separate"),
        Mark::Dependent => Some("dependent"),
        Mark::Exclusive => Some("exclusive"),
        _ => None,
    }
}

/// Reads a mode, which is `immediate` if none is there.
fn mode(alloc: Global, tokens: &mut Tokens<'_>) -> Result<Node, Stop>
    ensures { Finds node_view result tokens.new (N.mode (tokens_view tokens.old)) }
{
    let at = place(tokens);
    if let Some(Token::Mark(mark)) = first(tokens) {
        if let Some(word) = mode_word(*mark) {
            skip(tokens);
            return Ok(text_node(alloc, at, word)?);
        }
    }
    Ok(text_node(alloc, at, "immediate")?)
}

/// Whether a node is the word `let`.
fn is_let(node: &Node) -> bool
    ensures { result ≡ N.is_let (node_view node.now) }
{
    match node {
        Node::Text(_, text) => text.as_str() == "let",
        _ => false,
    }
}

/// Reads `C N where e` after `some`. Where a condition may have a `let`, no row is called so.
fn some_rows(alloc: Global, lets: bool, at: usize, tokens: &mut Tokens<'_>) -> Result<Node, Stop>
    ensures { Reads node_view result tokens.new
        (N.word_query lets at (Some N.some_word) (tokens_view tokens.old)) }
{
    let RowParts {
        name,
        class,
        predicate,
    } = rows(alloc, tokens)?;
    if lets && is_let(&name) {
        return Err(Stop::Fault(offset(&name)));
    }
    Ok(list_node(alloc, at, [name, class, predicate])?)
}

/// Reads `C N where e` after `no`.
fn no_rows(alloc: Global, at: usize, tokens: &mut Tokens<'_>) -> Result<Node, Stop>
    ensures { Reads node_view result tokens.new (N.no_rows at (tokens_view tokens.old)) }
{
    let RowParts {
        name,
        class,
        predicate,
    } = rows(alloc, tokens)?;
    Ok(list_node(
        alloc,
        at,
        [text_node(alloc, at, "no")?, name, class, predicate],
    )?)
}

/// Reads `N = a` after `let`, where a condition may have one.
fn named_value(alloc: Global, lets: bool, at: usize, tokens: &mut Tokens<'_>) -> Result<Node, Stop>
    ensures { Reads node_view result tokens.new (N.named_value at lets (tokens_view tokens.old)) }
{
    if !lets {
        return Err(Stop::Fault(at));
    }
    let (name, value) = binding(alloc, tokens)?;
    Ok(list_node(alloc, at, [text_node(alloc, at, "let")?, name, value])?)
}

/// Reads `some C N where e`, `no C N where e` or `let N = a`.
fn query(alloc: Global, lets: bool, tokens: &mut Tokens<'_>) -> Result<Node, Stop>
    ensures { Reads node_view result tokens.new (N.query lets (tokens_view tokens.old)) }
{
    let at = place(tokens);
    match first(tokens) {
        Some(Token::Word("some")) => {
            skip(tokens);
            some_rows(alloc, lets, at, tokens)
        }
        Some(Token::Word("no")) => {
            skip(tokens);
            no_rows(alloc, at, tokens)
        }
        Some(Token::Word("let")) => {
            skip(tokens);
            named_value(alloc, lets, at, tokens)
        }
        _ => Err(fault(tokens)),
    }
}

/// Reads `if` and a query.
#[tactic(auto, unfolding(hp_model::specs::NotationScripts::condition))]
fn condition(alloc: Global, lets: bool, tokens: &mut Tokens<'_>) -> Result<Node, Stop>
    ensures { Reads node_view result tokens.new (N.condition lets (tokens_view tokens.old)) }
{
    pass(Mark::If, tokens)?;
    query(alloc, lets, tokens)
}

/// Reads the queries. There are no more of them than tokens.
fn conditions(alloc: Global, lets: bool, tokens: &mut Tokens<'_>) -> Result<Vec<Node>, Stop>
    ensures { Reads nodes_view result tokens.new
        (P.repeated (P.is_mark if_mark) (N.condition lets) (size (tokens_view tokens.old)) (tokens_view tokens.old)) }
{
    let mut queries = Vec::new(alloc);
    let count = count(tokens);
    for done in 0..count {
        if !is_mark(Mark::If, tokens) {
            return Ok(queries);
        }
        let query = condition(alloc, lets, tokens)?;
        queries.push(query)?;
    }
    Ok(queries)
}

/// A rule's value.
fn rule_node(alloc: Global, at: usize, parts: [Node; 6], closed: Option<Node>) -> Result<Node, Stop>
    ensures { Gives node_view result (T.list at (T.nodes (map node_view parts ++ closed_view closed))) }
{
    let mut list = Vec::from_array(alloc, parts)?;
    if let Some(closed) = closed {
        list.push(closed)?;
    }
    Ok(Node::List(at, list))
}

/// Reads what stands after the word `rule`.
fn rule_from(alloc: Global, lets: bool, at: usize, tokens: &mut Tokens<'_>) -> Result<Node, Stop>
    ensures { Reads node_view result tokens.new (N.rule_from lets at (tokens_view tokens.old)) }
{
    let name = name(alloc, tokens)?;
    let closed = closed(alloc, tokens)?;
    pass(Mark::On, tokens)?;
    let event = event(alloc, MAX_LEVELS, tokens)?;
    let event_mode = mode(alloc, tokens)?;
    let queries_at = place(tokens);
    let queries = Node::List(queries_at, conditions(alloc, lets, tokens)?);
    pass(Mark::Do, tokens)?;
    let action_mode = mode(alloc, tokens)?;
    let action = body(alloc, MAX_LEVELS, tokens)?;
    rule_node(
        alloc,
        at,
        [name, event, event_mode, queries, action_mode, action],
        closed,
    )
}

/// Reads a rule. Its condition may have a `let` in some versions.
#[tactic(auto, unfolding(hp_model::specs::NotationScripts::rule))]
pub(crate) fn rule(alloc: Global, lets: bool, tokens: &mut Tokens<'_>) -> Result<Node, Stop>
    ensures { Reads node_view result tokens.new (N.rule lets (tokens_view tokens.old)) }
{
    let at = place(tokens);
    pass_word("rule", tokens)?;
    rule_from(alloc, lets, at, tokens)
}
