//! Bodies, and the statements that have them.

ghost use Rattle.std.specs.Prelude.{◌≡◌};
ghost use Rattle.hp_model.specs.NotationTokens.{size, otherwise_mark};
ghost use Rattle.hp_model.specs.NotationStatements as S;
ghost use Rattle.hp_text.specs.Mapped.{mark_view, node_view, tokens_view, Reads};
ghost use Rattle.hp_text.specs.Rows.{nodes_view};

use crate::event_parts::of_name;
use crate::fault::Stop;
use crate::mark::Mark;
use crate::node::{Node, list_node, text_node};
use crate::parts::name;
use crate::rows::{RowParts, any_expression, binding, object, rows};
use crate::statement::{deletion, of_expression, setting, signalling, veto};
use crate::token::Token;
use crate::tokens::{Tokens, count, fault, first, is_mark, pass, place, skip};
use std::alloc::Global;

/// Reads a body, which may have `levels` levels.
#[cycle(body)]
#[tactic(auto, unfolding(hp_model::specs::NotationStatements::bodies_within, hp_model::specs::NotationStatements::body))]
pub(crate) fn body(alloc: Global, levels: usize, tokens: &mut Tokens<'_>) -> Result<Node, Stop>
    ensures { Reads node_view result tokens.new ((S.bodies_within levels).body (tokens_view tokens.old)) }
{
    if levels == 0 {
        return Err(fault(tokens));
    }
    let at = place(tokens);
    pass(Mark::OpenBrace, tokens)?;
    let statements = statements(alloc, levels - 1, tokens)?;
    Ok(Node::List(at, statements))
}

/// Reads the statements before the closing brace. There are no more of them than tokens.
#[cycle(body)]
fn statements(alloc: Global, inner: usize, tokens: &mut Tokens<'_>) -> Result<Vec<Node>, Stop>
    ensures { Reads nodes_view result tokens.new
        (S.statements (S.statement (S.bodies_within inner)) (size (tokens_view tokens.old)) (tokens_view tokens.old)) }
{
    let mut statements = Vec::new(alloc);
    let count = count(tokens);
    for done in 0..count {
        if is_mark(Mark::CloseBrace, tokens) {
            skip(tokens);
            return Ok(statements);
        }
        let statement = statement(alloc, inner, tokens)?;
        statements.push(statement)?;
        if is_mark(Mark::Semicolon, tokens) {
            skip(tokens);
        }
    }
    Err(fault(tokens))
}

/// Reads a statement, within which `inner` levels are left.
#[cycle(body)]
#[tactic(auto, unfolding(hp_model::specs::NotationStatements::statement))]
fn statement(alloc: Global, inner: usize, tokens: &mut Tokens<'_>) -> Result<Node, Stop>
    ensures { Reads node_view result tokens.new (S.statement (S.bodies_within inner) (tokens_view tokens.old)) }
{
    let at = place(tokens);
    match first(tokens) {
        Some(Token::Mark(mark)) => {
            let mark = *mark;
            skip(tokens);
            marked_statement(alloc, inner, at, mark, tokens)
        }
        Some(Token::Word("let")) => {
            skip(tokens);
            with_value(alloc, inner, at, tokens)
        }
        _ => Err(fault(tokens)),
    }
}

/// Reads what stands after the mark of a statement.
#[cycle(body)]
fn marked_statement(
    alloc: Global,
    inner: usize,
    at: usize,
    mark: Mark,
    tokens: &mut Tokens<'_>,
) -> Result<Node, Stop>
    ensures { Reads node_view result tokens.new
        (S.marked_statement (S.bodies_within inner) at (mark_view mark) (tokens_view tokens.old)) }
{
    match mark {
        Mark::Create => setting(alloc, at, "create", tokens),
        Mark::Update => setting(alloc, at, "update", tokens),
        Mark::Delete => deletion(alloc, at, tokens),
        Mark::Signal => signalling(alloc, at, tokens),
        Mark::Emit => of_expression(alloc, at, "emit", tokens),
        Mark::If => conditional(alloc, inner, at, tokens),
        Mark::Each => each_row(alloc, inner, at, tokens),
        Mark::For => each_answer(alloc, inner, at, tokens),
        Mark::With => with_object(alloc, inner, at, tokens),
        Mark::Sub => subtransaction(alloc, inner, at, tokens),
        Mark::Abort => Ok(list_node(alloc, at, [text_node(alloc, at, "abort")?])?),
        Mark::Veto => veto(alloc, at, tokens),
        Mark::Install => of_name(alloc, at, "install", tokens),
        Mark::Enable => of_name(alloc, at, "enable", tokens),
        Mark::Disable => of_name(alloc, at, "disable", tokens),
        Mark::Remove => of_name(alloc, at, "remove", tokens),
        Mark::Fire => of_name(alloc, at, "fire", tokens),
        _ => Err(Stop::Fault(at)),
    }
}

/// Reads `else b`, or `else` and an `if`, which is a body of that one statement. What isn't there is an empty body.
#[cycle(body)]
#[tactic(auto, unfolding(hp_model::specs::NotationStatements::bodies_within))]
fn otherwise_of_if(alloc: Global, inner: usize, tokens: &mut Tokens<'_>) -> Result<Node, Stop>
    ensures { Reads node_view result tokens.new (S.otherwise_of_if (S.bodies_within inner) (tokens_view tokens.old)) }
{
    let at = place(tokens);
    if !is_mark(Mark::Else, tokens) {
        return Ok(Node::List(at, Vec::new(alloc)));
    }
    skip(tokens);
    if !is_mark(Mark::If, tokens) {
        return body(alloc, inner, tokens);
    }
    if inner == 0 {
        return Err(fault(tokens));
    }
    let statement = statement(alloc, inner - 1, tokens)?;
    Ok(list_node(alloc, at, [statement])?)
}

/// Reads `e b else b2`.
#[cycle(body)]
fn conditional(
    alloc: Global,
    inner: usize,
    at: usize,
    tokens: &mut Tokens<'_>,
) -> Result<Node, Stop>
    ensures { Reads node_view result tokens.new (S.conditional (S.bodies_within inner) at (tokens_view tokens.old)) }
{
    let test = any_expression(alloc, tokens)?;
    let then = body(alloc, inner, tokens)?;
    let other = otherwise_of_if(alloc, inner, tokens)?;
    Ok(list_node(alloc, at, [text_node(alloc, at, "if")?, test, then, other])?)
}

/// Reads `C N where e b`.
#[cycle(body)]
fn each_row(alloc: Global, inner: usize, at: usize, tokens: &mut Tokens<'_>) -> Result<Node, Stop>
    ensures { Reads node_view result tokens.new (S.each_row (S.bodies_within inner) at (tokens_view tokens.old)) }
{
    let RowParts {
        name,
        class,
        predicate,
    } = rows(alloc, tokens)?;
    let body = body(alloc, inner, tokens)?;
    Ok(list_node(
        alloc,
        at,
        [text_node(alloc, at, "each")?, name, class, predicate, body],
    )?)
}

/// Reads `N = a b`.
#[cycle(body)]
fn with_value(alloc: Global, inner: usize, at: usize, tokens: &mut Tokens<'_>) -> Result<Node, Stop>
    ensures { Reads node_view result tokens.new (S.with_value (S.bodies_within inner) at (tokens_view tokens.old)) }
{
    let (name, value) = binding(alloc, tokens)?;
    let body = body(alloc, inner, tokens)?;
    Ok(list_node(alloc, at, [text_node(alloc, at, "let")?, name, value, body])?)
}

/// Reads `N b`.
#[cycle(body)]
fn each_answer(
    alloc: Global,
    inner: usize,
    at: usize,
    tokens: &mut Tokens<'_>,
) -> Result<Node, Stop>
    ensures { Reads node_view result tokens.new (S.each_answer (S.bodies_within inner) at (tokens_view tokens.old)) }
{
    let query = name(alloc, tokens)?;
    let body = body(alloc, inner, tokens)?;
    Ok(list_node(alloc, at, [text_node(alloc, at, "for")?, query, body])?)
}

/// Reads `C(e) as N b`.
#[cycle(body)]
fn with_object(
    alloc: Global,
    inner: usize,
    at: usize,
    tokens: &mut Tokens<'_>,
) -> Result<Node, Stop>
    ensures { Reads node_view result tokens.new (S.with_object (S.bodies_within inner) at (tokens_view tokens.old)) }
{
    let (class, key) = object(alloc, tokens)?;
    pass(Mark::As, tokens)?;
    let row = name(alloc, tokens)?;
    let body = body(alloc, inner, tokens)?;
    Ok(list_node(
        alloc,
        at,
        [text_node(alloc, at, "with")?, row, class, key, body],
    )?)
}

/// Reads `b otherwise b2`.
#[cycle(body)]
fn subtransaction(
    alloc: Global,
    inner: usize,
    at: usize,
    tokens: &mut Tokens<'_>,
) -> Result<Node, Stop>
    ensures { Reads node_view result tokens.new (S.subtransaction (S.bodies_within inner) at (tokens_view tokens.old)) }
{
    let tried = body(alloc, inner, tokens)?;
    let other = body_after_otherwise(alloc, inner, tokens)?;
    Ok(list_node(alloc, at, [text_node(alloc, at, "sub")?, tried, other])?)
}

/// Reads `otherwise b`. What isn't there is an empty body.
#[cycle(body)]
fn body_after_otherwise(alloc: Global, inner: usize, tokens: &mut Tokens<'_>) -> Result<Node, Stop>
    ensures { Reads node_view result tokens.new
        (S.body_after otherwise_mark (S.bodies_within inner).body (tokens_view tokens.old)) }
{
    let at = place(tokens);
    if !is_mark(Mark::Otherwise, tokens) {
        return Ok(Node::List(at, Vec::new(alloc)));
    }
    skip(tokens);
    body(alloc, inner, tokens)
}
