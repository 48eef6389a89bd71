//! Expressions, from the loosest operators to the tightest.

ghost use Rattle.std.specs.Prelude.{◌≡◌, ◌≤◌, ◌^◌, option_map, pos, neg_ℤ};
ghost use Rattle.hp_model.specs.NotationTokens.{spelling};
ghost use Rattle.hp_model.specs.NotationPhrases as P;
ghost use Rattle.hp_model.specs.NotationExpressions as E;
ghost use Rattle.hp_text.specs.Operands.{unary_operand};
ghost use Rattle.hp_text.specs.Mapped.{mark_view, node_view, tokens_view, Reads, Gives};

use crate::fault::Stop;
use crate::mark::Mark;
use crate::node::{Node, list_node, offset, text_node};
use crate::operand::{after_name, of_event, row_field};
use crate::parts::natural;
use crate::token::Token;
use crate::tokens::{Tokens, fault, first, is_mark, pass, place, skip};
use std::alloc::Global;

/// The most operators that a chain of one level has, which bounds how deep its value nests.
const MAX_CHAIN: usize = 64;

/// The form of two operands, which begins where its left operand does.
pub(crate) fn joined(alloc: Global, tag: &str, left: Node, right: Node) -> Result<Node, Stop>
    ensures { Gives node_view result (P.joined tag.now (node_view left) (node_view right)) }
{
    let at = offset(&left);
    Ok(list_node(alloc, at, [text_node(alloc, at, tag)?, left, right])?)
}

/// The relation that stands first.
fn relation(tokens: &Tokens<'_>) -> Option<Mark>
    ensures { option_map (λ m. (spelling (mark_view m), P.past (tokens_view tokens.now))) result
        ≡ E.operator 4 (tokens_view tokens.now) }
{
    match first(tokens) {
        Some(Token::Mark(Mark::Equal)) => Some(Mark::Equal),
        Some(Token::Mark(Mark::NotEqual)) => Some(Mark::NotEqual),
        Some(Token::Mark(Mark::Less)) => Some(Mark::Less),
        Some(Token::Mark(Mark::LessOrEqual)) => Some(Mark::LessOrEqual),
        Some(Token::Mark(Mark::Greater)) => Some(Mark::Greater),
        Some(Token::Mark(Mark::GreaterOrEqual)) => Some(Mark::GreaterOrEqual),
        _ => None,
    }
}

/// The operator of a sum that stands first.
fn sum_operator(tokens: &Tokens<'_>) -> Option<Mark>
    ensures { option_map (λ m. (spelling (mark_view m), P.past (tokens_view tokens.now))) result
        ≡ E.operator 5 (tokens_view tokens.now) }
{
    match first(tokens) {
        Some(Token::Mark(Mark::Plus)) => Some(Mark::Plus),
        Some(Token::Mark(Mark::Minus)) => Some(Mark::Minus),
        _ => None,
    }
}

/// The operator of a product that stands first.
fn product_operator(tokens: &Tokens<'_>) -> Option<Mark>
    ensures { option_map (λ m. (spelling (mark_view m), P.past (tokens_view tokens.now))) result
        ≡ E.operator 6 (tokens_view tokens.now) }
{
    match first(tokens) {
        Some(Token::Mark(Mark::Star)) => Some(Mark::Star),
        Some(Token::Mark(Mark::Slash)) => Some(Mark::Slash),
        Some(Token::Mark(Mark::Percent)) => Some(Mark::Percent),
        _ => None,
    }
}

/// The negative of a magnitude of at most 2 ^ 63.
fn negative(magnitude: u64) -> i64
    requires { magnitude ≤ 2 ^ 63 }
    ensures { result ≡ neg_ℤ (pos magnitude) }
{
    if magnitude > i64::MAX as u64 {
        return i64::MIN;
    }
    -(magnitude as i64)
}

/// Reads an expression, which may have `levels` levels.
#[cycle(expression)]
#[tactic(auto, unfolding(hp_model::specs::NotationExpressions::expressions_within, hp_model::specs::NotationExpressions::expression))]
pub(crate) fn expression(
    alloc: Global,
    levels: usize,
    tokens: &mut Tokens<'_>,
) -> Result<Node, Stop>
    ensures { Reads node_view result tokens.new ((E.expressions_within levels).expression (tokens_view tokens.old)) }
{
    if levels == 0 {
        return Err(fault(tokens));
    }
    let inner = levels - 1;
    let left = conjunction(alloc, inner, tokens)?;
    if !is_mark(Mark::Or, tokens) {
        return Ok(left);
    }
    skip(tokens);
    let right = expression(alloc, inner, tokens)?;
    joined(alloc, Mark::Or.spelling(), left, right)
}

/// Reads a conjunction, within which `inner` levels are left.
#[cycle(expression)]
#[tactic(auto, unfolding(hp_model::specs::NotationExpressions::expressions_within, hp_model::specs::NotationExpressions::conjunction))]
fn conjunction(alloc: Global, inner: usize, tokens: &mut Tokens<'_>) -> Result<Node, Stop>
    ensures { Reads node_view result tokens.new (E.conjunction (E.expressions_within inner) (tokens_view tokens.old)) }
{
    let left = negation(alloc, inner, tokens)?;
    if !is_mark(Mark::And, tokens) {
        return Ok(left);
    }
    skip(tokens);
    if inner == 0 {
        return Err(fault(tokens));
    }
    let right = conjunction(alloc, inner - 1, tokens)?;
    joined(alloc, Mark::And.spelling(), left, right)
}

/// Reads a negation, within which `inner` levels are left.
#[cycle(expression)]
#[tactic(auto, unfolding(hp_model::specs::NotationExpressions::expressions_within, hp_model::specs::NotationExpressions::negation))]
fn negation(alloc: Global, inner: usize, tokens: &mut Tokens<'_>) -> Result<Node, Stop>
    ensures { Reads node_view result tokens.new (E.negation (E.expressions_within inner) (tokens_view tokens.old)) }
{
    if !is_mark(Mark::Not, tokens) {
        return comparison(alloc, inner, tokens);
    }
    let at = place(tokens);
    skip(tokens);
    if inner == 0 {
        return Err(fault(tokens));
    }
    let negated = negation(alloc, inner - 1, tokens)?;
    Ok(list_node(alloc, at, [text_node(alloc, at, "not")?, negated])?)
}

/// Reads a comparison, within which `inner` levels are left.
#[cycle(expression)]
#[tactic(auto, unfolding(hp_model::specs::NotationExpressions::comparison))]
fn comparison(alloc: Global, inner: usize, tokens: &mut Tokens<'_>) -> Result<Node, Stop>
    ensures { Reads node_view result tokens.new (E.comparison (E.expressions_within inner) (tokens_view tokens.old)) }
{
    let left = sum(alloc, inner, tokens)?;
    match relation(tokens) {
        Some(operator) => {
            skip(tokens);
            let right = sum(alloc, inner, tokens)?;
            joined(alloc, operator.spelling(), left, right)
        }
        None => Ok(left),
    }
}

/// Reads a sum, within which `inner` levels are left: what may stand as a value in `set`.
#[cycle(expression)]
#[tactic(auto, unfolding(hp_model::specs::NotationExpressions::sum))]
pub(crate) fn sum(alloc: Global, inner: usize, tokens: &mut Tokens<'_>) -> Result<Node, Stop>
    ensures { Reads node_view result tokens.new (E.sum (E.expressions_within inner) (tokens_view tokens.old)) }
{
    let first = product(alloc, inner, tokens)?;
    sum_from(alloc, inner, MAX_CHAIN, first, tokens)
}

/// Reads at most `operators` operators of a sum, and the operands after them.
#[cycle(expression)]
#[tactic(auto, unfolding(hp_model::specs::NotationPhrases::chain_from))]
fn sum_from(
    alloc: Global,
    inner: usize,
    operators: usize,
    left: Node,
    tokens: &mut Tokens<'_>,
) -> Result<Node, Stop>
    requires { operators ≤ 64 }
    ensures { Reads node_view result tokens.new
        (P.chain_from (E.product (E.expressions_within inner)) (E.operator 5) operators (node_view left)
        (tokens_view tokens.old)) }
{
    let Some(operator) = sum_operator(tokens) else {
        return Ok(left);
    };
    if operators == 0 {
        return Err(fault(tokens));
    }
    skip(tokens);
    let right = product(alloc, inner, tokens)?;
    let joined = joined(alloc, operator.spelling(), left, right)?;
    sum_from(alloc, inner, operators - 1, joined, tokens)
}

/// Reads a product, within which `inner` levels are left.
#[cycle(expression)]
#[tactic(auto, unfolding(hp_model::specs::NotationExpressions::product, crate::specs::Operands::unary_operand))]
fn product(alloc: Global, inner: usize, tokens: &mut Tokens<'_>) -> Result<Node, Stop>
    ensures { Reads node_view result tokens.new (E.product (E.expressions_within inner) (tokens_view tokens.old)) }
{
    let first = unary(alloc, inner, tokens)?;
    product_from(alloc, inner, MAX_CHAIN, first, tokens)
}

/// Reads at most `operators` operators of a product, and the operands after them.
#[cycle(expression)]
#[tactic(auto, unfolding(hp_model::specs::NotationPhrases::chain_from))]
fn product_from(
    alloc: Global,
    inner: usize,
    operators: usize,
    left: Node,
    tokens: &mut Tokens<'_>,
) -> Result<Node, Stop>
    requires { operators ≤ 64 }
    ensures { Reads node_view result tokens.new
        (P.chain_from (unary_operand inner) (E.operator 6) operators (node_view left)
        (tokens_view tokens.old)) }
{
    let Some(operator) = product_operator(tokens) else {
        return Ok(left);
    };
    if operators == 0 {
        return Err(fault(tokens));
    }
    skip(tokens);
    let right = unary(alloc, inner, tokens)?;
    let joined = joined(alloc, operator.spelling(), left, right)?;
    product_from(alloc, inner, operators - 1, joined, tokens)
}

/// Reads an operand with or without a minus.
#[cycle(expression)]
#[tactic(auto, unfolding(crate::specs::Operands::unary_operand))]
fn unary(alloc: Global, inner: usize, tokens: &mut Tokens<'_>) -> Result<Node, Stop>
    ensures { Reads node_view result tokens.new (unary_operand inner (tokens_view tokens.old)) }
{
    if is_mark(Mark::Minus, tokens) {
        let at = place(tokens);
        skip(tokens);
        return after_minus(alloc, inner, at, tokens);
    }
    match first(tokens) {
        Some(Token::Number(_)) => natural(tokens),
        _ => primary(alloc, inner, tokens),
    }
}

/// Reads what stands after a minus. A number makes a negative one.
#[cycle(expression)]
fn after_minus(
    alloc: Global,
    inner: usize,
    at: usize,
    tokens: &mut Tokens<'_>,
) -> Result<Node, Stop>
    ensures { Reads node_view result tokens.new (E.negative (E.expressions_within inner) at (tokens_view tokens.old)) }
{
    if let Some(Token::Number(magnitude)) = first(tokens) {
        skip(tokens);
        return Ok(Node::Integer(at, negative(magnitude.value)));
    }
    let negated = primary(alloc, inner, tokens)?;
    Ok(list_node(alloc, at, [text_node(alloc, at, "neg")?, negated])?)
}

/// Reads an operand that is no number.
#[cycle(expression)]
fn primary(alloc: Global, inner: usize, tokens: &mut Tokens<'_>) -> Result<Node, Stop>
    ensures { Reads node_view result tokens.new (E.primary (E.expressions_within inner) (tokens_view tokens.old)) }
{
    let at = place(tokens);
    match first(tokens) {
        Some(Token::Mark(mark)) => {
            let mark = *mark;
            marked_primary(alloc, inner, at, mark, tokens)
        }
        Some(Token::Word(name)) => {
            skip(tokens);
            let is_now = *name == "now";
            let name = text_node(alloc, at, name)?;
            after_name(alloc, at, is_now, name, tokens)
        }
        Some(Token::Quoted(name)) => {
            skip(tokens);
            let name = text_node(alloc, at, name)?;
            after_name(alloc, at, false, name, tokens)
        }
        Some(Token::Text(text)) => {
            skip(tokens);
            Ok(text_node(alloc, at, text.as_str())?)
        }
        _ => Err(fault(tokens)),
    }
}

/// Reads an operand that begins with a mark, which stands first.
#[cycle(expression)]
fn marked_primary(
    alloc: Global,
    inner: usize,
    at: usize,
    mark: Mark,
    tokens: &mut Tokens<'_>,
) -> Result<Node, Stop>
    ensures { Reads node_view result tokens.new
        (E.marked_primary (E.expressions_within inner) at (mark_view mark) (P.past (tokens_view tokens.old))) }
{
    match mark {
        Mark::True => {
            skip(tokens);
            Ok(Node::Truth(at, true))
        }
        Mark::False => {
            skip(tokens);
            Ok(Node::Truth(at, false))
        }
        Mark::OpenParenthesis => {
            skip(tokens);
            let enclosed = expression(alloc, inner, tokens)?;
            pass(Mark::CloseParenthesis, tokens)?;
            Ok(enclosed)
        }
        Mark::New => {
            skip(tokens);
            row_field(alloc, at, "new", tokens)
        }
        Mark::Old => {
            skip(tokens);
            row_field(alloc, at, "old", tokens)
        }
        Mark::Event => {
            skip(tokens);
            of_event(alloc, at, tokens)
        }
        _ => Err(Stop::Fault(at)),
    }
}
