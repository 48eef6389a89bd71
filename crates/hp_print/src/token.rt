//! Tokens, and what stands before them.

ghost use Rattle.std.specs.Prelude.{◌≡◌, ◌||◌, ◌&&◌};
ghost use Rattle.hp_model.specs.NotationTokens.{less_sign, greater_sign, equal_sign, reserved_word};
ghost use Rattle.hp_model.specs.NotationPhrases.{is_mark};
ghost use Rattle.hp_model.specs.NotationPrint as P;
ghost use Rattle.hp_print.specs.Written.{gap_view, token_view, last_of, laid, gap_by};

use hp_text::{Mark, reserved};

/// A token of a text.
#[derive(Clone, Copy)]
pub(crate) enum Token<'a> {
    Mark(Mark),
    /// A word that isn't reserved.
    Word(&'a str),
    /// A name in backquotes.
    Quoted(&'a str),
    Number(u64),
    /// A text, without its quotes and escapes.
    Text(&'a str),
}

/// What stands before a token.
#[derive(Clone, Copy)]
pub(crate) enum Gap {
    Tight,
    Space,
    /// A line feed, and an indentation of this many steps.
    Line(usize),
    /// An empty line.
    Paragraph,
}

/// What the next token could join of the token before it.
#[derive(Clone, Copy)]
pub(crate) struct Last {
    pub is_wordlike: bool,
    pub is_relation: bool,
}

/// Whether a token consists of letters or digits.
fn is_wordlike(token: Token<'_>) -> bool
    ensures { result ≡ P.is_wordlike (token_view token.entry) }
{
    match token {
        Token::Mark(mark) => reserved(mark.spelling()).is_some(),
        Token::Word(_) => true,
        Token::Quoted(_) => false,
        Token::Number(_) => true,
        Token::Text(_) => false,
    }
}

/// Whether a token is `<` or `>`, which an `=` would join.
fn is_relation(token: Token<'_>) -> bool
    ensures { result ≡ (is_mark less_sign (token_view token.entry) || is_mark greater_sign (token_view token.entry)) }
{
    match token {
        Token::Mark(mark) => mark.spelling() == "<" || mark.spelling() == ">",
        _ => false,
    }
}

fn is_equal_sign(token: Token<'_>) -> bool
    ensures { result ≡ is_mark equal_sign (token_view token.entry) }
{
    match token {
        Token::Mark(mark) => mark.spelling() == "=",
        _ => false,
    }
}

/// What the next token could join of this one.
pub(crate) fn last_of(token: Token<'_>) -> Last
    ensures { result ≡ last_of (token_view token.entry) }
{
    Last {
        is_wordlike: is_wordlike(token),
        is_relation: is_relation(token),
    }
}

/// The gap as it is laid out, on one line or not.
fn laid(is_line: bool, gap: Gap) -> Gap
    ensures { gap_view result ≡ laid is_line (gap_view gap) }
{
    if !is_line {
        return gap;
    }
    match gap {
        Gap::Tight => Gap::Tight,
        _ => Gap::Space,
    }
}

/// What stands before a token after the last one: at least a space, where the two would join.
pub(crate) fn gap_before(last: Last, is_line: bool, gap: Gap, token: Token<'_>) -> Gap
    ensures { gap_view result ≡ gap_by last is_line (gap_view gap) (token_view token.entry) }
{
    let gap = laid(is_line, gap);
    let joins = (last.is_wordlike && is_wordlike(token))
        || (last.is_relation && is_equal_sign(token));
    match gap {
        Gap::Tight => if joins { Gap::Space } else { gap },
        _ => gap,
    }
}
