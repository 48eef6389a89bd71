//! The tokens that are left of a text, and what stands first.

ghost use Rattle.std.specs.Prelude.{◌≡◌, option_map};
ghost use Rattle.hp_model.specs.NotationTokens.{place, size};
ghost use Rattle.hp_model.specs.NotationPhrases as P;
ghost use Rattle.hp_model.specs.NotationScripts.{is_name};
ghost use Rattle.hp_text.specs.declared.fault.Stop.TheVariants.{Fault};
ghost use Rattle.hp_text.specs.Mapped.{mark_view, token_view, tokens_view, first_token, Passes};

use crate::fault::Stop;
use crate::mark::Mark;
use crate::token::{Ending, Placed, Token};

/// The tokens that are left of a text.
#[derive(Clone, Copy)]
pub(crate) struct Tokens<'a> {
    pub placed: &'a [Placed<'a>],
    pub ending: Ending,
}

/// The first token.
pub(crate) fn first<'a>(tokens: &Tokens<'a>) -> Option<&'a Token<'a>>
    ensures { option_map (λ t. token_view t.now) result ≡ first_token (tokens_view tokens.now) }
{
    match tokens.placed {
        [first, ..] => Some(&first.token),
        [] => None,
    }
}

/// The offset of the first token, or of what comes after the last one.
pub(crate) fn place(tokens: &Tokens<'_>) -> usize
    ensures { result ≡ place (tokens_view tokens.now) }
{
    match tokens.placed {
        [first, ..] => first.at,
        [] => match tokens.ending {
            Ending::End(at) => at,
            Ending::Unreadable(at) => at,
        },
    }
}

/// How many tokens are left.
#[tactic(auto, using(crate::proofs::Listing::size_of_tokens))]
pub(crate) fn count(tokens: &Tokens<'_>) -> usize
    ensures { result ≡ size (tokens_view tokens.now) }
{
    tokens.placed.len()
}

/// Goes on to the next token.
pub(crate) fn skip(tokens: &mut Tokens<'_>)
    ensures { tokens_view tokens.new ≡ P.past (tokens_view tokens.old) }
{
    if let [_, others @ ..] = tokens.placed {
        tokens.placed = others;
    }
}

/// Whether this mark stands first.
pub(crate) fn is_mark(mark: Mark, tokens: &Tokens<'_>) -> bool
    ensures { result ≡ P.begins (P.is_mark (mark_view mark)) (tokens_view tokens.now) }
{
    match first(tokens) {
        Some(Token::Mark(found)) => found.spelling() == mark.spelling(),
        _ => false,
    }
}

/// Whether this word stands first, which isn't reserved.
pub(crate) fn is_word(word: &str, tokens: &Tokens<'_>) -> bool
    ensures { result ≡ P.begins (P.is_word word.now) (tokens_view tokens.now) }
{
    match first(tokens) {
        Some(Token::Word(found)) => *found == word,
        _ => false,
    }
}

/// The fault of a text that has its first fault here.
pub(crate) fn fault(tokens: &Tokens<'_>) -> Stop
    ensures { result ≡ Fault (place (tokens_view tokens.now)) }
{
    Stop::Fault(place(tokens))
}

/// Goes past this mark, which has to stand here.
pub(crate) fn pass(mark: Mark, tokens: &mut Tokens<'_>) -> Result<(), Stop>
    ensures { Passes result tokens.new (P.passed (P.is_mark (mark_view mark)) (tokens_view tokens.old)) }
{
    if !is_mark(mark, tokens) {
        return Err(fault(tokens));
    }
    skip(tokens);
    Ok(())
}

/// Goes past this word, which has to stand here.
pub(crate) fn pass_word(word: &str, tokens: &mut Tokens<'_>) -> Result<(), Stop>
    ensures { Passes result tokens.new (P.passed (P.is_word word.now) (tokens_view tokens.old)) }
{
    if !is_word(word, tokens) {
        return Err(fault(tokens));
    }
    skip(tokens);
    Ok(())
}

/// Whether a name stands first.
pub(crate) fn is_name(tokens: &Tokens<'_>) -> bool
    ensures { result ≡ P.begins is_name (tokens_view tokens.now) }
{
    match first(tokens) {
        Some(Token::Word(_)) => true,
        Some(Token::Quoted(_)) => true,
        _ => false,
    }
}
