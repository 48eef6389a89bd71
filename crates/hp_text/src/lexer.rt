//! From bytes to tokens.

ghost use Rattle.std.specs.Prelude.{◌≡◌, ◌≤◌, IfOk, length, take};
ghost use Rattle.std.specs.Str.{IsUtf8};
ghost use Rattle.hp_model.specs.NotationTokens as N;
ghost use Rattle.hp_text.specs.Lexemes.{lexed_view, end_of};

use crate::lexeme::{Lexeme, lexeme_at};
use crate::token::{Ending, Lexed, Placed};
use std::alloc::{AllocError, Global};

/// The tokens of a text. Where they end, the bytes may go on, but are no text.
fn tokens_in<'a>(alloc: Global, text: &'a str, is_whole: bool) -> Result<Lexed<'a>, AllocError>
    ensures { IfOk result (λ l. lexed_view l ≡ N.tokens_from (end_of is_whole) 0 0 text.entry.now) }
{
    let mut tokens = Vec::new(alloc);
    let mut at = 0;
    while at < text.len() {
        match lexeme_at(alloc, text, at)? {
            Lexeme::Blank(more) => at += more + 1,
            Lexeme::Found(token, more) => {
                tokens.push(Placed { at, token })?;
                at += more + 1;
            }
            Lexeme::Faulty(distance) => {
                let ending = Ending::Unreadable(at + distance);
                return Ok(Lexed { tokens, ending });
            }
        }
    }
    let ending = if is_whole {
        Ending::End(at)
    } else {
        Ending::Unreadable(at)
    };
    Ok(Lexed { tokens, ending })
}

/// The first bytes, which are UTF-8, as a text.
fn text_up_to(bytes: &[u8], end: usize) -> &str
    requires within { end ≤ length bytes.now }
    requires utf8 { IsUtf8 (take end bytes.now) }
    ensures { result.now ≡ take end bytes.entry.now }
{
    match std::str::from_utf8(&bytes[..end]) {
        Ok(text) => text,
        Err(_) => unreachable!(),
    }
}

/// The bytes up to the first that isn't UTF-8, as a text, and whether they are all.
fn text_of(bytes: &[u8]) -> (&str, bool)
    ensures { N.tokens_from (end_of result.1) 0 0 result.0.now ≡ N.tokens bytes.entry.now }
{
    match std::str::from_utf8(bytes) {
        Ok(text) => (text, true),
        Err(error) => (text_up_to(bytes, error.valid_up_to()), false),
    }
}

/// The tokens of a text.
pub(crate) fn tokens_of<'a>(alloc: Global, bytes: &'a [u8]) -> Result<Lexed<'a>, AllocError>
    ensures { IfOk result (λ l. lexed_view l ≡ N.tokens bytes.entry.now) }
{
    let (text, is_whole) = text_of(bytes);
    tokens_in(alloc, text, is_whole)
}
