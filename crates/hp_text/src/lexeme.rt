//! What a text begins with.

ghost use Rattle.std.specs.Prelude.{◌≡◌, ◌<◌, ◌≤◌, ◌+◌, ◌-◌, IfOk, length, drop, slice_index};
ghost use Rattle.std.specs.List.{prefix_len};
ghost use Rattle.hp_model.specs.NotationTokens as N;
ghost use Rattle.hp_text.specs.Lexemes.{lexeme_view, beginning_view, IsWithin};

use crate::literal::text_at;
use crate::symbol::symbol_at;
use crate::token::Token;
use crate::word::{number_at, quoted_name, word_at};
use std::alloc::{AllocError, Global};

/// What a text begins with. A size is the number of its bytes after the first.
#[derive(Debug, Drop)]
pub(crate) enum Lexeme<'a> {
    /// White space or a comment.
    Blank(usize),
    /// A token.
    Found(Token<'a>, usize),
    /// No token. The distance of the first character that is wrong.
    Faulty(usize),
}

/// The kinds of what a byte may begin.
#[derive(Clone, Copy)]
pub(crate) enum Beginning {
    Letter,
    Digit,
    Space,
    Hash,
    Quote,
    Backquote,
    Other,
}

/// What a byte begins.
fn beginning_of(byte: u8) -> Beginning
    ensures { beginning_view result ≡ N.beginning byte }
{
    if byte.is_ascii_alphabetic() {
        return Beginning::Letter;
    }
    if byte.is_ascii_digit() {
        return Beginning::Digit;
    }
    match byte {
        b' ' | b'\t' | b'\n' | b'\r' => Beginning::Space,
        b'#' => Beginning::Hash,
        b'"' => Beginning::Quote,
        b'`' => Beginning::Backquote,
        _ => Beginning::Other,
    }
}

/// How many bytes a comment has up to the end of its line.
fn comment_rest(bytes: &[u8]) -> usize
    ensures value { result ≡ prefix_len N.in_comment bytes.now }
    ensures within { result ≤ length bytes.now }
{
    bytes.iter().take_while(|byte| **byte != b'\n').count()
}

/// What a text begins with at this offset, which isn't its end.
#[tactic(auto, unfolding(hp_model::specs::NotationTokens::lexeme))]
pub(crate) fn lexeme_at<'a>(
    alloc: Global,
    text: &'a str,
    at: usize,
) -> Result<Lexeme<'a>, AllocError>
    requires { at < length text.now }
    ensures value { IfOk result (λ l. lexeme_view l
        ≡ N.lexeme (slice_index text.entry.now at) (drop (at + 1) text.entry.now)) }
    ensures size { IfOk result (λ l. IsWithin (length text.entry.now - at - 1) l) }
{
    let bytes = &text.as_bytes()[at..];
    match beginning_of(bytes[0]) {
        Beginning::Letter => Ok(word_at(bytes)),
        Beginning::Digit => Ok(number_at(bytes)),
        Beginning::Space => Ok(Lexeme::Blank(0)),
        Beginning::Hash => Ok(Lexeme::Blank(comment_rest(&bytes[1..]))),
        Beginning::Quote => text_at(alloc, text, at + 1),
        Beginning::Backquote => Ok(quoted_name(&bytes[1..])),
        Beginning::Other => Ok(symbol_at(bytes)),
    }
}
