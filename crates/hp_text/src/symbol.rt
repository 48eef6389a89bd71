//! Symbols.

ghost use Rattle.std.specs.Prelude.{◌≡◌, ◌-◌, ◌<◌, ◌∷◌, [], None, length, drop, slice_index, option_map};
ghost use Rattle.hp_model.specs.NotationTokens as N;
ghost use Rattle.hp_text.specs.Mapped.{mark_view};
ghost use Rattle.hp_text.specs.Lexemes.{lexeme_view, IsWithin};

use crate::lexeme::Lexeme;
use crate::mark::Mark;
use crate::token::Token;

/// The symbol of one character.
fn short_symbol(byte: u8) -> Option<Mark>
    ensures { option_map mark_view result ≡ N.symbol_of N.short_symbols (byte ∷ []) }
{
    match byte {
        b'{' => Some(Mark::OpenBrace),
        b'}' => Some(Mark::CloseBrace),
        b'(' => Some(Mark::OpenParenthesis),
        b')' => Some(Mark::CloseParenthesis),
        b'[' => Some(Mark::OpenBracket),
        b']' => Some(Mark::CloseBracket),
        b',' => Some(Mark::Comma),
        b':' => Some(Mark::Colon),
        b';' => Some(Mark::Semicolon),
        b'.' => Some(Mark::Point),
        b'=' => Some(Mark::Equal),
        b'<' => Some(Mark::Less),
        b'>' => Some(Mark::Greater),
        b'+' => Some(Mark::Plus),
        b'-' => Some(Mark::Minus),
        b'*' => Some(Mark::Star),
        b'/' => Some(Mark::Slash),
        b'%' => Some(Mark::Percent),
        _ => None,
    }
}

/// The symbol of two characters.
fn long_symbol(first: u8, second: u8) -> Option<Mark>
    ensures { option_map mark_view result ≡ N.symbol_of N.long_symbols (first ∷ second ∷ []) }
{
    if second != b'=' {
        return None;
    }
    match first {
        b'!' => Some(Mark::NotEqual),
        b'<' => Some(Mark::LessOrEqual),
        b'>' => Some(Mark::GreaterOrEqual),
        _ => None,
    }
}

/// The symbol of one character that this is.
fn short_lexeme(byte: u8) -> Lexeme<'static>
    ensures value { lexeme_view result ≡ N.symbol_lexeme None (N.symbol_of N.short_symbols (byte ∷ [])) }
    ensures size { IsWithin 0 result }
{
    match short_symbol(byte) {
        Some(mark) => Lexeme::Found(Token::Mark(mark), 0),
        None => Lexeme::Faulty(0),
    }
}

/// The symbol at the beginning. It is as long as it can be.
pub(crate) fn symbol_at(bytes: &[u8]) -> Lexeme<'static>
    requires { 0 < length bytes.now }
    ensures value { lexeme_view result ≡ N.lexeme_at N.other (slice_index bytes.now 0) (drop 1 bytes.now) }
    ensures size { IsWithin (length bytes.now - 1) result }
{
    if bytes.len() == 1 {
        return short_lexeme(bytes[0]);
    }
    match long_symbol(bytes[0], bytes[1]) {
        Some(mark) => Lexeme::Found(Token::Mark(mark), 1),
        None => short_lexeme(bytes[0]),
    }
}
