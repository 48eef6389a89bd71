//! Texts in quotes.

ghost use Rattle.std.specs.Prelude.{◌≡◌, ◌+◌, ◌-◌, ◌<◌, ◌≤◌, IfOk, IfSome, length, drop};
ghost use Rattle.std.specs.Prelude.{option_map, option_and_then};
ghost use Rattle.std.specs.Char.{digit_value};
ghost use Rattle.std.specs.List.{prefix_len};
ghost use Rattle.std.specs.Str.{IsCharBoundary};
ghost use Rattle.json.specs.Text.{code_unit, short_escape};
ghost use Rattle.hp_model.specs.NotationTokens as N;
ghost use Rattle.hp_text.specs.Lexemes.{lexeme_view, IsWithin, content_view, IsContentWithin};
ghost use Rattle.hp_text.specs.Lexemes.{character_of, is_plain, EndsInAscii};

use crate::lexeme::Lexeme;
use crate::token::Token;
use std::alloc::{AllocError, Global};

/// What stands after an opening quote.
#[derive(Drop)]
pub(crate) enum Content {
    /// A text, and how many bytes it has before its closing quote.
    Closed(String, usize),
    /// The distance of the first fault.
    Broken(usize),
}

/// The value of a digit up to `z`, and 36 of any other character.
fn digit(byte: u8) -> u32
    ensures value { result ≡ digit_value byte }
    ensures ascii { result < 16 → byte < 128 }
{
    match byte {
        b'0'..=b'9' => (byte - b'0') as u32,
        b'A'..=b'Z' => (byte - b'A') as u32 + 10,
        b'a'..=b'z' => (byte - b'a') as u32 + 10,
        _ => 36,
    }
}

/// The code unit that four hexadecimal digits write.
fn unit_in(a: u8, b: u8, c: u8, d: u8) -> Option<u32>
    ensures value { result ≡ code_unit a b c d }
    ensures bounds { IfSome result (λ u. (u < 65536) × (d < 128)) }
{
    let (high, second, third, low) = (digit(a), digit(b), digit(c), digit(d));
    if (high < 16) & (second < 16) & (third < 16) & (low < 16) {
        return Some(high * 4096 + second * 256 + third * 16 + low);
    }
    None
}

/// The code unit that the four hexadecimal digits at the beginning write.
fn unit_of(bytes: &[u8]) -> Option<u32>
    ensures value { result ≡ N.unit_of bytes.now }
    ensures bounds { IfSome result (λ u. (u < 65536) × EndsInAscii 4 bytes.now) }
{
    match bytes {
        [a, b, c, d, ..] => unit_in(*a, *b, *c, *d),
        _ => None,
    }
}

/// The character whose second half is written at the beginning.
fn low_escape(high: u32, bytes: &[u8]) -> Option<char>
    requires { (0xd800 ≤ high) × (high < 0xdc00) }
    ensures value { option_map (λ c. character_of c 11) result ≡ N.low_escape high bytes.now }
    ensures bounds { IfSome result (λ c. EndsInAscii 6 bytes.now) }
{
    if bytes.len() < 6 || bytes[0] != b'\\' || bytes[1] != b'u' {
        return None;
    }
    let low = unit_of(&bytes[2..])?;
    if low < 0xdc00 || low >= 0xe000 {
        return None;
    }
    char::from_u32(0x10000 + (high - 0xd800) * 1024 + (low - 0xdc00))
}

/// The character of an escape `\u` whose digits are at the beginning, and how many bytes it has after the backslash.
fn unicode_escape(bytes: &[u8]) -> Option<(char, usize)>
    ensures value { option_map (λ p. character_of p.0 p.1) result
        ≡ option_and_then (N.unit_escape bytes.now) (N.unit_of bytes.now) }
    ensures bounds { IfSome result (λ p. (0 < p.1) × EndsInAscii (p.1 - 1) bytes.now) }
{
    let unit = unit_of(bytes)?;
    if 0xd800 <= unit && unit < 0xdc00 {
        let character = low_escape(unit, &bytes[4..])?;
        return Some((character, 11));
    }
    let character = char::from_u32(unit)?;
    Some((character, 5))
}

/// The character that stands for itself after a backslash, or has a letter there.
#[tactic(auto, unfolding(json::specs::Text::short_escape))]
fn short_escape(byte: u8) -> Option<u8>
    ensures value { result ≡ short_escape byte }
    ensures ascii { IfSome result (λ c. (c < 128) × (byte < 128)) }
{
    match byte {
        b'"' | b'\\' | b'/' => Some(byte),
        b'b' => Some(8),
        b'f' => Some(12),
        b'n' => Some(b'\n'),
        b'r' => Some(b'\r'),
        b't' => Some(b'\t'),
        _ => None,
    }
}

/// The character of an escape, and how many bytes it has after the backslash. The bytes begin after the backslash.
fn escape(bytes: &[u8]) -> Option<(char, usize)>
    ensures value { option_map (λ p. character_of p.0 p.1) result ≡ N.escape bytes.now }
    ensures bounds { IfSome result (λ p. (0 < p.1) × EndsInAscii p.1 bytes.now) }
{
    match bytes {
        [b'u', digits @ ..] => unicode_escape(digits),
        [byte, ..] => {
            let character = short_escape(*byte)?;
            Some((character as char, 1))
        }
        [] => None,
    }
}

/// How many bytes at the beginning stand for themselves.
fn plain_len(bytes: &[u8]) -> usize
    ensures value { result ≡ prefix_len is_plain bytes.now }
    ensures within { result ≤ length bytes.now }
{
    bytes
        .iter()
        .take_while(|byte| **byte != b'"' && **byte != b'\\' && **byte >= 0x20)
        .count()
}

/// The text whose opening quote stands before `start`.
fn content_from(alloc: Global, text: &str, start: usize) -> Result<Content, AllocError>
    requires { IsCharBoundary text.now start }
    ensures value { IfOk result (λ c. content_view c ≡ N.content 0 (drop start text.now)) }
    ensures size { IfOk result (λ c. IsContentWithin (length text.now - start) c) }
{
    let bytes = text.as_bytes();
    let mut found = String::new(alloc);
    let mut at = start;
    'runs: loop {
        let stop = at + plain_len(&bytes[at..]);
        found.push_str(&text[at..stop])?;
        if stop == bytes.len() || bytes[stop] < 0x20 {
            return Ok(Content::Broken(stop - start));
        }
        if bytes[stop] == b'"' {
            return Ok(Content::Closed(found, stop - start));
        }
        let Some((character, more)) = escape(&bytes[stop + 1..]) else {
            return Ok(Content::Broken(stop - start));
        };
        found.push(character)?;
        at = stop + 1 + more;
    }
}

/// The text in quotes whose opening quote stands before `start`.
pub(crate) fn text_at(
    alloc: Global,
    text: &str,
    start: usize,
) -> Result<Lexeme<'static>, AllocError>
    requires { IsCharBoundary text.now start }
    ensures value { IfOk result (λ l. lexeme_view l ≡ N.string_lexeme (N.content 0 (drop start text.now))) }
    ensures size { IfOk result (λ l. IsWithin (length text.now - start) l) }
{
    match content_from(alloc, text, start)? {
        Content::Closed(text, size) => Ok(Lexeme::Found(Token::Text(text), size + 1)),
        Content::Broken(distance) => Ok(Lexeme::Faulty(distance + 1)),
    }
}
