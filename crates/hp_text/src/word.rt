//! Words, names in backquotes, and numbers.

ghost use Rattle.std.specs.Prelude.{◌≡◌, ◌-◌, ◌<◌, ◌≤◌, true, length, drop, slice_index};
ghost use Rattle.std.specs.Char.{is_ascii_digit};
ghost use Rattle.std.specs.List.{list_all, prefix_len};
ghost use Rattle.hp_model.specs.Parts.{is_name_byte};
ghost use Rattle.hp_model.specs.NotationTokens as N;
ghost use Rattle.hp_text.specs.Lexemes.{lexeme_view, IsWithin};

use crate::lexeme::Lexeme;
use crate::mark::reserved;
use crate::token::{Magnitude, Token};

/// The most bytes that a name may have.
const MAX_NAME: usize = 32;

/// The greatest number, which is a number only after a minus.
const MAX_NUMBER: u64 = 9_223_372_036_854_775_808;

/// Whether a byte may go on a word.
fn is_name_byte(byte: u8) -> bool
    ensures { result ≡ is_name_byte byte }
{
    byte.is_ascii_alphanumeric() || byte == b'_'
}

/// How many letters, digits and underscores stand at the beginning.
fn word_rest(bytes: &[u8]) -> usize
    ensures value { result ≡ N.word_rest bytes.now }
    ensures within { result ≤ length bytes.now }
{
    bytes.iter().take_while(|byte| is_name_byte(**byte)).count()
}

/// How many digits stand at the beginning.
fn digits_rest(bytes: &[u8]) -> usize
    ensures value { result ≡ prefix_len is_ascii_digit bytes.now }
    ensures within { result ≤ length bytes.now }
{
    bytes
        .iter()
        .take_while(|byte| byte.is_ascii_digit())
        .count()
}

/// The text of bytes that all may go on a word.
#[tactic(auto, using(crate::proofs::Words::words_are_text))]
fn name_of(bytes: &[u8]) -> &str
    requires { list_all is_name_byte bytes.now ≡ true }
    ensures { result.now ≡ bytes.now }
{
    match std::str::from_utf8(bytes) {
        Ok(text) => text,
        Err(_) => unreachable!(),
    }
}

/// What a word is, of which so many bytes come after the first.
fn word_lexeme(word: &[u8], more: usize) -> Lexeme<'_>
    requires { list_all is_name_byte word.now ≡ true }
    ensures value { lexeme_view result ≡ N.word_lexeme word.entry.now more }
    ensures size { IsWithin more result }
{
    if word.len() > MAX_NAME {
        return Lexeme::Faulty(0);
    }
    let text = name_of(word);
    match reserved(text) {
        Some(mark) => Lexeme::Found(Token::Mark(mark), more),
        None => Lexeme::Found(Token::Word(text), more),
    }
}

/// The word at the beginning, which is a letter.
pub(crate) fn word_at(bytes: &[u8]) -> Lexeme<'_>
    requires some { 0 < length bytes.now }
    requires letter { N.beginning (slice_index bytes.now 0) ≡ N.letter }
    ensures value { lexeme_view result
        ≡ N.lexeme_at N.letter (slice_index bytes.entry.now 0) (drop 1 bytes.entry.now) }
    ensures size { IsWithin (length bytes.entry.now - 1) result }
{
    let more = word_rest(&bytes[1..]);
    word_lexeme(&bytes[..more + 1], more)
}

/// The name that begins after a backquote.
pub(crate) fn quoted_name(bytes: &[u8]) -> Lexeme<'_>
    ensures value { lexeme_view result ≡ N.quoted_lexeme bytes.entry.now }
    ensures size { IsWithin (length bytes.entry.now) result }
{
    if bytes.len() == 0 || !bytes[0].is_ascii_alphabetic() {
        return Lexeme::Faulty(1);
    }
    let size = word_rest(&bytes[1..]) + 1;
    if size > MAX_NAME {
        return Lexeme::Faulty(0);
    }
    if size == bytes.len() || bytes[size] != b'`' {
        return Lexeme::Faulty(size + 1);
    }
    Lexeme::Found(Token::Quoted(name_of(&bytes[..size])), size + 1)
}

/// What some digits are, of which so many come after the first.
fn number_lexeme(digits: &[u8], more: usize) -> Lexeme<'_>
    requires some { 0 < length digits.now }
    requires digits { list_all is_ascii_digit digits.now ≡ true }
    ensures value { lexeme_view result ≡ N.number_lexeme digits.entry.now more }
    ensures size { IsWithin more result }
{
    if digits[0] == b'0' && more > 0 {
        return Lexeme::Faulty(0);
    }
    match name_of(digits).parse::<u64>() {
        Ok(value) => {
            if value > MAX_NUMBER {
                return Lexeme::Faulty(0);
            }
            Lexeme::Found(Token::Number(Magnitude { value }), more)
        }
        Err(_) => Lexeme::Faulty(0),
    }
}

/// The number at the beginning, which is a digit.
pub(crate) fn number_at(bytes: &[u8]) -> Lexeme<'_>
    requires some { 0 < length bytes.now }
    requires digit { N.beginning (slice_index bytes.now 0) ≡ N.digit }
    ensures value { lexeme_view result
        ≡ N.lexeme_at N.digit (slice_index bytes.entry.now 0) (drop 1 bytes.entry.now) }
    ensures size { IsWithin (length bytes.entry.now - 1) result }
{
    let more = digits_rest(&bytes[1..]);
    number_lexeme(&bytes[..more + 1], more)
}
