//! The tokens of a text.

ghost use Rattle.std.specs.Prelude.{◌≤◌, ◌^◌};

use crate::mark::Mark;

/// A number of at most 2 ^ 63.
#[derive(Clone, Copy, Debug)]
pub(crate) struct Magnitude {
    pub value: u64,
    ghost small: { value ≤ 2 ^ 63 },
}

/// A token.
#[derive(Debug, Drop)]
pub(crate) enum Token<'a> {
    /// A reserved word or a symbol.
    Mark(Mark),
    /// A word that isn't reserved.
    Word(&'a str),
    /// A name in backquotes, without them.
    Quoted(&'a str),
    Number(Magnitude),
    /// A text, with its escapes replaced.
    Text(String),
}

/// A token and its offset: how many bytes stand before it.
#[derive(Debug, Drop)]
pub(crate) struct Placed<'a> {
    pub at: usize,
    pub token: Token<'a>,
}

/// What comes after the last token, with its offset.
#[derive(Clone, Copy, Debug)]
pub(crate) enum Ending {
    /// The end of the text.
    End(usize),
    /// What continues no token.
    Unreadable(usize),
}

/// The tokens of a text.
#[derive(Debug, Drop)]
pub(crate) struct Lexed<'a> {
    pub tokens: Vec<Placed<'a>>,
    pub ending: Ending,
}
