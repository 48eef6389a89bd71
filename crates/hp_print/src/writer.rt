//! A writer of tokens.

ghost use Rattle.std.specs.Prelude.{◌≡◌, ◌++◌, ◌*◌, option_map, replicate, IfOk, OnOk, None, false, [], string_bytes};
ghost use Rattle.hp_model.specs.Report.{quoted};
ghost use Rattle.hp_model.specs.NotationPrint as P;
ghost use Rattle.hp_text.specs.Mapped.{mark_view};
ghost use Rattle.hp_print.specs.Written.{gap_view, token_view, nothing, Gains, Writes};

use crate::token::{Gap, Last, Token, gap_before, last_of};
use hp_text::Mark;
use std::alloc::{AllocError, Global};
use std::fmt::Write;

/// Writes tokens at the end of a text. Once it has met a value that is no form, it writes nothing more.
#[derive(Drop)]
pub(crate) struct Writer {
    alloc: Global,
    pub text: String,
    pub last: Last,
    /// Whether all stands on one line.
    pub is_line: bool,
    /// Whether a value was no form.
    pub is_refused: bool,
}

/// A text as compact JSON.
#[tactic(auto, using(crate::proofs::Texts::quoted_is))]
fn quoted_text(alloc: Global, text: &str) -> Result<String, AllocError>
    ensures { IfOk result (λ s. string_bytes s ≡ quoted text.now) }
{
    serde_json::Value::try_from_str(alloc, text)?.to_string(alloc)
}

/// Writes an indentation of this many steps, which are two spaces each.
#[tactic(auto, using(crate::proofs::Texts::indent_more))]
fn put_indent(text: &mut String, depth: usize) -> Result<(), AllocError>
    ensures { OnOk result (Gains text.old text.new (replicate (2 * depth) 32)) }
{
    for _i in 0..depth {
        text.push_str("  ")?;
    }
    Ok(())
}

/// Writes what stands before a token.
fn put_gap(text: &mut String, gap: Gap) -> Result<(), AllocError>
    ensures { OnOk result (Gains text.old text.new (P.gap_text (gap_view gap))) }
{
    match gap {
        Gap::Tight => Ok(()),
        Gap::Space => text.push_str(" "),
        Gap::Line(depth) => {
            text.push_str("\n")?;
            put_indent(text, depth)
        }
        Gap::Paragraph => text.push_str("\n\n"),
    }
}

/// Writes a token.
fn put_token(alloc: Global, text: &mut String, token: Token<'_>) -> Result<(), AllocError>
    ensures { OnOk result (Gains text.old text.new (P.token_text (token_view token.entry))) }
{
    match token {
        Token::Mark(mark) => text.push_str(mark.spelling()),
        Token::Word(word) => text.push_str(word),
        Token::Quoted(name) => write!(text, "`{name}`"),
        Token::Number(number) => write!(text, "{number}"),
        Token::Text(string) => {
            let quoted = quoted_text(alloc, string)?;
            text.push_str(quoted.as_str())
        }
    }
}

impl Writer {
    /// A writer of an empty text.
    pub(crate) fn new(alloc: Global, is_line: bool) -> Writer
        ensures text { string_bytes result.text ≡ [] }
        ensures refused { result.is_refused ≡ false }
        ensures line { result.is_line ≡ is_line }
        ensures last { result.last ≡ nothing }
    {
        Writer {
            alloc,
            text: String::new(alloc),
            last: Last {
                is_wordlike: false,
                is_relation: false,
            },
            is_line,
            is_refused: false,
        }
    }

    /// Notes that a value is no form.
    pub(crate) fn refuse(&mut self)
        ensures { Writes self.old self.new (λ rest. None) }
    {
        self.is_refused = true;
    }

    /// Writes a token.
    #[tactic(auto, using(crate::proofs::Texts::token_more))]
    pub(crate) fn put(&mut self, gap: Gap, token: Token<'_>) -> Result<(), AllocError>
        ensures { OnOk result
            (Writes self.old self.new (option_map (P.at_gap (gap_view gap) (token_view token.entry)))) }
    {
        if self.is_refused {
            return Ok(());
        }
        let gap = gap_before(self.last, self.is_line, gap, token);
        put_gap(&mut self.text, gap)?;
        put_token(self.alloc, &mut self.text, token)?;
        self.last = last_of(token);
        Ok(())
    }

    /// Writes a reserved word or a symbol.
    pub(crate) fn mark(&mut self, gap: Gap, mark: Mark) -> Result<(), AllocError>
        ensures { OnOk result (Writes self.old self.new (option_map (P.sign (gap_view gap) (mark_view mark)))) }
    {
        self.put(gap, Token::Mark(mark))
    }

    /// Writes a free word of the grammar.
    pub(crate) fn word(&mut self, gap: Gap, word: &str) -> Result<(), AllocError>
        ensures { OnOk result (Writes self.old self.new (option_map (P.free (gap_view gap) word.now))) }
    {
        self.put(gap, Token::Word(word))
    }
}
