//! Operators of two operands.

ghost use Rattle.std.specs.Prelude.{◌≡◌, option_map};
ghost use Rattle.hp_model.specs.NotationForms.{operator_mark};
ghost use Rattle.hp_model.specs.NotationExpressions.{level_of};
ghost use Rattle.hp_model.specs.NotationPrint.{left_level, right_level};
ghost use Rattle.hp_model.specs.NotationValues.{operator_of};
ghost use Rattle.hp_text.specs.Mapped.{mark_view};
ghost use Rattle.hp_print.specs.Forms.{operator_view};

use hp_text::Mark;

/// An operator of two operands.
#[derive(Clone, Copy)]
pub(crate) enum Operator {
    Either,
    Both,
    Equal,
    Unequal,
    Less,
    AtMost,
    Greater,
    AtLeast,
    Plus,
    Minus,
    Times,
    Quotient,
    Remainder,
}

/// The operator that a word is.
pub(crate) fn operator_of(word: &str) -> Option<Operator>
    ensures { option_map operator_view result ≡ operator_of word.now }
{
    match word {
        "or" => Some(Operator::Either),
        "and" => Some(Operator::Both),
        "=" => Some(Operator::Equal),
        "!=" => Some(Operator::Unequal),
        "<" => Some(Operator::Less),
        "<=" => Some(Operator::AtMost),
        ">" => Some(Operator::Greater),
        ">=" => Some(Operator::AtLeast),
        "+" => Some(Operator::Plus),
        "-" => Some(Operator::Minus),
        "*" => Some(Operator::Times),
        "/" => Some(Operator::Quotient),
        "%" => Some(Operator::Remainder),
        _ => None,
    }
}

impl Operator {
    /// How the operator is written.
    pub(crate) fn sign(self) -> Mark
        ensures { mark_view result ≡ operator_mark (operator_view self) }
    {
        match self {
            Operator::Either => Mark::Or,
            Operator::Both => Mark::And,
            Operator::Equal => Mark::Equal,
            Operator::Unequal => Mark::NotEqual,
            Operator::Less => Mark::Less,
            Operator::AtMost => Mark::LessOrEqual,
            Operator::Greater => Mark::Greater,
            Operator::AtLeast => Mark::GreaterOrEqual,
            Operator::Plus => Mark::Plus,
            Operator::Minus => Mark::Minus,
            Operator::Times => Mark::Star,
            Operator::Quotient => Mark::Slash,
            Operator::Remainder => Mark::Percent,
        }
    }

    /// The level of what the operator joins: 1 of `or`, 2 of `and`, 4 of relations, 5 of sums, 6 of products.
    pub(crate) fn level(self) -> usize
        ensures { result ≡ level_of (operator_mark (operator_view self)) }
    {
        match self {
            Operator::Either => 1,
            Operator::Both => 2,
            Operator::Plus | Operator::Minus => 5,
            Operator::Times | Operator::Quotient | Operator::Remainder => 6,
            _ => 4,
        }
    }

    /// The least level that the left operand has without parentheses.
    pub(crate) fn left_level(self) -> usize
        ensures { result ≡ left_level (operator_view self) }
    {
        match self {
            Operator::Either => 2,
            Operator::Both => 3,
            Operator::Times | Operator::Quotient | Operator::Remainder => 6,
            _ => 5,
        }
    }

    /// The least level that the right operand has without parentheses.
    pub(crate) fn right_level(self) -> usize
        ensures { result ≡ right_level (operator_view self) }
    {
        match self {
            Operator::Either => 1,
            Operator::Both => 2,
            Operator::Plus | Operator::Minus => 6,
            Operator::Times | Operator::Quotient | Operator::Remainder => 7,
            _ => 5,
        }
    }
}
