//! The reserved words and the symbols.

ghost use Rattle.std.specs.Prelude.{◌≡◌, option_map};
ghost use Rattle.hp_model.specs.NotationTokens.{spelling, reserved_word};
ghost use Rattle.hp_text.specs.Mapped.{mark_view};
ghost use Rattle.hp_text.specs.Words.{among, of_2, of_3, of_4, of_5, of_6, of_7, of_8, of_9};

/// A reserved word or a symbol of the notation.
#[derive(Clone, Copy, Debug, PartialEq, Eq)]
pub enum Mark {
    On,
    If,
    Do,
    Where,
    As,
    Set,
    Else,
    Otherwise,
    Then,
    Until,
    And,
    Or,
    Not,
    True,
    False,
    New,
    Old,
    Event,
    Key,
    Immediate,
    Deferred,
    Separate,
    Dependent,
    Exclusive,
    Create,
    Update,
    Delete,
    Signal,
    Emit,
    Each,
    For,
    With,
    Sub,
    Abort,
    Veto,
    Install,
    Enable,
    Disable,
    Remove,
    Fire,
    OpenBrace,
    CloseBrace,
    OpenParenthesis,
    CloseParenthesis,
    OpenBracket,
    CloseBracket,
    Comma,
    Colon,
    Semicolon,
    Point,
    Equal,
    NotEqual,
    Less,
    LessOrEqual,
    Greater,
    GreaterOrEqual,
    Plus,
    Minus,
    Star,
    Slash,
    Percent,
}

impl Mark {
    /// How the mark is written.
    pub fn spelling(self) -> &'static str
        ensures { result.now ≡ spelling (mark_view self) }
    {
        match self {
            Mark::On => "on",
            Mark::If => "if",
            Mark::Do => "do",
            Mark::Where => "where",
            Mark::As => "as",
            Mark::Set => "set",
            Mark::Else => "else",
            Mark::Otherwise => "otherwise",
            Mark::Then => "then",
            Mark::Until => "until",
            Mark::And => "and",
            Mark::Or => "or",
            Mark::Not => "not",
            Mark::True => "true",
            Mark::False => "false",
            Mark::New => "new",
            Mark::Old => "old",
            Mark::Event => "event",
            Mark::Key => "key",
            Mark::Immediate => "immediate",
            Mark::Deferred => "deferred",
            Mark::Separate => "separate",
            Mark::Dependent => "dependent",
            Mark::Exclusive => "exclusive",
            Mark::Create => "create",
            Mark::Update => "update",
            Mark::Delete => "delete",
            Mark::Signal => "signal",
            Mark::Emit => "emit",
            Mark::Each => "each",
            Mark::For => "for",
            Mark::With => "with",
            Mark::Sub => "sub",
            Mark::Abort => "abort",
            Mark::Veto => "veto",
            Mark::Install => "install",
            Mark::Enable => "enable",
            Mark::Disable => "disable",
            Mark::Remove => "remove",
            Mark::Fire => "fire",
            Mark::OpenBrace => "{",
            Mark::CloseBrace => "}",
            Mark::OpenParenthesis => "(",
            Mark::CloseParenthesis => ")",
            Mark::OpenBracket => "[",
            Mark::CloseBracket => "]",
            Mark::Comma => ",",
            Mark::Colon => ":",
            Mark::Semicolon => ";",
            Mark::Point => ".",
            Mark::Equal => "=",
            Mark::NotEqual => "!=",
            Mark::Less => "<",
            Mark::LessOrEqual => "<=",
            Mark::Greater => ">",
            Mark::GreaterOrEqual => ">=",
            Mark::Plus => "+",
            Mark::Minus => "-",
            Mark::Star => "*",
            Mark::Slash => "/",
            Mark::Percent => "%",
        }
    }
}

/// The reserved word that `word` is, or `None` where it may be a name. A printer quotes the names that are reserved.
///
/// It is compared with the reserved words of its length alone.
#[tactic(auto, using(crate::proofs::Lengths::two, crate::proofs::Lengths::three, crate::proofs::Lengths::four, crate::proofs::Lengths::five, crate::proofs::Lengths::six, crate::proofs::Lengths::seven, crate::proofs::Lengths::eight, crate::proofs::Lengths::nine))]
pub fn reserved(word: &str) -> Option<Mark>
    ensures { option_map mark_view result ≡ reserved_word word.now }
{
    match word.len() {
        2 => word_of_2(word),
        3 => word_of_3(word),
        4 => word_of_4(word),
        5 => word_of_5(word),
        6 => word_of_6(word),
        7 => word_of_7(word),
        8 => word_of_8(word),
        9 => word_of_9(word),
        _ => None,
    }
}

/// The reserved word of two letters that this is.
fn word_of_2(word: &str) -> Option<Mark>
    ensures { option_map mark_view result ≡ among of_2 word.now }
{
    match word {
        "on" => Some(Mark::On),
        "if" => Some(Mark::If),
        "do" => Some(Mark::Do),
        "as" => Some(Mark::As),
        "or" => Some(Mark::Or),
        _ => None,
    }
}

/// The reserved word of three letters that this is.
fn word_of_3(word: &str) -> Option<Mark>
    ensures { option_map mark_view result ≡ among of_3 word.now }
{
    match word {
        "set" => Some(Mark::Set),
        "and" => Some(Mark::And),
        "not" => Some(Mark::Not),
        "new" => Some(Mark::New),
        "old" => Some(Mark::Old),
        "key" => Some(Mark::Key),
        "for" => Some(Mark::For),
        "sub" => Some(Mark::Sub),
        _ => None,
    }
}

/// The reserved word of four letters that this is.
fn word_of_4(word: &str) -> Option<Mark>
    ensures { option_map mark_view result ≡ among of_4 word.now }
{
    match word {
        "else" => Some(Mark::Else),
        "then" => Some(Mark::Then),
        "true" => Some(Mark::True),
        "emit" => Some(Mark::Emit),
        "each" => Some(Mark::Each),
        "with" => Some(Mark::With),
        "veto" => Some(Mark::Veto),
        "fire" => Some(Mark::Fire),
        _ => None,
    }
}

/// The reserved word of five letters that this is.
fn word_of_5(word: &str) -> Option<Mark>
    ensures { option_map mark_view result ≡ among of_5 word.now }
{
    match word {
        "where" => Some(Mark::Where),
        "until" => Some(Mark::Until),
        "false" => Some(Mark::False),
        "event" => Some(Mark::Event),
        "abort" => Some(Mark::Abort),
        _ => None,
    }
}

/// The reserved word of six letters that this is.
fn word_of_6(word: &str) -> Option<Mark>
    ensures { option_map mark_view result ≡ among of_6 word.now }
{
    match word {
        "create" => Some(Mark::Create),
        "update" => Some(Mark::Update),
        "delete" => Some(Mark::Delete),
        "signal" => Some(Mark::Signal),
        "enable" => Some(Mark::Enable),
        "remove" => Some(Mark::Remove),
        _ => None,
    }
}

/// The reserved word of seven letters that this is.
fn word_of_7(word: &str) -> Option<Mark>
    ensures { option_map mark_view result ≡ among of_7 word.now }
{
    match word {
        "install" => Some(Mark::Install),
        "disable" => Some(Mark::Disable),
        _ => None,
    }
}

/// The reserved word of eight letters that this is.
fn word_of_8(word: &str) -> Option<Mark>
    ensures { option_map mark_view result ≡ among of_8 word.now }
{
    match word {
        "deferred" => Some(Mark::Deferred),
        "separate" => Some(Mark::Separate),
        _ => None,
    }
}

/// The reserved word of nine letters that this is.
fn word_of_9(word: &str) -> Option<Mark>
    ensures { option_map mark_view result ≡ among of_9 word.now }
{
    match word {
        "otherwise" => Some(Mark::Otherwise),
        "immediate" => Some(Mark::Immediate),
        "dependent" => Some(Mark::Dependent),
        "exclusive" => Some(Mark::Exclusive),
        _ => None,
    }
}
