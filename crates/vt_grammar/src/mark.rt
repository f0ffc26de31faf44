//! Signs and words that constructs wait for.
ghost use Rattle.std.specs.Prelude.{◌≡◌};
ghost use Rattle.vt_grammar.specs.Words.{mark_number};
ghost use Rattle.vt_grammar.specs.Machine.{same_mark};

/// The words and signs that a construct waits for.
#[derive(Clone, Copy)]
pub enum Mark {
    In,
    Then,
    Else,
    With,
    Bar,
    Semicolon,
    Comma,
    ParenClose,
    BraceClose,
    SquareClose,
    SquareOpen,
    BraceOpen,
    Arrow,
    Equals,
    Colons,
}

impl Mark {
    /// Whether the two are the same sign or word.
    pub fn is_same(self, other: Mark) -> bool
        ensures { result ≡ same_mark self other }
    {
        self.number() == other.number()
    }

    fn number(self) -> u8
        ensures { result ≡ mark_number self }
    {
        match self {
            Mark::In => 0,
            Mark::Then => 1,
            Mark::Else => 2,
            Mark::With => 3,
            Mark::Bar => 4,
            Mark::Semicolon => 5,
            Mark::Comma => 6,
            Mark::ParenClose => 7,
            Mark::BraceClose => 8,
            Mark::SquareClose => 9,
            Mark::SquareOpen => 10,
            Mark::BraceOpen => 11,
            Mark::Arrow => 12,
            Mark::Equals => 13,
            Mark::Colons => 14,
        }
    }
}
