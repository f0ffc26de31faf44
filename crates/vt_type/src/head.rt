ghost use Rattle.std.specs.Prelude.{◌≡◌, ◌<◌};
ghost use Rattle.vt_type.specs.Plain.{arity};

/// The constructor of a type.
#[derive(Clone, Copy, Debug, PartialEq, Eq)]
pub enum Head {
    Int,
    Bool,
    /// The type of strings, printed `String`.
    Text,
    List,
    Pair,
    Fun,
    /// A declared type, by its number in the order of declaration, with as many parameters as `arity`.
    Data { number: u32, arity: u8 },
}

impl Head {
    /// Does nothing. A proof calls it that rests on a head having fewer than 256 children.
    pub fn bounded(self)
        ensures { arity self < 256 }
    {
        let _ = self.arity();
    }

    /// How many children the head has.
    pub fn arity(self) -> u8
        ensures arity { result ≡ arity self }
        ensures fits { arity self < 256 }
    {
        match self {
            Head::Int => 0,
            Head::Bool => 0,
            Head::Text => 0,
            Head::List => 1,
            Head::Pair => 2,
            Head::Fun => 2,
            Head::Data { arity, .. } => arity,
        }
    }
}
