ghost use Rattle.std.specs.Prelude.{◌≡◌, nat_lt};
ghost use Rattle.vt_show.specs.Levels.{level_number};

/// Where in a text a type stands, which decides on its parentheses.
#[derive(Clone, Copy)]
pub(crate) enum Level {
    Anywhere,
    LeftOfArrow,
    BesideStar,
}

impl Level {
    pub(crate) fn wraps_pair(self) -> bool
        ensures { result ≡ nat_lt 1 (level_number self) }
    {
        match self {
            Level::Anywhere => false,
            Level::LeftOfArrow => false,
            Level::BesideStar => true,
        }
    }

    pub(crate) fn wraps_arrow(self) -> bool
        ensures { result ≡ nat_lt 0 (level_number self) }
    {
        match self {
            Level::Anywhere => false,
            Level::LeftOfArrow => true,
            Level::BesideStar => true,
        }
    }
}
