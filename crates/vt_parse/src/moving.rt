//! What a construct waits for, and what it becomes when that comes.
ghost use Rattle.std.specs.Prelude.{◌≡◌};
ghost use Rattle.vt_grammar.specs.Frames.{awaited, passed, after_part, bracket, with_name, mark_after_name, made_recursive, after_mark};

use vt_grammar::{Binder, Frame, Mark, Middle, Naming, Next, Operand, Right, Tail};

/// What comes after a sign that was awaited.
pub(crate) fn after_mark(mark: Mark) -> Next
    ensures { result ≡ after_mark mark }
{
    match mark {
        Mark::SquareOpen => Next::Awaits(Mark::SquareClose),
        Mark::SquareClose => Next::Awaits(Mark::Arrow),
        _ => Next::Wanted,
    }
}

/// What a part waits for.
pub(crate) fn awaited(middle: &Middle) -> Mark
    ensures { result ≡ awaited middle.now }
{
    match middle {
        Middle::LetBound { .. } => Mark::In,
        Middle::Condition { .. } => Mark::Then,
        Middle::ThenBranch { .. } => Mark::Else,
        Middle::Matched { .. } => Mark::With,
        Middle::EmptyArm { .. } => Mark::Bar,
        Middle::ChoiceLeft { .. } => Mark::Comma,
    }
}

/// What comes next then.
pub(crate) fn after_part(middle: &Middle) -> Next
    ensures { result ≡ after_part middle.now }
{
    match middle {
        Middle::Matched { .. } => Next::Awaits(Mark::SquareOpen),
        _ => Next::Wanted,
    }
}

/// What a construct becomes, when its part has been read and its sign has come.
pub(crate) fn passed(middle: Middle, part: Operand) -> Frame
    ensures { result ≡ passed middle part }
{
    match middle {
        Middle::LetBound {
            from,
            recursive,
            name,
        } => Frame::Tail(Tail::LetBody {
            from,
            recursive,
            name,
            bound: part,
        }),
        Middle::Condition { from } => Frame::Middle(Middle::ThenBranch {
            from,
            condition: part,
        }),
        Middle::ThenBranch { from, condition } => Frame::Tail(Tail::ElseBranch {
            from,
            condition,
            then: part,
        }),
        Middle::Matched { from } => Frame::Middle(Middle::EmptyArm { from, list: part }),
        Middle::EmptyArm { from, list } => Frame::Naming(Naming::FirstName {
            from,
            list,
            empty: part,
        }),
        Middle::ChoiceLeft { dim } => Frame::Right(Right::Choice { dim, left: part }),
    }
}

/// The bracket that a second part waits for.
pub(crate) fn bracket(right: &Right) -> Mark
    ensures { result ≡ bracket right.now }
{
    match right {
        Right::Pair { .. } => Mark::ParenClose,
        Right::Choice { .. } => Mark::BraceClose,
    }
}

/// The sign that a construct waits for after its name.
pub(crate) fn mark_after_name(naming: &Naming) -> Mark
    ensures { result ≡ mark_after_name naming.now }
{
    match naming {
        Naming::FunName { .. } => Mark::Arrow,
        Naming::LetName { .. } => Mark::Equals,
        Naming::DefName { .. } => Mark::Equals,
        Naming::FirstName { .. } => Mark::Colons,
        Naming::RestName { .. } => Mark::Arrow,
    }
}

/// What a construct becomes with its name.
pub(crate) fn with_name(naming: Naming, name: Binder) -> Frame
    ensures { result ≡ with_name naming name }
{
    match naming {
        Naming::FunName { from } => Frame::Tail(Tail::FunBody { from, name }),
        Naming::LetName { from, recursive } => Frame::Middle(Middle::LetBound {
            from,
            recursive,
            name,
        }),
        Naming::DefName { recursive } => Frame::Body { recursive, name },
        Naming::FirstName { from, list, empty } => Frame::Naming(Naming::RestName {
            from,
            list,
            empty,
            first: name,
        }),
        Naming::RestName {
            from,
            list,
            empty,
            first,
        } => Frame::Tail(Tail::CellArm {
            from,
            list,
            empty,
            first,
            rest: name,
        }),
    }
}

/// What `rec` makes of a construct that waits for its name.
pub(crate) fn made_recursive(naming: Naming) -> Option<Naming>
    ensures { result ≡ made_recursive naming }
{
    match naming {
        Naming::LetName { from, recursive } => {
            if recursive {
                None
            } else {
                Some(Naming::LetName {
                    from,
                    recursive: true,
                })
            }
        }
        Naming::DefName { recursive } => {
            if recursive {
                None
            } else {
                Some(Naming::DefName { recursive: true })
            }
        }
        other => {
            drop(other);
            None
        }
    }
}
