//! How tightly operators and application join.
ghost use Rattle.std.specs.Prelude.{◌≡◌};
ghost use Rattle.vt_syntax.specs.Infixes.{infix_of, level, left_level, right_level};

use crate::Op;

const APPLICATION: u8 = 8;

const ARGUMENT: u8 = 9;

/// The level of what an operator, or nothing, joins.
pub fn level(op: Option<Op>) -> u8
    ensures { result ≡ level (infix_of op) }
{
    match op {
        Some(op) => operator_level(op),
        None => APPLICATION,
    }
}

fn operator_level(op: Op) -> u8
    ensures { result ≡ level (infix_of (Some op)) }
{
    match op {
        Op::Or => 1,
        Op::And => 2,
        Op::Equal => 3,
        Op::Less => 3,
        Op::Cons => 4,
        Op::Cat => 5,
        Op::Add => 6,
        Op::Sub => 6,
        Op::Mul => 7,
    }
}

/// The level that is wanted of the left side.
pub fn left_level(op: Option<Op>) -> u8
    ensures { result ≡ left_level (infix_of op) }
{
    match op {
        Some(op) => operator_left_level(op),
        None => APPLICATION,
    }
}

fn operator_left_level(op: Op) -> u8
    ensures { result ≡ left_level (infix_of (Some op)) }
{
    match op {
        Op::Or => 2,
        Op::And => 3,
        Op::Equal => 4,
        Op::Less => 4,
        Op::Cons => 5,
        Op::Cat => 6,
        Op::Add => 6,
        Op::Sub => 6,
        Op::Mul => 7,
    }
}

/// The level that is wanted of the right side.
pub fn right_level(op: Option<Op>) -> u8
    ensures { result ≡ right_level (infix_of op) }
{
    match op {
        Some(op) => operator_right_level(op),
        None => ARGUMENT,
    }
}

fn operator_right_level(op: Op) -> u8
    ensures { result ≡ right_level (infix_of (Some op)) }
{
    match op {
        Op::Or => 1,
        Op::And => 2,
        Op::Equal => 4,
        Op::Less => 4,
        Op::Cons => 4,
        Op::Cat => 5,
        Op::Add => 7,
        Op::Sub => 7,
        Op::Mul => 8,
    }
}
