//! How operators group: by the limit on depth, and by the types of their operands.
use crate::asking::{answer, prints, repeated};
use std::alloc::{AllocError, Global};
use std::test::Fail;
use vt_top::Status;

// All operators, the loosest first; the empty one stands for application.
const OPERATORS: [&str; 10] = ["or", "and", "=", "<", "::", "^", "+", "-", "*", ""];

// An operand so deep that one operation may stand over it, and not two.
fn deep(alloc: Global) -> Result<String, AllocError> {
    let mut text = repeated(alloc, "", "(", 254, "?")?;
    text.push_str(&repeated(alloc, "", ")", 254, "")?)?;
    Ok(text)
}

// How far the file is read.
fn outcome(alloc: Global, file: &str) -> Result<&'static str, AllocError> {
    let (status, sink) = answer(alloc, &["type", "f"], file.as_bytes())?;
    if status != Status::Refused {
        return Ok("read");
    }
    let is_deep = sink.bytes().ends_with(b"nested too deep\n".as_slice());
    Ok(if is_deep { "too deep" } else { "unexpected" })
}

// What is answered where the first of three operands is as deep as may be, and where the last one is.
fn outcomes(
    alloc: Global,
    one: &str,
    other: &str,
) -> Result<(&'static str, &'static str), AllocError> {
    let deep = deep(alloc)?;
    let first = outcome(alloc, &format!(in alloc; "{deep} {one} ? {other} ?")?)?;
    let last = outcome(alloc, &format!(in alloc; "? {one} ? {other} {deep}")?)?;
    Ok((first, last))
}

// The two operators group to the left, to the right, or do not stand beside each other.
fn groups(alloc: Global, one: &str, other: &str, letter: char) -> Result<bool, AllocError> {
    let wanted = match letter {
        'L' => ("too deep", "read"),
        'R' => ("read", "too deep"),
        _ => ("unexpected", "unexpected"),
    };
    Ok(outcomes(alloc, one, other)? == wanted)
}

// Each operator after this one groups as its letter says.
fn all_group(alloc: Global, one: &str, letters: &str) -> Result<bool, AllocError> {
    for (other, letter) in OPERATORS.into_iter().zip(letters.chars()) {
        if !groups(alloc, one, other, letter)? {
            return Ok(false);
        }
    }
    Ok(true)
}

#[test]
fn each_operator_groups_with_each(rt: HostRuntime) -> Result<(), Fail> {
    let alloc = rt.alloc();
    for (one, letters) in [
        ("or", "RRRRRRRRRR"),
        ("and", "LRRRRRRRRR"),
        ("=", "LL--RRRRRR"),
        ("<", "LL--RRRRRR"),
        ("::", "LLLLRRRRRR"),
        ("^", "LLLLLRRRRR"),
        ("+", "LLLLLLLLRR"),
        ("-", "LLLLLLLLRR"),
        ("*", "LLLLLLLLLR"),
        ("", "LLLLLLLLLL"),
    ] {
        assert!(rt; all_group(alloc, one, letters)?, "{one}");
    }
    Ok(())
}

// A function of three arguments with this body has this type.
fn of_three(alloc: Global, body: &str, text: &str) -> Result<bool, AllocError> {
    let file = format!(in alloc; "fun a -> fun b -> fun c -> {body}")?;
    let text = format!(in alloc; "{text}\n")?;
    prints(alloc, &file, &text)
}

#[test]
fn operands_have_the_types_of_their_groups(rt: HostRuntime) -> Result<(), Fail> {
    let alloc = rt.alloc();
    for (body, text) in [
        ("a or b and c", "Bool -> Bool -> Bool -> Bool"),
        ("a or b = c", "Bool -> 'a -> 'a -> Bool"),
        ("a = b or c", "'a -> 'a -> Bool -> Bool"),
        ("a and b < c", "Bool -> Int -> Int -> Bool"),
        ("a < b and c", "Int -> Int -> Bool -> Bool"),
        ("a = b :: c", "['a] -> 'a -> ['a] -> Bool"),
        ("a :: b = c", "'a -> ['a] -> ['a] -> Bool"),
        ("a :: b :: c", "'a -> 'a -> ['a] -> ['a]"),
        ("a ^ b :: c", "String -> String -> [String] -> [String]"),
        ("a :: [b ^ c]", "String -> String -> String -> [String]"),
        ("a = b ^ c", "String -> String -> String -> Bool"),
        ("a + b :: c", "Int -> Int -> [Int] -> [Int]"),
        ("a = b - c", "Int -> Int -> Int -> Bool"),
        ("a * b < c", "Int -> Int -> Int -> Bool"),
        ("a b c", "('a -> 'b -> 'c) -> 'a -> 'b -> 'c"),
        ("a b + c", "('a -> Int) -> 'a -> Int -> Int"),
        ("a * b c", "Int -> ('a -> Int) -> 'a -> Int"),
        ("a b :: c", "('a -> 'b) -> 'a -> ['b] -> ['b]"),
        ("a :: b c", "'a -> ('b -> ['a]) -> 'b -> ['a]"),
        ("a = b c", "'a -> ('b -> 'a) -> 'b -> Bool"),
        ("a or b c", "Bool -> ('a -> Bool) -> 'a -> Bool"),
    ] {
        assert!(rt; of_three(alloc, body, text)?, "{body}");
    }
    Ok(())
}
