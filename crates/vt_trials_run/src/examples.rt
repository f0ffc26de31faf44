//! The examples of the documents, and limits that only larger files meet.
use crate::asking::{doubled_type, prints, refuses, repeated};
use std::alloc::{AllocError, Global};
use std::test::Fail;

#[test]
fn the_forms_of_the_language_have_these_types(rt: HostRuntime) -> Result<(), Fail> {
    let alloc = rt.alloc();
    for (file, text) in [
        ("42", "Int\n"),
        ("\"a\\\"b\"", "String\n"),
        ("?", "'a\n"),
        ("fun x -> x", "'a -> 'a\n"),
        ("fst (1, true)", "Int\n"),
        ("let f = fun x -> x in (f 1, f true)", "Int * Bool\n"),
        (
            "let rec f = fun n -> if n = 0 then 0 else f (n - 1) in f",
            "Int -> Int\n",
        ),
        ("if 1 < 2 then \"a\" else \"b\"", "String\n"),
        (
            "fun l -> match l with [] -> 0 | x :: xs -> x",
            "[Int] -> Int\n",
        ),
        ("[1; 2; 3]", "[Int]\n"),
        ("def id = fun x -> x; id 1", "Int\n"),
        ("def rec f = fun x -> f x; f", "'a -> 'b\n"),
        ("fun \u{e9}t\u{e9} -> \u{e9}t\u{e9}", "'a -> 'a\n"),
        ("@A{[1], [true]}", "[@A{Int, Bool}]\n"),
        ("@if{1, true}", "@if{Int, Bool}\n"),
        ("@A{@B{1, true}, \"s\"}", "@A{@B{Int, Bool}, String}\n"),
        (
            "@B{@A{1, \"s\"}, @A{true, \"s\"}}",
            "@B{@A{Int, String}, @A{Bool, String}}\n",
        ),
    ] {
        assert!(rt; prints(alloc, file, text)?, "{file}");
    }
    Ok(())
}

#[test]
fn the_operators_have_these_types(rt: HostRuntime) -> Result<(), Fail> {
    let alloc = rt.alloc();
    for (file, text) in [
        ("true or false", "Bool\n"),
        ("true and false", "Bool\n"),
        ("1 = 2", "Bool\n"),
        ("1 < 2", "Bool\n"),
        ("1 :: []", "[Int]\n"),
        ("\"a\" ^ \"b\"", "String\n"),
        ("3 - 2 + 1", "Int\n"),
        ("2 * 3", "Int\n"),
        ("succ 1 * 2", "Int\n"),
        ("1 + 2 * 3 = 7", "Bool\n"),
        ("7 = 1 + 2 * 3", "Bool\n"),
        ("1 < 2 and 3 < 4", "Bool\n"),
        ("1 < 2 or 3 < 4 and true", "Bool\n"),
        ("true or false and true", "Bool\n"),
        ("\"a\" ^ \"b\" ^ \"c\"", "String\n"),
        ("\"a\" ^ \"b\" = \"ab\"", "Bool\n"),
        ("1 :: 2 :: []", "[Int]\n"),
        ("1 + 2 :: 3 * 4 :: []", "[Int]\n"),
        ("1 :: [] = []", "Bool\n"),
        ("not true = false and succ 1 < 2", "Bool\n"),
        ("fun x -> x + 1 :: []", "Int -> [Int]\n"),
        ("if true then 1 else 2 + 3", "Int\n"),
        ("let x = 1 in x = 1 or false", "Bool\n"),
    ] {
        assert!(rt; prints(alloc, file, text)?, "{file}");
    }
    Ok(())
}

#[test]
fn a_recursive_definition_serves_all_variants(rt: HostRuntime) -> Result<(), Fail> {
    let file =
        "def rec map = fun f -> fun l ->\n  match l with [] -> [] | x :: xs -> f x :: map f xs;\nmap @Key{succ, not} @Key{[1; 2], [true]}\n";
    assert!(rt; prints(rt.alloc(), file, "[@Key{Int, Bool}]\n")?);
    Ok(())
}

#[test]
fn chains_are_as_deep_as_they_group(rt: HostRuntime) -> Result<(), Fail> {
    let alloc = rt.alloc();
    let line = "1:512 nested too deep\n";
    assert!(rt; prints(alloc, &repeated(alloc, "1", "+1", 255, "")?, "Int\n")?);
    assert!(rt; refuses(alloc, &repeated(alloc, "1", "+1", 256, "")?, line)?);
    Ok(())
}

#[test]
fn later_elements_of_a_list_are_deeper(rt: HostRuntime) -> Result<(), Fail> {
    let alloc = rt.alloc();
    let line = "1:511 nested too deep\n";
    assert!(rt; prints(alloc, &repeated(alloc, "[1", ";1", 254, "]")?, "[Int]\n")?);
    assert!(rt; refuses(alloc, &repeated(alloc, "[1", ";1", 255, "]")?, line)?);
    Ok(())
}

// A function that makes a pair of its argument twice, applied so many times.
fn through_functions(alloc: Global, count: u32) -> Result<String, AllocError> {
    let mut file = repeated(alloc, "", "(fun x -> (x, x)) (", count, "1")?;
    file.push_str(&repeated(alloc, "", ")", count, "")?)?;
    Ok(file)
}

#[test]
fn the_limit_counts_types_that_are_shared(rt: HostRuntime) -> Result<(), Fail> {
    let alloc = rt.alloc();
    let text = doubled_type(alloc, 11)?;
    let line = "type of - has more than 4096 nodes\n";
    assert!(rt; prints(alloc, &through_functions(alloc, 11)?, &text)?);
    assert!(rt; refuses(alloc, &through_functions(alloc, 12)?, line)?);
    Ok(())
}

// A type of 4,095 nodes, within so many lists.
fn listed(alloc: Global, open: &str, close: &str) -> Result<String, AllocError> {
    let file = through_functions(alloc, 11)?;
    format!(in alloc; "{open}{file}{close}")
}

#[test]
fn a_type_of_as_many_nodes_as_the_limit_is_printed(rt: HostRuntime) -> Result<(), Fail> {
    let alloc = rt.alloc();
    let text = doubled_type(alloc, 11)?;
    let text = format!(in alloc; "[{}]\n", text.trim_end())?;
    let line = "type of - has more than 4096 nodes\n";
    assert!(rt; prints(alloc, &listed(alloc, "[", "]")?, &text)?);
    assert!(rt; refuses(alloc, &listed(alloc, "[[", "]]")?, line)?);
    Ok(())
}
