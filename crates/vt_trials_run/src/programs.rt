//! Programs as a user writes them: functions on lists, functions of functions, and choices in every place.
use crate::asking::{prints, prints_error};
use std::alloc::{AllocError, Global};
use std::test::Fail;

#[test]
fn functions_have_their_principal_types(rt: HostRuntime) -> Result<(), Fail> {
    let alloc = rt.alloc();
    for (file, text) in [
        (
            "def rec map = fun f -> fun l ->\n  match l with [] -> [] | x :: xs -> f x :: map f xs;\nmap",
            "('a -> 'b) -> ['a] -> ['b]\n",
        ),
        (
            "def rec filter = fun p -> fun l -> match l with [] -> [] | x :: xs ->\n  if p x then x :: filter p xs else filter p xs;\nfilter",
            "('a -> Bool) -> ['a] -> ['a]\n",
        ),
        (
            "def rec fold = fun f -> fun z -> fun l ->\n  match l with [] -> z | x :: xs -> f x (fold f z xs);\nfold",
            "('a -> 'b -> 'b) -> 'b -> ['a] -> 'b\n",
        ),
        (
            "def rec each = fun f -> fun z -> fun l ->\n  match l with [] -> z | x :: xs -> each f (f z x) xs;\neach",
            "('a -> 'b -> 'a) -> 'a -> ['b] -> 'a\n",
        ),
        (
            "def rec append = fun a -> fun b ->\n  match a with [] -> b | x :: xs -> x :: append xs b;\ndef rec concat = fun l ->\n  match l with [] -> [] | x :: xs -> append x (concat xs);\nconcat",
            "[['a]] -> ['a]\n",
        ),
        (
            "def rec zip = fun a -> fun b -> match a with [] -> [] | x :: xs ->\n  match b with [] -> [] | y :: ys -> (x, y) :: zip xs ys;\nzip",
            "['a] -> ['b] -> ['a * 'b]\n",
        ),
        (
            "def rec member = fun x -> fun l ->\n  match l with [] -> false | y :: ys -> x = y or member x ys;\nmember",
            "'a -> ['a] -> Bool\n",
        ),
        (
            "def rec insert = fun x -> fun l -> match l with [] -> [x] | y :: ys ->\n  if x < y then x :: l else y :: insert x ys;\ndef rec sort = fun l -> match l with [] -> [] | x :: xs -> insert x (sort xs);\nsort",
            "[Int] -> [Int]\n",
        ),
        (
            "def rec length = fun l -> match l with [] -> 0 | x :: xs -> 1 + length xs;\n(length [1], length @A{[true], [\"s\"]})",
            "Int * Int\n",
        ),
        (
            "fun l -> match l with [] -> [] | x :: x -> x",
            "['a] -> ['a]\n",
        ),
        (
            "fun f -> fun g -> fun x -> f (g x)",
            "('a -> 'b) -> ('c -> 'a) -> 'c -> 'b\n",
        ),
        (
            "fun f -> fun x -> fun y -> f y x",
            "('a -> 'b -> 'c) -> 'b -> 'a -> 'c\n",
        ),
        (
            "fun f -> fun x -> fun y -> f (x, y)",
            "('a * 'b -> 'c) -> 'a -> 'b -> 'c\n",
        ),
        (
            "fun f -> fun p -> f (fst p) (snd p)",
            "('a -> 'b -> 'c) -> 'a * 'b -> 'c\n",
        ),
        (
            "fun x -> fun y -> fun z -> x z (y z)",
            "('a -> 'b -> 'c) -> ('a -> 'b) -> 'a -> 'c\n",
        ),
        ("fun f -> fun x -> f (f x)", "('a -> 'a) -> 'a -> 'a\n"),
        (
            "def twice = fun f -> fun x -> f (f x); (twice twice succ 1, twice not true)",
            "Int * Bool\n",
        ),
        (
            "let pair = fun x -> fun y -> (x, y) in pair (pair 1 true) \"s\"",
            "(Int * Bool) * String\n",
        ),
        (
            "let k = fun x -> fun y -> x in let s = fun f -> fun g -> fun x -> f x (g x) in s k k",
            "'a -> 'a\n",
        ),
        (
            "let f = (fun x -> x) (fun y -> y) in (f 1, f true)",
            "Int * Bool\n",
        ),
        ("fun x -> let y = x in y", "'a -> 'a\n"),
        ("fun not -> not 1", "(Int -> 'a) -> 'a\n"),
        ("let x = 1 in x", "Int\n"),
    ] {
        assert!(rt; prints(alloc, file, text)?, "{file}");
    }
    Ok(())
}

#[test]
fn choices_stand_in_every_place(rt: HostRuntime) -> Result<(), Fail> {
    let alloc = rt.alloc();
    for (file, text) in [
        ("@A{fun x -> (x, x), succ} 1", "@A{Int * Int, Int}\n"),
        ("@A{fst, snd} (@A{1, true}, @A{\"s\", 2})", "Int\n"),
        (
            "@A{fst, snd} (@B{1, true}, \"s\")",
            "@A{@B{Int, Bool}, String}\n",
        ),
        ("let x = @A{1, true} in @A{x + 1, not x}", "@A{Int, Bool}\n"),
        (
            "fun x -> (@A{x + 1, not x}, x)",
            "@A{Int, Bool} -> @A{Int, Bool} * @A{Int, Bool}\n",
        ),
        ("[@A{1, true}; @A{2, false}]", "[@A{Int, Bool}]\n"),
        (
            "fun a -> fun b -> (@D{a = b, b = a}, (a = 1, b = 1))",
            "Int -> Int -> Bool * (Bool * Bool)\n",
        ),
        (
            "match @A{[1], [true]} with [] -> ? | x :: xs -> x",
            "@A{Int, Bool}\n",
        ),
        (
            "match [1] with [] -> @A{0, \"s\"} | x :: xs -> @A{x, \"t\"}",
            "@A{Int, String}\n",
        ),
        (
            "if @A{true, 1 < 2} then @B{1, \"s\"} else @B{2, \"t\"}",
            "@B{Int, String}\n",
        ),
        ("fun f -> @A{f 1, f true}", "(@A{Int, Bool} -> 'a) -> 'a\n"),
        ("fun x -> fun y -> @A{x, y}", "'a -> 'b -> @A{'a, 'b}\n"),
        (
            "@A{fun x -> fun y -> x, fun x -> x}",
            "'a -> @A{'b -> 'a, 'a}\n",
        ),
        (
            "def f = @A{fun x -> x, succ}; (f 1, @A{f true, f 2})",
            "Int * @A{Bool, Int}\n",
        ),
        (
            "let f = @A{fun x -> x, fun x -> fun y -> x} in f true",
            "@A{Bool, 'a -> Bool}\n",
        ),
        (
            "def id = fun x -> x;\ndef f1 = fun x -> id @D1{succ x, not x};\ndef f2 = fun x -> id @D2{succ x, not x};\n(f1, f2)",
            "(@D1{Int, Bool} -> @D1{Int, Bool}) * (@D2{Int, Bool} -> @D2{Int, Bool})\n",
        ),
        (
            "(@B{1, 2}, @A{@B{1, true}, \"s\"})",
            "Int * @B{@A{Int, String}, @A{Bool, String}}\n",
        ),
    ] {
        assert!(rt; prints(alloc, file, text)?, "{file}");
    }
    Ok(())
}

#[test]
fn errors_stand_at_the_variants_that_have_them(rt: HostRuntime) -> Result<(), Fail> {
    let alloc = rt.alloc();
    for (file, text) in [
        ("[1; @A{2, true}]", "@A{[Int], !}\n"),
        (
            "[@A{1, true}; @B{2, false}]",
            "@A{@B{[Int], !}, @B{!, [Bool]}}\n",
        ),
        (
            "match @A{[1], \"s\"} with [] -> 0 | x :: xs -> x",
            "@A{Int, !}\n",
        ),
        ("if @A{1, true} then 1 else 2", "@A{!, Int}\n"),
        ("1 = @A{2, true}", "@A{Bool, !}\n"),
        (
            "@A{fun x -> x, not} @B{1, true}",
            "@A{@B{Int, Bool}, @B{!, Bool}}\n",
        ),
        (
            "def id = @A{fun x -> x, fun x -> x + 1}; (id 1, id true)",
            "@A{Int * Bool, !}\n",
        ),
        (
            "fun x -> let y = @A{x, fun z -> z} in (y 1, y true)",
            "@A{!, 'a -> Int * Bool}\n",
        ),
        ("def x = @A{1 true, 1}; 2", "@A{!, Int}\n"),
        (
            "let x = @A{1, 1 true} in let y = @B{2 true, 2} in @A{x, y}",
            "@A{@B{!, Int}, !}\n",
        ),
        ("let x = 1 in x true", "!\n"),
        ("fun f -> (f 1, f true)", "!\n"),
        ("fun x -> let y = x in (y 1, y true)", "!\n"),
        ("(1, 1 true)", "!\n"),
        ("1 true", "!\n"),
        (
            "def rec f = fun x -> @A{if true then f 1 else f true, f x}; f",
            "@A{!, 'a -> 'b}\n",
        ),
        (
            "def rec f = fun x -> @A{f (x, x), @B{f x, f 1}}; f",
            "@A{!, @B{'a, Int} -> 'b}\n",
        ),
        ("let rec f = fun x -> @A{f, x} in 1", "@A{!, Int}\n"),
        ("let rec f = fun x -> (f 1, f true) in f", "!\n"),
        ("let rec f = fun x -> f in 1", "!\n"),
    ] {
        assert!(rt; prints_error(alloc, file, text)?, "{file}");
    }
    Ok(())
}

// Functions on so many lines, each of which applies two of those before it.
fn functions(alloc: Global, count: u32, last: &str) -> Result<String, AllocError> {
    let mut file = String::from_str(alloc, "def f0 = fun x -> x;\n")?;
    for n in 1..=count {
        let before = n - 1;
        let half = n / 2;
        writeln!(file, "def f{n} = fun x -> @A{{f{before} x, f{half} x}};")?;
    }
    file.push_str(last)?;
    Ok(file)
}

#[test]
fn two_hundred_definitions_use_one_another(rt: HostRuntime) -> Result<(), Fail> {
    let alloc = rt.alloc();
    let file = functions(alloc, 200, "(f200 1, f199 @A{true, \"s\"})")?;
    assert!(rt; prints(alloc, &file, "Int * @A{Bool, String}\n")?);
    Ok(())
}

// The sum of a number and so many choices, each of which has a number as its first alternative.
fn sum_of_choices(alloc: Global, count: u32) -> Result<String, AllocError> {
    let mut file = String::from_str(alloc, "1")?;
    for n in 1..=count {
        write!(file, " + @D{n}{{1, true}}")?;
    }
    Ok(file)
}

// Its type: only the variant with all first alternatives has one.
fn type_of_sum(alloc: Global, count: u32) -> Result<String, AllocError> {
    let mut text = String::new(alloc);
    for n in 1..=count {
        write!(text, "@D{n}{{")?;
    }
    text.push_str("Int")?;
    for _ in 0..count {
        text.push_str(", !}")?;
    }
    text.push_str("\n")?;
    Ok(text)
}

#[test]
fn one_variant_of_very_many_has_a_type(rt: HostRuntime) -> Result<(), Fail> {
    let alloc = rt.alloc();
    let text = type_of_sum(alloc, 60)?;
    assert!(rt; prints_error(alloc, &sum_of_choices(alloc, 60)?, &text)?);
    Ok(())
}
