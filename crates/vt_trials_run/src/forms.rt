//! The tokens that each form needs, texts that are refused at one token, and both sides of the limits on depth.
use crate::asking::{answer, answers, prints, refuses, refuses_bytes, repeated};
use std::alloc::{AllocError, Global};
use std::test::Fail;
use vt_top::Status;

// No front of the text that ends before one of its blanks is a program, and the text is one. What is read so
// far has a blank at each end, so its length is the column that comes after its last token.
fn needs_each_token(alloc: Global, text: &str) -> Result<bool, AllocError> {
    let mut front = String::from_str(alloc, " ")?;
    for token in text.split(' ') {
        let line = format!(in alloc; "1:{} unexpected end of text\n", front.len())?;
        if !refuses(alloc, front.trim_end(), &line)? {
            return Ok(false);
        }
        front.push_str(token)?;
        front.push_str(" ")?;
    }
    let (status, _) = answer(alloc, &["type", "f"], front.as_bytes())?;
    Ok(status == Status::Done)
}

#[test]
fn each_form_needs_all_its_tokens(rt: HostRuntime) -> Result<(), Fail> {
    let alloc = rt.alloc();
    for text in [
        "@A { 1 , 2 }",
        "( 1 )",
        "( 1 , 2 )",
        "[ ]",
        "[ 1 ; 2 ]",
        "fun x -> x",
        "let x = 1 in x",
        "let rec x = 1 in x",
        "if true then 1 else 2",
        "match [ ] with [ ] -> 1 | x :: xs -> 2",
        "def x = 1 ; x",
        "def rec x = 1 ; x",
    ] {
        assert!(rt; needs_each_token(alloc, text)?, "{text}");
    }
    Ok(())
}

#[test]
fn a_token_that_no_program_has_is_named(rt: HostRuntime) -> Result<(), Fail> {
    let alloc = rt.alloc();
    for (file, line) in [
        ("1 +", "1:4 unexpected end of text\n"),
        ("1 < 2 < 3", "1:7 unexpected <\n"),
        ("1 = 2 < 3", "1:7 unexpected <\n"),
        ("-1", "1:1 unexpected -\n"),
        ("1 2)", "1:4 unexpected )\n"),
        ("()", "1:2 unexpected )\n"),
        ("(1, 2, 3)", "1:6 unexpected ,\n"),
        ("[1, 2]", "1:3 unexpected ,\n"),
        ("[1; ]", "1:5 unexpected ]\n"),
        ("@A{1}", "1:5 unexpected }\n"),
        ("@A{1, 2, 3}", "1:8 unexpected ,\n"),
        ("@A(1, 2)", "1:3 unexpected (\n"),
        ("1 + let x = 2 in x", "1:5 unexpected let\n"),
        ("succ let x = 1 in x", "1:6 unexpected let\n"),
        ("1 :: fun x -> x", "1:6 unexpected fun\n"),
        ("not if true then 1 else 2", "1:5 unexpected if\n"),
        ("1 - match [] with", "1:5 unexpected match\n"),
        ("match [] with | [] -> 1", "1:15 unexpected |\n"),
        ("match [] with [] -> 1 x :: xs -> 2", "1:31 unexpected ->\n"),
        ("match [] with x :: xs -> 1", "1:15 unexpected x\n"),
        ("match [] with [] -> 1 | (x", "1:25 unexpected (\n"),
        ("if true then 1; 2", "1:15 unexpected ;\n"),
        ("fun x y -> x", "1:7 unexpected y\n"),
        ("let f x = x in f", "1:7 unexpected x\n"),
        ("let rec = 1 in 2", "1:9 unexpected =\n"),
        ("x = 1; 2", "1:6 unexpected ;\n"),
        ("def x = 1 x", "1:12 unexpected end of text\n"),
        ("def x = 1\ndef y = 2; 3", "2:1 unexpected def\n"),
        ("def x = 1;; x", "1:11 unexpected ;\n"),
        ("1 def x = 1;", "1:3 unexpected def\n"),
        ("fun let -> 1", "1:5 unexpected let\n"),
        ("rec", "1:1 unexpected rec\n"),
    ] {
        assert!(rt; refuses(alloc, file, line)?, "{file}");
    }
    Ok(())
}

#[test]
fn bytes_that_are_no_text_are_refused(rt: HostRuntime) -> Result<(), Fail> {
    let alloc = rt.alloc();
    for (file, line) in [
        (b"\xff\xfe1\0".as_slice(), "not UTF-8 at byte 0\n"),
        (b"\"\xe9\"".as_slice(), "not UTF-8 at byte 1\n"),
        (b"1 \xc3".as_slice(), "not UTF-8 at byte 2\n"),
        (b"# \xf0\x9f\x98".as_slice(), "not UTF-8 at byte 2\n"),
        (b"\xc0\x80".as_slice(), "not UTF-8 at byte 0\n"),
        (b"\xed\xa0\x80".as_slice(), "not UTF-8 at byte 0\n"),
        (
            b"\xc3\xa9\xf4\x90\x80\x80".as_slice(),
            "not UTF-8 at byte 2\n",
        ),
    ] {
        assert!(rt; refuses_bytes(alloc, file, line)?, "{line}");
    }
    Ok(())
}

// So many of the part are a front of a program, up to the column of the end; one more is refused at the other column.
fn nests(alloc: Global, part: &str, most: u32, end: u32, deep: u32) -> Result<bool, AllocError> {
    let front = repeated(alloc, "", part, most, "")?;
    let more = repeated(alloc, part, part, most, "")?;
    let end = format!(in alloc; "1:{end} unexpected end of text\n")?;
    let deep = format!(in alloc; "1:{deep} nested too deep\n")?;
    Ok(refuses(alloc, &front, &end)? && refuses(alloc, &more, &deep)?)
}

#[test]
fn each_form_is_one_deeper_than_its_parts(rt: HostRuntime) -> Result<(), Fail> {
    let alloc = rt.alloc();
    for (part, most, end, deep) in [
        ("(", 255, 256, 256),
        ("(1,", 255, 766, 766),
        ("@A{", 255, 766, 766),
        ("@A{1,", 255, 1276, 1276),
        ("fun x->", 255, 1786, 1786),
        ("let x=", 255, 1531, 1531),
        ("let x=1 in ", 255, 2806, 2806),
        ("let rec x=", 255, 2551, 2551),
        ("if ", 255, 766, 766),
        ("if 1 then ", 255, 2551, 2551),
        ("if 1 then 1 else ", 255, 4336, 4336),
        ("match ", 255, 1531, 1531),
        ("match 1 with []->", 255, 4336, 4336),
        ("match 1 with []->1|x::y->", 255, 6376, 6376),
        ("[", 256, 257, 257),
        ("[1;", 127, 382, 384),
    ] {
        assert!(rt; nests(alloc, part, most, end, deep)?, "{part}");
    }
    Ok(())
}

// A chain of 256 operands has the type, and one of 257 is refused at the column.
fn chains(
    alloc: Global,
    operand: &str,
    more: &str,
    text: &str,
    deep: u32,
) -> Result<bool, AllocError> {
    let most = repeated(alloc, operand, more, 255, "")?;
    let over = repeated(alloc, operand, more, 256, "")?;
    let line = format!(in alloc; "1:{deep} nested too deep\n")?;
    Ok(prints(alloc, &most, text)? && refuses(alloc, &over, &line)?)
}

#[test]
fn chains_of_each_operator_have_one_limit(rt: HostRuntime) -> Result<(), Fail> {
    let alloc = rt.alloc();
    for (operand, more, text, deep) in [
        ("1", "-1", "Int\n", 512),
        ("1", "*1", "Int\n", 512),
        ("\"\"", "^\"\"", "String\n", 768),
        ("[]", "::[]", "[['a]]\n", 1023),
        ("true", " or true", "Bool\n", 2046),
        ("true", " and true", "Bool\n", 2301),
        ("?", " ?", "'a\n", 513),
    ] {
        assert!(rt; chains(alloc, operand, more, text, deep)?, "{more}");
    }
    Ok(())
}

#[test]
fn files_of_260000_bytes_are_answered(rt: HostRuntime) -> Result<(), Fail> {
    let alloc = rt.alloc();
    for (first, more, count, last, status, text) in [
        (
            "1",
            "+1",
            130000,
            "",
            Status::Refused,
            "1:512 nested too deep\n",
        ),
        (
            "",
            "(",
            260000,
            "",
            Status::Refused,
            "1:256 nested too deep\n",
        ),
        (
            "",
            "fun x->",
            37142,
            "x",
            Status::Refused,
            "1:1786 nested too deep\n",
        ),
        ("\"", "a", 260000, "\"", Status::Done, "String\n"),
        ("fun ", "x", 260000, " -> 1", Status::Done, "'a -> Int\n"),
        ("", "0", 260000, "1", Status::Done, "Int\n"),
        ("", "# a\r\n", 52000, "1", Status::Done, "Int\n"),
    ] {
        let file = repeated(alloc, first, more, count, last)?;
        let (file, text) = (file.as_bytes(), text.as_bytes());
        assert!(rt;
            answers(alloc, &["type", "f"], file, status, text)?,
            "{more}"
        );
    }
    Ok(())
}
