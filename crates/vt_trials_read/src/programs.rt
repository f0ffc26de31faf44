ghost use Rattle.vt_lex.specs.Spans.{AreSpansIn, BeginWithAt};

use std::alloc::{AllocError, Global};
use std::process::Abort;
use std::test::Fail;
use vt_lex::{Token, lex};
use vt_parse::{ParseFault, parse};

// What is answered of the text: its name, and the place of a token in the list of tokens.
fn answer(rt: &impl Abort, alloc: Global, text: &str) -> Result<(&'static str, usize), Fail> {
    assert!(rt; text.len() <= 262144);
    let tokens = lex(alloc, text)?;
    Ok(parsed(alloc, text, &tokens))
}

fn parsed(alloc: Global, text: &str, tokens: &[Token]) -> (&'static str, usize)
    requires spans { AreSpansIn text.now tokens.now }
    requires dimensions { BeginWithAt text.now tokens.now }
{
    match parse(alloc, text, tokens) {
        Ok(program) => {
            drop(program);
            ("read", tokens.len())
        }
        Err(ParseFault::Unexpected { token }) => ("unexpected", token),
        Err(ParseFault::TooDeep { token }) => ("too deep", token),
        Err(ParseFault::Memory) => ("memory", 0),
    }
}

// A text that goes on with the same part.
fn repeated(
    alloc: Global,
    first: &str,
    part: &str,
    count: usize,
    last: &str,
) -> Result<String, AllocError> {
    let mut text = String::from_str(alloc, first)?;
    for _ in 0..count {
        text.push_str(part)?;
    }
    text.push_str(last)?;
    Ok(text)
}

#[test]
fn the_first_token_that_none_has_is_answered(rt: HostRuntime) -> Result<(), Fail> {
    for (text, wanted) in [
        ("", ("unexpected", 0)),
        ("@A{1,", ("unexpected", 4)),
        ("1 = 2 = 3", ("unexpected", 3)),
        ("1 + fun x -> x", ("unexpected", 2)),
        ("f (x, -)", ("unexpected", 4)),
        ("def f = 1 f", ("unexpected", 5)),
        (
            "def rec f = fun x -> @A{f x, [x; 1]}; f 1 :: []",
            ("read", 24),
        ),
        ("if true then (1, 2) else ?", ("read", 10)),
        (
            "let y = \"s\" in match y with [] -> 1 | h :: t -> h ^ t",
            ("read", 20),
        ),
    ] {
        assert_eq!(rt; answer(&rt, rt.alloc(), text)?, wanted, "{text}");
    }
    Ok(())
}

#[test]
fn the_limit_of_depth_is_kept(rt: HostRuntime) -> Result<(), Fail> {
    let alloc = rt.alloc();
    for (first, part, count, last, wanted) in [
        ("", "(", 255, "", ("unexpected", 255)),
        ("", "(", 256, "", ("too deep", 255)),
        ("[", "1;", 254, "1]", ("read", 511)),
        ("[", "1;", 255, "1]", ("too deep", 510)),
        ("1", "+1", 255, "", ("read", 511)),
        ("1", "+1", 256, "", ("too deep", 511)),
    ] {
        let text = repeated(alloc, first, part, count, last)?;
        assert_eq!(rt; answer(&rt, alloc, &text)?, wanted, "{first}{part}{count}");
    }
    Ok(())
}

#[test]
fn a_long_text_is_read(rt: HostRuntime) -> Result<(), Fail> {
    let alloc = rt.alloc();
    let text = repeated(alloc, "", "def x=1;", 32767, "x")?;
    assert_eq!(rt; answer(&rt, alloc, &text)?, ("read", 163836));
    Ok(())
}
