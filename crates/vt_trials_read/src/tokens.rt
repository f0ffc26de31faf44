use std::alloc::{AllocError, Global};
use std::process::Abort;
use std::test::Fail;
use vt_lex::{Key, LexFault, Sign, Span, Token, TokenKind, Word, dim_at, lex, line_col, word_at};

const LONGEST: usize = 262144;

fn tokens(rt: &impl Abort, alloc: Global, text: &str) -> Result<Vec<Token>, LexFault> {
    assert!(rt; text.len() <= LONGEST);
    lex(alloc, text)
}

// One token of this kind, over so many bytes from the first on.
fn is_one(tokens: &[Token], kind: TokenKind, length: usize) -> bool {
    match tokens {
        [token] => {
            token.kind == kind && token.span.start == 0 && token.span.end as usize == length
        }
        _ => false,
    }
}

#[test]
fn each_kind_is_read(rt: HostRuntime) -> Result<(), Fail> {
    for (text, kind) in [
        ("0", TokenKind::Number(0)),
        ("0012", TokenKind::Number(12)),
        (
            "9223372036854775807",
            TokenKind::Number(9223372036854775807),
        ),
        (
            "0009223372036854775807",
            TokenKind::Number(9223372036854775807),
        ),
        ("\"\"", TokenKind::Quoted),
        ("\"a\\\"b\\\\\"", TokenKind::Quoted),
        ("x", TokenKind::Name),
        ("_", TokenKind::Name),
        ("été9_", TokenKind::Name),
        ("lets", TokenKind::Name),
        ("not", TokenKind::Name),
        ("@A", TokenKind::Dim),
        ("@été", TokenKind::Dim),
        ("@let", TokenKind::Dim),
        ("@_1", TokenKind::Dim),
        ("def", TokenKind::Key(Key::DefKey)),
        ("rec", TokenKind::Key(Key::RecKey)),
        ("let", TokenKind::Key(Key::LetKey)),
        ("in", TokenKind::Key(Key::InKey)),
        ("fun", TokenKind::Key(Key::FunKey)),
        ("if", TokenKind::Key(Key::IfKey)),
        ("then", TokenKind::Key(Key::ThenKey)),
        ("else", TokenKind::Key(Key::ElseKey)),
        ("match", TokenKind::Key(Key::MatchKey)),
        ("with", TokenKind::Key(Key::WithKey)),
        ("true", TokenKind::Key(Key::TrueKey)),
        ("false", TokenKind::Key(Key::FalseKey)),
        ("and", TokenKind::Key(Key::AndKey)),
        ("or", TokenKind::Key(Key::OrKey)),
        ("->", TokenKind::Sign(Sign::Arrow)),
        ("::", TokenKind::Sign(Sign::Colons)),
        ("(", TokenKind::Sign(Sign::ParenOpen)),
        (")", TokenKind::Sign(Sign::ParenClose)),
        ("[", TokenKind::Sign(Sign::SquareOpen)),
        ("]", TokenKind::Sign(Sign::SquareClose)),
        ("{", TokenKind::Sign(Sign::BraceOpen)),
        ("}", TokenKind::Sign(Sign::BraceClose)),
        (",", TokenKind::Sign(Sign::Comma)),
        (";", TokenKind::Sign(Sign::Semicolon)),
        ("|", TokenKind::Sign(Sign::Bar)),
        ("=", TokenKind::Sign(Sign::Equals)),
        ("<", TokenKind::Sign(Sign::Less)),
        ("+", TokenKind::Sign(Sign::Plus)),
        ("-", TokenKind::Sign(Sign::Minus)),
        ("*", TokenKind::Sign(Sign::Star)),
        ("^", TokenKind::Sign(Sign::Caret)),
        ("?", TokenKind::Sign(Sign::Question)),
    ] {
        assert!(rt;
            is_one(&tokens(&rt, rt.alloc(), text)?, kind, text.len()),
            "{text}"
        );
    }
    Ok(())
}

// The starts and ends of the tokens of the text.
fn spans(rt: &impl Abort, alloc: Global, text: &str) -> Result<Vec<(u32, u32)>, Fail> {
    let tokens = tokens(rt, alloc, text)?;
    let spans = tokens
        .iter()
        .map(|token| (token.span.start, token.span.end));
    Ok(spans.collect(alloc)?)
}

#[test]
fn spans_are_in_bytes(rt: HostRuntime) -> Result<(), Fail> {
    for (text, wanted) in [
        ("", [].as_slice()),
        (" \t\r\n", [].as_slice()),
        ("# to the end", [].as_slice()),
        ("# one\n# two\n", [].as_slice()),
        ("a # c\r\n b", [(0, 1), (8, 9)].as_slice()),
        ("été#é\né", [(0, 5), (9, 11)].as_slice()),
        ("1->-2", [(0, 1), (1, 3), (3, 4), (4, 5)].as_slice()),
        ("x::y", [(0, 1), (1, 3), (3, 4)].as_slice()),
        ("12ab", [(0, 2), (2, 4)].as_slice()),
        ("a\"b\\\"#c\"d", [(0, 1), (1, 8), (8, 9)].as_slice()),
        (
            "@A{1,b}",
            [(0, 2), (2, 3), (3, 4), (4, 5), (5, 6), (6, 7)].as_slice(),
        ),
    ] {
        let spans = spans(&rt, rt.alloc(), text)?;
        assert_eq!(rt; spans.as_slice(), wanted, "{text}");
    }
    Ok(())
}

// The fault's name with the bytes that it names.
fn fault(read: Result<Vec<Token>, LexFault>) -> Option<(&'static str, u32, u32)> {
    match read {
        Ok(_) => None,
        Err(LexFault::BadCharacter { at }) => Some(("bad", at, at)),
        Err(LexFault::OpenString { at }) => Some(("open", at, at)),
        Err(LexFault::BigNumber { span }) => Some(("big", span.start, span.end)),
        Err(LexFault::Memory) => Some(("memory", 0, 0)),
    }
}

#[test]
fn the_first_miss_is_answered(rt: HostRuntime) {
    for (text, wanted) in [
        ("1 & 2", ("bad", 2, 2)),
        (":", ("bad", 0, 0)),
        (":::", ("bad", 2, 2)),
        ("@", ("bad", 0, 0)),
        ("@1", ("bad", 0, 0)),
        ("@ A", ("bad", 0, 0)),
        (">", ("bad", 0, 0)),
        ("é \u{c}", ("bad", 3, 3)),
        ("1\u{a0}2", ("bad", 1, 1)),
        ("\u{feff}1", ("bad", 0, 0)),
        ("\"ab", ("open", 0, 0)),
        ("\"a\\\n\"", ("open", 0, 0)),
        ("é \"a\\", ("open", 3, 3)),
        ("9223372036854775808", ("big", 0, 19)),
        (" 0018446744073709551616x", ("big", 1, 23)),
        ("& \"a", ("bad", 0, 0)),
    ] {
        let read = tokens(&rt, rt.alloc(), text);
        assert_eq!(rt; fault(read), Some(wanted), "{text}");
    }
}

#[test]
fn the_longest_text_is_read(rt: HostRuntime) -> Result<(), Fail> {
    let alloc = rt.alloc();
    let mut text = String::new(alloc);
    for _ in 0..LONGEST / 4 {
        text.push_str("a b ")?;
    }
    assert_eq!(rt; text.len(), LONGEST);
    assert_eq!(rt; tokens(&rt, alloc, &text)?.len(), LONGEST / 2);
    Ok(())
}

#[test]
fn places_are_counted_in_characters(rt: HostRuntime) {
    for (text, at, line, column) in [
        ("", 0, 1, 1),
        ("ab", 0, 1, 1),
        ("ab", 1, 1, 2),
        ("ab", 2, 1, 3),
        ("a\nb", 1, 1, 2),
        ("a\nb", 2, 2, 1),
        ("a\r\nbc", 2, 1, 3),
        ("a\r\nbc", 5, 2, 3),
        ("\n\n", 2, 3, 1),
        ("€x\né", 3, 1, 2),
        ("€x\né", 7, 2, 2),
    ] {
        assert!(rt; text.is_char_boundary(at as usize) && at < u32::MAX);
        let place = line_col(text, at);
        assert_eq!(rt; (place.line, place.column), (line, column), "{text} {at}");
    }
}

#[test]
fn words_keep_their_text(rt: HostRuntime) -> Result<(), Fail> {
    let alloc = rt.alloc();
    let word = Word::new(String::from_str(alloc, "été")?);
    assert_eq!(rt; word.as_str(), "été");
    assert_eq!(rt; word.copied(alloc)?.as_str(), "été");
    Ok(())
}

// The text of these bytes.
fn word_of(
    rt: &impl Abort,
    alloc: Global,
    text: &str,
    start: u32,
    end: u32,
) -> Result<Word, AllocError> {
    assert!(rt; start <= end && end as usize <= text.len());
    assert!(rt; text.is_char_boundary(start as usize));
    assert!(rt; text.is_char_boundary(end as usize));
    word_at(alloc, text, Span { start, end })
}

#[test]
fn words_are_the_texts_of_spans(rt: HostRuntime) -> Result<(), Fail> {
    let alloc = rt.alloc();
    for (text, start, end, word) in [
        ("let x = 1", 4, 5, "x"),
        ("let x = 1", 0, 9, "let x = 1"),
        ("x", 0, 0, ""),
        ("x", 1, 1, ""),
        ("f été", 2, 7, "été"),
        ("f été", 4, 5, "t"),
        ("@A{1, 2}", 0, 2, "@A"),
    ] {
        let found = word_of(&rt, alloc, text, start, end)?;
        assert!(rt; found.as_str() == word, "{text} {start}");
    }
    Ok(())
}

// The name of the dimension of these bytes.
fn dim_of(
    rt: &impl Abort,
    alloc: Global,
    text: &str,
    start: u32,
    end: u32,
) -> Result<Word, AllocError> {
    assert!(rt; start < end && end as usize <= text.len());
    assert!(rt; text.is_char_boundary(start as usize));
    assert!(rt; text.is_char_boundary(end as usize));
    assert!(rt; text.as_bytes()[start as usize] == b'@');
    dim_at(alloc, text, Span { start, end })
}

#[test]
fn names_of_dimensions_stand_behind_their_at_signs(rt: HostRuntime) -> Result<(), Fail> {
    let alloc = rt.alloc();
    for (text, start, end, name) in [
        ("@A{1, 2}", 0, 2, "A"),
        ("x @été{1, 2}", 2, 8, "été"),
        ("@if{1, 2}", 0, 3, "if"),
        ("@A @B1", 3, 6, "B1"),
        ("1 @", 2, 3, ""),
    ] {
        let found = dim_of(&rt, alloc, text, start, end)?;
        assert!(rt; found.as_str() == name, "{text} {start}");
    }
    Ok(())
}
