use std::alloc::{AllocError, Global};
use std::test::Fail;
use vt_lex::{LineCol, Word};
use vt_report::{Refusal, refusal_line};

fn says(alloc: Global, refusal: &Refusal, line: &str) -> Result<bool, AllocError> {
    Ok(refusal_line(alloc, refusal)?.as_str() == line)
}

#[test]
fn lines_name_places_and_words(rt: HostRuntime) -> Result<(), Fail> {
    let alloc = rt.alloc();
    let at = LineCol {
        line: 1,
        column: 10,
    };
    let name = Word::new(String::from_str(alloc, "q")?);
    let unbound = says(
        alloc,
        &Refusal::Unbound { at, name },
        "1:10 unbound name q\n",
    )?;
    let not_text = says(alloc, &Refusal::NotText { at: 0 }, "not UTF-8 at byte 0\n")?;
    assert!(rt; unbound && not_text);
    Ok(())
}
