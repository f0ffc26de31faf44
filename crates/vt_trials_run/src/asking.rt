//! What the program answers of one file named `f`, and long files.
use std::alloc::{AllocError, Global};
use vt_io::{MemFiles, MemSink};
use vt_top::{Status, run};

/// The text and the status of the words over a file named `f`.
pub fn answer(alloc: Global, words: &[&str], file: &[u8]) -> Result<(Status, MemSink), AllocError> {
    let mut files = MemFiles::new(alloc);
    files.add("f", file)?;
    let mut sink = MemSink::with_room(alloc, 100000)?;
    let words = owned(alloc, words)?;
    let status = run(alloc, &words, &mut files, &mut sink);
    Ok((status, sink))
}

pub fn owned(alloc: Global, words: &[&str]) -> Result<Vec<String>, AllocError> {
    words
        .iter()
        .map(|word| String::from_str(alloc, word))
        .try_collect(alloc)
}

/// This is answered of the words.
pub fn answers(
    alloc: Global,
    words: &[&str],
    file: &[u8],
    status: Status,
    text: &[u8],
) -> Result<bool, AllocError> {
    let (got, sink) = answer(alloc, words, file)?;
    Ok(got == status && sink.bytes() == text)
}

/// The type of the file is printed so.
pub fn prints(alloc: Global, file: &str, text: &str) -> Result<bool, AllocError> {
    let words = ["type", "f"];
    answers(
        alloc,
        &words,
        file.as_bytes(),
        Status::Done,
        text.as_bytes(),
    )
}

/// The type of the file is printed so, with the error in it.
pub fn prints_error(alloc: Global, file: &str, text: &str) -> Result<bool, AllocError> {
    let words = ["type", "f"];
    answers(
        alloc,
        &words,
        file.as_bytes(),
        Status::Untyped,
        text.as_bytes(),
    )
}

/// The file is refused by this line.
pub fn refuses(alloc: Global, file: &str, line: &str) -> Result<bool, AllocError> {
    refuses_bytes(alloc, file.as_bytes(), line)
}

pub fn refuses_bytes(alloc: Global, file: &[u8], line: &str) -> Result<bool, AllocError> {
    answers(
        alloc,
        &["type", "f"],
        file,
        Status::Refused,
        line.as_bytes(),
    )
}

/// One text, then another so many times, and a last one.
pub fn repeated(
    alloc: Global,
    first: &str,
    more: &str,
    count: u32,
    last: &str,
) -> Result<String, AllocError> {
    let mut text = String::from_str(alloc, first)?;
    for _ in 0..count {
        text.push_str(more)?;
    }
    text.push_str(last)?;
    Ok(text)
}

/// The text of the type of a pair of pairs, and so on, so many times.
pub fn doubled_type(alloc: Global, count: u32) -> Result<String, AllocError> {
    let mut text = String::from_str(alloc, "Int * Int")?;
    for _ in 1..count {
        text = format!(in alloc; "({text}) * ({text})")?;
    }
    text.push_str("\n")?;
    Ok(text)
}
