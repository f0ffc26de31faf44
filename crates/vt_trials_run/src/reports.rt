//! The reports of ill-typed programs: the changes that cure them, and the text that tells these.
ghost use Rattle.std.specs.Prelude.{◌≡◌, IsTrue, []};

use std::alloc::{AllocError, Global};
use std::test::Fail;
use vt_change::changes;
use vt_file::{LARGEST_FILE, read};
use vt_report::change_lines;
use vt_type::Names;

// What is told of a file that is read and has no dimension.
fn report(alloc: Global, file: &str) -> Result<Option<String>, AllocError> {
    if file.len() > LARGEST_FILE {
        return Ok(None);
    }
    let Ok(source) = read(alloc, file.as_bytes()) else {
        return Ok(None);
    };
    if !is_empty(&source.resolved.tables.dims) {
        drop(source);
        return Ok(None);
    }
    let lines = changes(
        alloc,
        &source.resolved.core,
        &source.constants,
        &source.resolved.leaves,
    );
    let Ok(lines) = lines else {
        drop(source);
        return Ok(None);
    };
    let leaves = &source.resolved.leaves;
    let said = change_lines(alloc, &lines, leaves, source.text, &source.resolved.tables);
    drop(lines);
    drop(source);
    Ok(Some(said?))
}

fn is_empty(names: &Names) -> bool
    ensures { IsTrue result → names.now ≡ [] }
{
    match names.name(0) {
        None => true,
        Some(_) => false,
    }
}

// The report of the file is this text.
fn is_told(alloc: Global, file: &str, text: &str) -> Result<bool, AllocError> {
    let said = report(alloc, file)?;
    Ok(said.is_some_and(|said| said.as_str() == text))
}

#[test]
fn one_literal_or_the_operator(rt: HostRuntime) -> Result<(), Fail> {
    let text =
        "ill typed; 2 changes\n1:5 true wants Int, result Int\n1:3 + wants Int -> Bool -> 'a, result 'a\n";
    assert!(rt; is_told(rt.alloc(), "1 + true", text)?);
    Ok(())
}

#[test]
fn the_leaf_of_a_binding_has_the_type_of_its_place(rt: HostRuntime) -> Result<(), Fail> {
    let text =
        "ill typed; 3 changes\n1:9 true wants 'a, result Int\n1:15 x wants Int, result Int\n1:17 + wants Bool -> Int -> 'a, result 'a\n";
    assert!(rt; is_told(rt.alloc(), "def x = true; x + 1", text)?);
    Ok(())
}

#[test]
fn two_faults_have_no_change(rt: HostRuntime) -> Result<(), Fail> {
    assert!(rt; is_told(rt.alloc(), "(1 + true, not 2)", "ill typed; 0 changes\n")?);
    Ok(())
}

#[test]
fn a_wrong_item_of_a_list_is_found(rt: HostRuntime) -> Result<(), Fail> {
    let file =
        "def rec sum = fun l ->\n  match l with [] -> 0 | x :: xs -> x + sum xs;\nsum [1; 2; \"3\"]";
    assert!(rt;
        is_told(
            rt.alloc(),
            file,
            "ill typed; 1 change\n3:12 \"3\" wants Int, result Int\n"
        )?
    );
    Ok(())
}

#[test]
fn a_parameter_may_be_the_word_to_change(rt: HostRuntime) -> Result<(), Fail> {
    let text =
        "ill typed; 4 changes\n1:11 x wants Int, result Bool -> Int * Bool\n1:22 x wants Bool, result Int -> Int * Bool\n1:18 not wants Int -> 'a, result Int -> Int * 'a\n1:13 + wants Bool -> Int -> 'a, result Bool -> 'a * Bool\n";
    assert!(rt; is_told(rt.alloc(), "fun x -> (x + 1, not x)", text)?);
    Ok(())
}

#[test]
fn letters_are_shared_over_a_line(rt: HostRuntime) -> Result<(), Fail> {
    let text = "ill typed; 1 change\n1:14 1 wants Bool -> 'a, result 'b -> 'b * 'a\n";
    assert!(rt; is_told(rt.alloc(), "fun y -> (y, 1 true)", text)?);
    Ok(())
}

// A file that has a name for each of so many numbers, and then an application that fails.
fn many(alloc: Global, count: usize) -> Result<String, AllocError> {
    let mut file = String::new(alloc);
    for _line in 0..count {
        file.push_str("def y = 1;\n")?;
    }
    file.push_str("1 true")?;
    Ok(file)
}

#[test]
fn as_many_leaves_as_there_may_be_are_looked_at(rt: HostRuntime) -> Result<(), Fail> {
    let file = many(rt.alloc(), 2046)?;
    let said = is_told(
        rt.alloc(),
        file.as_str(),
        "ill typed; 1 change\n2047:1 1 wants Bool -> 'a, result 'a\n",
    );
    drop(file);
    assert!(rt; said?);
    Ok(())
}
