use crate::asking::{answers, doubled_type, owned, prints, prints_error, refuses, refuses_bytes};
use std::alloc::{AllocError, Global};
use std::test::Fail;
use vt_io::{MemFiles, MemSink};
use vt_top::{Status, run};

const LONGEST: usize = 262144;

#[test]
fn types_are_printed(rt: HostRuntime) -> Result<(), Fail> {
    let alloc = rt.alloc();
    for (file, text) in [
        ("1", "Int\n"),
        (" true\r\n", "Bool\n"),
        ("(false)", "Bool\n"),
        ("9223372036854775807", "Int\n"),
        ("@A{1, true}", "@A{Int, Bool}\n"),
        ("@A{1, 2}", "Int\n"),
        ("\t@_x9 { 0012 , false } ", "@_x9{Int, Bool}\n"),
        ("@let{true, 1}", "@let{Bool, Int}\n"),
        ("@\u{c9}t\u{e9}{1, true}", "@\u{c9}t\u{e9}{Int, Bool}\n"),
        ("# a comment\r\n1 # and one more", "Int\n"),
        ("(1, (true, 2))", "Int * (Bool * Int)\n"),
        ("def x = 1;\r\nx\r\n", "Int\n"),
        ("def x = 1;\rx", "Int\n"),
        ("def x=1;x", "Int\n"),
        ("1#", "Int\n"),
        ("# \u{1f600}\n1 # \u{e9}", "Int\n"),
        ("00000000000000000000009223372036854775807", "Int\n"),
        ("\"\u{1f600}\u{e9}# \"", "String\n"),
        ("\"\\\\\"", "String\n"),
        ("fun \u{6771}\u{4eac} -> \u{6771}\u{4eac}", "'a -> 'a\n"),
        ("fun x\u{301} -> x\u{301}", "'a -> 'a\n"),
        ("fun \u{1d4b3} -> \u{1d4b3}", "'a -> 'a\n"),
        ("fun _ -> _", "'a -> 'a\n"),
        ("fun lets -> lets", "'a -> 'a\n"),
        ("fun fst -> fst", "'a -> 'a\n"),
        ("@\u{6771}{1, true}", "@\u{6771}{Int, Bool}\n"),
        ("(let x = 1 in x) + 1", "Int\n"),
        ("[let x = 1 in x; fst (1, 2)]", "[Int]\n"),
    ] {
        assert!(rt; prints(alloc, file, text)?, "{file}");
    }
    Ok(())
}

#[test]
fn choices_are_joined_and_stand_deep(rt: HostRuntime) -> Result<(), Fail> {
    let alloc = rt.alloc();
    for (file, text) in [
        (
            "(@A{1, true}, @A{1, true})",
            "@A{Int, Bool} * @A{Int, Bool}\n",
        ),
        ("@B{@A{1, true}, @A{2, true}}", "@A{Int, Bool}\n"),
        ("@A{@A{1, true}, (1, true)}", "@A{Int, Int * Bool}\n"),
        ("@A{@A{1, (1, 2)}, true}", "@A{Int, Bool}\n"),
    ] {
        assert!(rt; prints(alloc, file, text)?, "{file}");
    }
    Ok(())
}

#[test]
fn files_that_are_no_program_are_refused(rt: HostRuntime) -> Result<(), Fail> {
    let alloc = rt.alloc();
    for (file, line) in [
        ("", "1:1 unexpected end of text\n"),
        (" \n", "2:1 unexpected end of text\n"),
        ("# only", "1:7 unexpected end of text\n"),
        ("@A{1,", "1:6 unexpected end of text\n"),
        ("1 = 2 = 3", "1:7 unexpected =\n"),
        ("\u{e9} )", "1:3 unexpected )\n"),
        ("1 & 2", "1:3 bad character\n"),
        ("\u{feff}1", "1:1 bad character\n"),
        ("9223372036854775808", "1:1 number too large\n"),
        ("\"ab", "1:1 string not closed\n"),
        ("\r\n", "2:1 unexpected end of text\n"),
        ("1\r\n)", "2:1 unexpected )\n"),
        ("1\r)", "1:3 unexpected )\n"),
        ("\t\t)", "1:3 unexpected )\n"),
        ("\"\u{1f600}\" )", "1:5 unexpected )\n"),
        ("# \u{e9}\n)", "2:1 unexpected )\n"),
        ("1x", "1:2 unbound name x\n"),
        ("letx", "1:1 unbound name letx\n"),
        ("1 \u{feff}", "1:3 bad character\n"),
        ("1\u{a0}+ 2", "1:2 bad character\n"),
        ("1\u{2028}", "1:2 bad character\n"),
        ("1\0", "1:2 bad character\n"),
        ("1\u{c}", "1:2 bad character\n"),
        ("1 \u{2212} 2", "1:3 bad character\n"),
        ("\u{201c}a\u{201d}", "1:1 bad character\n"),
        ("1 : []", "1:3 bad character\n"),
        ("@ A{1, 2}", "1:1 bad character\n"),
        ("@1{1, 2}", "1:1 bad character\n"),
        ("'a", "1:1 bad character\n"),
        ("\"a\nb\"", "1:1 string not closed\n"),
        ("\"a\\\n\"", "1:1 string not closed\n"),
        ("\"a\\\"", "1:1 string not closed\n"),
        ("1\n \"", "2:2 string not closed\n"),
        ("1 18446744073709551616", "1:3 number too large\n"),
        ("(\n009223372036854775808", "2:1 number too large\n"),
    ] {
        assert!(rt; refuses(alloc, file, line)?, "{file}");
    }
    assert!(rt; refuses_bytes(alloc, b"\x31\xff", "not UTF-8 at byte 1\n")?);
    Ok(())
}

#[test]
fn files_out_of_scope_are_refused(rt: HostRuntime) -> Result<(), Fail> {
    let alloc = rt.alloc();
    for (file, line) in [
        ("@A{@A{1, q}, 2}", "1:10 unbound name q\n"),
        ("(\u{e9},\n q)", "1:2 unbound name \u{e9}\n"),
        ("def x = x; 1", "1:9 unbound name x\n"),
    ] {
        assert!(rt; refuses(alloc, file, line)?, "{file}");
    }
    Ok(())
}

// What stands earlier in the order of reading is refused first.
#[test]
fn refusals_come_in_order(rt: HostRuntime) -> Result<(), Fail> {
    let alloc = rt.alloc();
    for (file, line) in [
        ("q & )", "1:3 bad character\n"),
        ("(q", "1:3 unexpected end of text\n"),
        ("succ q", "1:6 unbound name q\n"),
    ] {
        assert!(rt; refuses(alloc, file, line)?, "{file}");
    }
    assert!(rt; refuses_bytes(alloc, b"& \xff", "not UTF-8 at byte 2\n")?);
    Ok(())
}

#[test]
fn every_form_is_typed(rt: HostRuntime) -> Result<(), Fail> {
    let alloc = rt.alloc();
    for (file, text) in [
        ("succ 1", "Int\n"),
        ("@A{succ, not} @A{1, true}", "@A{Int, Bool}\n"),
        ("fun x -> @A{x, 1}", "'a -> @A{'a, Int}\n"),
        ("@A{@A{1, true}, \"s\"}", "@A{Int, String}\n"),
        ("@A{@A{1, 1 true}, 2}", "Int\n"),
        ("@A{fun x -> 1, fun x -> true}", "'a -> @A{Int, Bool}\n"),
        ("let rec f = fun x -> x in (f 1, f true)", "Int * Bool\n"),
        ("def x = ?; [x; 1]", "[Int]\n"),
    ] {
        assert!(rt; prints(alloc, file, text)?, "{file}");
    }
    Ok(())
}

#[test]
fn variants_without_a_type_are_errors(rt: HostRuntime) -> Result<(), Fail> {
    let alloc = rt.alloc();
    for (file, text) in [
        ("@A{succ, not} @B{1, true}", "@A{@B{Int, !}, @B{!, Bool}}\n"),
        (
            "fun y -> let f = fun z -> @A{if true then y else z, z} in (f 1, f true)",
            "@A{!, 'a -> Int * Bool}\n",
        ),
        ("fun x -> @A{x x, x}", "@A{!, 'a -> 'a}\n"),
        ("let x = 1 true in 2", "!\n"),
    ] {
        assert!(rt; prints_error(alloc, file, text)?, "{file}");
    }
    Ok(())
}

// Definitions, each the pair of the one before twice, and the first one.
fn pairs(alloc: Global, count: u32) -> Result<String, AllocError> {
    let mut file = String::from_str(alloc, "def x0 = 1;\n")?;
    for n in 1..=count {
        let before = n - 1;
        writeln!(file, "def x{n} = (x{before}, x{before});")?;
    }
    file.push_str("x0")?;
    Ok(file)
}

#[test]
fn the_first_part_that_is_too_big_is_named(rt: HostRuntime) -> Result<(), Fail> {
    let alloc = rt.alloc();
    let line = "type of x12 has more than 4096 nodes\n";
    assert!(rt; refuses(alloc, &pairs(alloc, 12)?, line)?);
    assert!(rt; prints(alloc, &pairs(alloc, 11)?, "Int\n")?);
    Ok(())
}

// No type after the first that is too big is ever written out.
#[test]
fn types_that_double_forty_times_are_answered(rt: HostRuntime) -> Result<(), Fail> {
    let alloc = rt.alloc();
    let line = "type of x12 has more than 4096 nodes\n";
    assert!(rt; refuses(alloc, &pairs(alloc, 40)?, line)?);
    Ok(())
}

// So many opening parentheses.
fn open(alloc: Global, count: usize) -> Result<Vec<u8>, AllocError> {
    vec![in alloc; b'('; count]
}

#[test]
fn the_limit_on_the_depth_is_exact(rt: HostRuntime) -> Result<(), Fail> {
    let alloc = rt.alloc();
    assert!(rt; refuses_bytes(alloc, &open(alloc, 256)?, "1:256 nested too deep\n")?);
    assert!(rt; refuses_bytes(alloc, &open(alloc, 255)?, "1:256 unexpected end of text\n")?);
    Ok(())
}

// A definition with a dimension of its own on each of so many lines, and a number.
fn dimensions(alloc: Global, count: u32) -> Result<String, AllocError> {
    let mut file = String::new(alloc);
    for n in 1..=count {
        writeln!(file, "def y = @D{n}{{1, 2}};")?;
    }
    file.push_str("1")?;
    Ok(file)
}

#[test]
fn the_limit_on_dimensions_is_exact(rt: HostRuntime) -> Result<(), Fail> {
    let alloc = rt.alloc();
    assert!(rt; prints(alloc, &dimensions(alloc, 64)?, "Int\n")?);
    let more = "65:9 more than 64 dimensions\n";
    assert!(rt; refuses(alloc, &dimensions(alloc, 65)?, more)?);
    Ok(())
}

// A text within so many choices, each with a dimension of its own.
fn chosen(alloc: Global, count: u32, first: &str, last: &str) -> Result<String, AllocError> {
    let mut text = String::from_str(alloc, last)?;
    for n in 1..=count {
        text = format!(in alloc; "@D{n}{{{first}, {text}}}")?;
    }
    Ok(text)
}

// So many times the pair of what was before.
fn doubled(alloc: Global, count: u32) -> Result<String, AllocError> {
    let mut text = String::from_str(alloc, "1")?;
    for _ in 0..count {
        text = format!(in alloc; "({text}, {text})")?;
    }
    Ok(text)
}

#[test]
fn many_dimensions_are_nested(rt: HostRuntime) -> Result<(), Fail> {
    let alloc = rt.alloc();
    let mut text = chosen(alloc, 60, "Int", "Bool")?;
    text.push_str("\n")?;
    assert!(rt; prints(alloc, &chosen(alloc, 60, "1", "true")?, &text)?);
    Ok(())
}

#[test]
fn the_limit_on_types_is_exact(rt: HostRuntime) -> Result<(), Fail> {
    let alloc = rt.alloc();
    assert!(rt; prints(alloc, &doubled(alloc, 11)?, &doubled_type(alloc, 11)?)?);
    let line = "type of - has more than 4096 nodes\n";
    assert!(rt; refuses(alloc, &doubled(alloc, 12)?, line)?);
    Ok(())
}

// The words are answered by the line on usage.
fn is_usage(alloc: Global, words: &[&str]) -> Result<bool, AllocError> {
    let line = b"usage: vtc COMMAND ARGUMENTS\n".as_slice();
    answers(alloc, words, b"1", Status::Usage, line)
}

#[test]
fn words_are_two(rt: HostRuntime) -> Result<(), Fail> {
    let alloc = rt.alloc();
    assert!(rt; is_usage(alloc, &[])?);
    assert!(rt; is_usage(alloc, &["type"])?);
    assert!(rt; is_usage(alloc, &["check", "f"])?);
    assert!(rt; is_usage(alloc, &["type", "f", "f"])?);
    Ok(())
}

#[test]
fn the_limit_on_the_length_is_exact(rt: HostRuntime) -> Result<(), Fail> {
    let alloc = rt.alloc();
    let mut file = vec![in alloc; b' '; LONGEST - 1]?;
    file.push(b'1')?;
    let line = b"Int\n".as_slice();
    assert!(rt; answers(alloc, &["type", "f"], &file, Status::Done, line)?);
    file.push(b' ')?;
    assert!(rt; refuses_bytes(alloc, &file, "file too long\n")?);
    Ok(())
}

// The file `f` with the text `1`.
fn one_file(alloc: Global) -> Result<MemFiles, AllocError> {
    let mut files = MemFiles::new(alloc);
    files.add("f", b"1")?;
    Ok(files)
}

// The status of the type of the file with this name.
fn status_of(
    alloc: Global,
    name: &str,
    files: &mut MemFiles,
    sink: &mut MemSink,
) -> Result<Status, AllocError> {
    let words = owned(alloc, &["type", name])?;
    Ok(run(alloc, &words, files, sink))
}

// A put of which two bytes are taken ends the program.
fn put_fails(alloc: Global, files: &mut MemFiles) -> Result<bool, AllocError> {
    let mut sink = MemSink::with_room(alloc, 100)?;
    sink.fail_at(1, 2);
    let status = status_of(alloc, "f", files, &mut sink)?;
    Ok(status == Status::WriteFault && sink.bytes() == b"In".as_slice())
}

fn fetch_fails(alloc: Global, name: &str, files: &mut MemFiles) -> Result<bool, AllocError> {
    let mut sink = MemSink::with_room(alloc, 100)?;
    let status = status_of(alloc, name, files, &mut sink)?;
    Ok(status == Status::ReadFault && sink.bytes() == b"read failed\n".as_slice())
}

#[test]
fn faults_are_answered_by_their_cause(rt: HostRuntime) -> Result<(), Fail> {
    let alloc = rt.alloc();
    let mut files = one_file(alloc)?;
    assert!(rt; matches!(put_fails(alloc, &mut files), Ok(true)));
    assert!(rt; files.fail_at(2).is_ok());
    assert!(rt; matches!(fetch_fails(alloc, "f", &mut files), Ok(true)));
    assert!(rt; matches!(fetch_fails(alloc, "g", &mut files), Ok(true)));
    Ok(())
}
