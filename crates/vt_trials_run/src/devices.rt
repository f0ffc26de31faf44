use std::fs;
use std::test::Fail;
use vt_io::{FetchFault, Fetched, Files, HostFiles, HostSink, MemFiles, MemSink, Sink};

fn is_whole(fetched: &Result<Fetched, FetchFault>, bytes: &[u8]) -> bool {
    match fetched {
        Ok(Fetched::Whole(held)) => held.as_slice() == bytes,
        _ => false,
    }
}

#[test]
fn memory_answers_by_name_and_limit(rt: HostRuntime) -> Result<(), Fail> {
    let alloc = rt.alloc();
    let mut files = MemFiles::new(alloc);
    files.add("a", b"xyz")?;

    assert!(rt; is_whole(&files.fetch(alloc, "a", 3), b"xyz"));
    assert!(rt; matches!(&files.fetch(alloc, "a", 2), Ok(Fetched::TooLong)));
    assert!(rt; matches!(&files.fetch(alloc, "b", 3), Err(FetchFault::Failed)));
    Ok(())
}

#[test]
fn a_listed_fetch_fails_once(rt: HostRuntime) -> Result<(), Fail> {
    let alloc = rt.alloc();
    let mut files = MemFiles::new(alloc);
    files.add("a", b"xyz")?;
    files.fail_at(1)?;

    assert!(rt; matches!(&files.fetch(alloc, "a", 3), Err(FetchFault::Failed)));
    assert!(rt; is_whole(&files.fetch(alloc, "a", 3), b"xyz"));
    Ok(())
}

#[test]
fn a_full_sink_keeps_what_fits(rt: HostRuntime) -> Result<(), Fail> {
    let mut sink = MemSink::with_room(rt.alloc(), 4)?;

    assert!(rt; sink.put(b"abc").is_ok());
    assert!(rt; sink.put(b"de").is_err());
    assert_eq!(rt; sink.bytes(), b"abcd".as_slice());
    Ok(())
}

#[test]
fn a_put_that_is_set_to_fail_is_cut_off(rt: HostRuntime) -> Result<(), Fail> {
    let mut sink = MemSink::with_room(rt.alloc(), 4)?;
    sink.fail_at(1, 2);

    assert!(rt; sink.put(b"abc").is_err());
    assert_eq!(rt; sink.bytes(), b"ab".as_slice());
    Ok(())
}

#[test]
fn the_host_answers_by_name_and_limit(rt: HostRuntime) -> Result<(), Fail> {
    let alloc = rt.alloc();
    fs::write(&rt, "three.txt", "xyz")?;
    let mut files = HostFiles::new(&rt);

    assert!(rt; is_whole(&files.fetch(alloc, "three.txt", 3), b"xyz"));
    assert!(rt; matches!(&files.fetch(alloc, "three.txt", 2), Ok(Fetched::TooLong)));
    assert!(rt; matches!(&files.fetch(alloc, "none.txt", 3), Err(FetchFault::Failed)));
    fs::remove_file(&rt, "three.txt")?;
    Ok(())
}

#[test]
fn the_host_writes(rt: HostRuntime) {
    assert!(rt; HostSink::new(&rt).put(b"written\n").is_ok());
}
