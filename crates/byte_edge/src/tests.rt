//! What the calls give, with values worked out by hand.
ghost use Rattle.std.specs.Prelude.{◌≤◌};

use super::*;
use std::alloc::{AllocError, Global};
use std::test::Fail;

/// One file, under the name `a`.
fn one_file(
    alloc: Global,
    bytes: &[u8],
    cut: usize,
    failing: &[u64],
) -> Result<MemoryFiles, AllocError>
    requires { 1 ≤ cut }
{
    let mut held = Vec::new(alloc);
    let name = String::from_str(alloc, "a")?;
    let bytes = Vec::from_slice(alloc, bytes)?;
    held.push((name, bytes))?;
    let failing = Vec::from_slice(alloc, failing)?;
    Ok(MemoryFiles::new(held, cut, failing))
}

#[test]
fn lines_come_whole_over_short_reads(rt: HostRuntime) -> Result<(), Fail> {
    let mut files = one_file(rt.alloc(), b"a\r\nbb\n\nccc", 3, &[])?;
    files.open_file(0, "a")?;
    let mut reader = LineReader::new(rt.alloc(), 0, 2, 10)?;
    let Ok(Some(line)) = reader.next_line(&mut files) else {
        return Err(Fail::from("the first line"));
    };
    assert_eq!(rt; line, b"a".as_slice());
    let Ok(Some(line)) = reader.next_line(&mut files) else {
        return Err(Fail::from("the second line"));
    };
    assert_eq!(rt; line, b"bb".as_slice());
    let Ok(Some(line)) = reader.next_line(&mut files) else {
        return Err(Fail::from("the empty line"));
    };
    assert_eq!(rt; line, b"".as_slice());
    let Err(ReadEnd::LineTooLong) = reader.next_line(&mut files) else {
        return Err(Fail::from("the long line"));
    };
    let Ok(None) = reader.next_line(&mut files) else {
        return Err(Fail::from("the end"));
    };
    assert!(rt; !reader.spent());
    assert!(rt; reader.has_line());
    Ok(())
}

#[test]
fn a_held_line_takes_no_read(rt: HostRuntime) -> Result<(), Fail> {
    let mut files = one_file(rt.alloc(), b"a\nb\nc", 8, &[3])?;
    files.open_file(0, "a")?;
    let mut reader = LineReader::new(rt.alloc(), 0, 2, 10)?;
    assert!(rt; !reader.has_line());
    let Ok(Some(line)) = reader.next_line(&mut files) else {
        return Err(Fail::from("the first line"));
    };
    assert_eq!(rt; line, b"a".as_slice());
    assert!(rt; reader.has_line());
    let Ok(Some(line)) = reader.next_line(&mut files) else {
        return Err(Fail::from("the second line"));
    };
    assert_eq!(rt; line, b"b".as_slice());
    assert!(rt; !reader.has_line());
    let Err(ReadEnd::Fault) = reader.next_line(&mut files) else {
        return Err(Fail::from("the fault"));
    };
    Ok(())
}

#[test]
fn a_failed_read_ends_the_reading(rt: HostRuntime) -> Result<(), Fail> {
    let mut files = one_file(rt.alloc(), b"one\ntwo\nthr", 4, &[3])?;
    files.open_file(1, "a")?;
    let mut reader = LineReader::new(rt.alloc(), 1, 3, 11)?;
    let Ok(Some(line)) = reader.next_line(&mut files) else {
        return Err(Fail::from("the first line"));
    };
    assert_eq!(rt; line, b"one".as_slice());
    let Err(ReadEnd::Fault) = reader.next_line(&mut files) else {
        return Err(Fail::from("the fault"));
    };
    assert!(rt; reader.spent());
    assert_eq!(rt; files.open_file(1, "b"), Err(Failed));
    Ok(())
}

#[test]
fn all_lines_within_the_budget(rt: HostRuntime) -> Result<(), Fail> {
    let mut files = one_file(rt.alloc(), b"one\nfour\r\ntwo", 5, &[11])?;
    files.open_file(2, "a")?;
    let Ok(lines) = read_lines(rt.alloc(), 2, 3, 13, &mut files) else {
        return Err(Fail::from("all lines"));
    };
    let texts: [Option<&[u8]>; 3] = [Some(b"one"), None, Some(b"two")];
    assert_eq!(rt; lines.len(), 3);
    for (line, text) in lines.iter().zip(texts) {
        assert!(rt; line.as_ref().map(|line| line.as_slice()) == text);
    }
    files.open_file(2, "a")?;
    let past = read_lines(rt.alloc(), 2, 3, 12, &mut files);
    assert!(rt; matches!(past, Err(LinesEnd::TooLong)));
    files.open_file(2, "a")?;
    let failed = read_lines(rt.alloc(), 2, 3, 13, &mut files);
    assert!(rt; matches!(failed, Err(LinesEnd::Failed)));
    Ok(())
}

#[test]
fn a_failed_write_leaves_a_prefix(rt: HostRuntime) -> Result<(), Fail> {
    let failing = Vec::from_slice(rt.alloc(), &[4])?;
    let mut sink = MemorySink::new(rt.alloc(), 6, 2, failing)?;
    assert_eq!(rt; write_all(&mut sink, b"abc"), Ok(()));
    assert_eq!(rt; write_all(&mut sink, b"def"), Err(Failed));
    assert_eq!(rt; sink.written(), b"abcde".as_slice());
    assert_eq!(rt; write_all(&mut sink, b"gh"), Err(Failed));
    assert_eq!(rt; sink.written(), b"abcdeg".as_slice());
    Ok(())
}

#[test]
fn devices_of_the_host(rt: HostRuntime) -> Result<(), Fail> {
    let mut files = HostFiles::new(&rt);
    assert_eq!(rt; files.open_file(0, "there/is/no/such/file"), Err(Failed));
    let mut written = Vec::new(rt.alloc());
    let mut sink = HostSink::new(&mut written);
    assert_eq!(rt; write_all(&mut sink, b"hello"), Ok(()));
    drop(sink);
    assert_eq!(rt; written.as_slice(), b"hello".as_slice());
    Ok(())
}
