//! What is printed and answered, with texts written by hand.
use super::*;
use byte_edge::{MemoryFiles, MemorySink, NoMemory};
use std::alloc::Global;
use std::test::Fail;

#[test]
fn refusals_are_printed(rt: HostRuntime) -> Result<(), Fail> {
    let alloc = rt.alloc();
    let place = Place::InputLine(12);
    let fault = RefusalLine::fault(alloc, place, b"OutsideFunction", 15, b"sqrt")?;
    assert!(rt;
        fault.as_slice() == b"error: input line 12: OutsideFunction (15): sqrt\n".as_slice()
    );
    let fault = RefusalLine::fault(alloc, Place::TraceLine(3), b"NotLater", 7, b"")?;
    assert!(rt; fault.as_slice() == b"error: trace line 3: NotLater (7)\n".as_slice());
    let key = b"LINK 165 FLOW";
    let fault = RefusalLine::fault(alloc, Place::Ranges, b"MissingRange", 4, key)?;
    assert!(rt; fault.as_slice() == b"error: ranges: MissingRange (4): LINK 165 FLOW\n".as_slice());
    let stop = RefusalLine::stop_in_name(alloc, 2, StopWord::ZeroDivisor, b"p")?;
    assert!(rt; stop.as_slice() == b"error: trace line 2: ZeroDivisor in name p\n".as_slice());
    let stop = RefusalLine::stop_in_rule(alloc, 2, 1, BranchWord::Then, 1)?;
    assert!(rt; stop.as_slice() == b"error: trace line 2: Overflow in rule 1 then 1\n".as_slice());
    Ok(())
}

/// A kind of files of at most two bytes a line and twelve in all.
const SHORT_FILE: FileKind = FileKind {
    role: Role::Ranges,
    slot: 1,
    limit: 2,
    budget: 12,
};

/// Two files: one of three lines, and one that is too long.
fn two_files(alloc: Global) -> Result<MemoryFiles, NoMemory> {
    let mut held = Vec::new(alloc);
    let short = Vec::from_slice(alloc, b"a\nabc\nd")?;
    let long = Vec::from_slice(alloc, b"a\nb\nc\nd\ne\nf\ng")?;
    held.push((String::from_str(alloc, "short")?, short))?;
    held.push((String::from_str(alloc, "long")?, long))?;
    Ok(MemoryFiles::new(held, 5, Vec::new(alloc)))
}

#[test]
fn a_file_is_read_to_its_end(rt: HostRuntime) -> Result<(), Fail> {
    let alloc = rt.alloc();
    let mut files = two_files(alloc)?;
    let Ok(lines) = read_whole(alloc, &SHORT_FILE, "short", &mut files) else {
        return Err(Fail::from("the file is read"));
    };
    assert!(rt; lines.len() == 3);
    assert!(rt; lines[1].is_none());
    let mut out = MemorySink::new(alloc, 100, 2, Vec::new(alloc))?;
    let answer = write_text(&mut out, b"lines 3\n", Completion::Done);
    let mut err = MemorySink::new(alloc, 100, 2, Vec::new(alloc))?;
    let status = conclude::<MemoryFiles, MemorySink, MemorySink>(answer, &mut err);
    assert!(rt; status == Status::Done);
    assert!(rt; status.number() == 0);
    assert!(rt; out.written() == b"lines 3\n".as_slice());
    assert!(rt; err.written().is_empty());
    Ok(())
}

#[test]
fn complaints_are_said(rt: HostRuntime) -> Result<(), Fail> {
    let alloc = rt.alloc();
    let mut files = two_files(alloc)?;
    let Err(long) = read_whole(alloc, &SHORT_FILE, "long", &mut files) else {
        return Err(Fail::from("the file is too long"));
    };
    let mut err = MemorySink::new(alloc, 100, 2, Vec::new(alloc))?;
    let status = conclude::<MemoryFiles, MemorySink, MemorySink>(Err(long), &mut err);
    assert!(rt; status == Status::Refused);
    assert!(rt; err.written() == b"error: ranges too long\n".as_slice());
    let Err(missing) = read_whole(alloc, &SHORT_FILE, "none", &mut files) else {
        return Err(Fail::from("the file is not there"));
    };
    let mut err = MemorySink::new(alloc, 100, 2, Vec::new(alloc))?;
    let status = conclude::<MemoryFiles, MemorySink, MemorySink>(Err(missing), &mut err);
    assert!(rt; status == Status::Device);
    assert!(rt; err.written() == b"error: read failed: ranges\n".as_slice());
    let memory = Err(Complaint::OutOfMemory);
    let mut err = MemorySink::new(alloc, 9, 2, Vec::new(alloc))?;
    let status = conclude::<MemoryFiles, MemorySink, MemorySink>(memory, &mut err);
    assert!(rt; status == Status::Device);
    assert!(rt; err.written() == b"error: ou".as_slice());
    Ok(())
}
