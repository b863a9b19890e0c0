//! Runs of each command on devices that fail at each place.
use byte_edge::{MemoryFiles, MemorySink, NoMemory};
use command_outputs::Status;
use std::alloc::Global;
use std::test::Fail;
use swmm_rules::run;

/// Two pumps of a well.
const INPUT: &[u8] = b"[JUNCTIONS]\nWell\n[PUMPS]\nLead Well Out * OFF\nLag Well Out * OFF\n\
                       [CONTROLS]\nRULE 1\nIF NODE Well DEPTH > 2\nTHEN PUMP Lead STATUS = ON\n\
                       ELSE PUMP Lead STATUS = OFF\nRULE 2\nIF NODE Well DEPTH > 3\n\
                       THEN PUMP Lag STATUS = ON\n";

/// An input file that ends inside a rule.
const UNFINISHED: &[u8] = b"[JUNCTIONS]\nWell\n[CONTROLS]\nRULE 1\nIF NODE Well DEPTH > 2\n";

/// A trace whose last row has the moment of the one before.
const TRACE: &[u8] = b"moment,NODE Well DEPTH\n2001-06-15T00:00:00,2.5\n2001-06-15T00:05:00,4\n\
                       2001-06-15T00:10:00,1\n2001-06-15T00:10:00,1\n";

/// What is asked of the rules.
const RANGES: &[u8] = b"NODE Well DEPTH 0 6\nDEAD 2\n";

/// A report of a state in which the rule acts.
const REPORT: &[u8] = b"report 1\nquestion dead 2\nrefuted\nvalue NODE Well DEPTH 5\nend\n";

/// How many runs there are.
const RUNS: usize = 8;

/// Which call on the files fails, 0 for none, and how many bytes the outputs take in all.
#[derive(Clone, Copy)]
struct Devices {
    failing: u64,
    out_room: usize,
    err_room: usize,
}

/// Devices without a fault.
const SOUND: Devices = Devices {
    failing: 0,
    out_room: 200,
    err_room: 200,
};

/// What a run left.
#[derive(Drop)]
struct Left {
    status: Status,
    out: Vec<u8>,
    err: Vec<u8>,
}

/// The words of a run.
fn words_of(alloc: Global, number: usize) -> Result<Vec<String>, NoMemory> {
    match number {
        0 => words(alloc, &["check", "in"]),
        1 => words(alloc, &["tables", "in"]),
        2 => words(alloc, &["replay", "in", "trace"]),
        3 => words(alloc, &["prove", "in", "ranges"]),
        4 => words(alloc, &["verify", "in", "ranges", "report"]),
        5 => words(alloc, &["gen", "1"]),
        6 => words(alloc, &["check", "unfinished"]),
        _ => words(alloc, &["check"]),
    }
}

fn words(alloc: Global, texts: &[&str]) -> Result<Vec<String>, NoMemory> {
    let mut words = Vec::new(alloc);
    for text in texts {
        words.push(String::from_str(alloc, text)?)?;
    }
    Ok(words)
}

/// The files of all runs, of which this call fails. A read gives a byte.
fn files(alloc: Global, failing: u64) -> Result<MemoryFiles, NoMemory> {
    let mut held = Vec::new(alloc);
    hold(alloc, &mut held, "in", INPUT)?;
    hold(alloc, &mut held, "unfinished", UNFINISHED)?;
    hold(alloc, &mut held, "trace", TRACE)?;
    hold(alloc, &mut held, "ranges", RANGES)?;
    hold(alloc, &mut held, "report", REPORT)?;
    let failing = Vec::from_slice(alloc, &[failing])?;
    Ok(MemoryFiles::new(held, 1, failing))
}

fn hold(
    alloc: Global,
    held: &mut Vec<(String, Vec<u8>)>,
    name: &str,
    bytes: &[u8],
) -> Result<(), NoMemory> {
    let name = String::from_str(alloc, name)?;
    let bytes = Vec::from_slice(alloc, bytes)?;
    held.push((name, bytes))?;
    Ok(())
}

/// What a run leaves on these devices.
fn run_on(alloc: Global, number: usize, devices: Devices) -> Result<Left, NoMemory> {
    let words = words_of(alloc, number)?;
    let mut files = files(alloc, devices.failing)?;
    let mut out = MemorySink::new(alloc, devices.out_room, 1, Vec::new(alloc))?;
    let mut err = MemorySink::new(alloc, devices.err_room, 1, Vec::new(alloc))?;
    let status = run(alloc, &words, &mut files, &mut out, &mut err);
    left_of(alloc, status, out.written(), err.written())
}

fn left_of(alloc: Global, status: Status, out: &[u8], err: &[u8]) -> Result<Left, NoMemory> {
    let out = Vec::from_slice(alloc, out)?;
    let err = Vec::from_slice(alloc, err)?;
    Ok(Left { status, out, err })
}

fn is_same(one: &Left, other: &Left) -> bool {
    let outputs = one.out.as_slice() == other.out.as_slice();
    let errors = one.err.as_slice() == other.err.as_slice();
    one.status == other.status && outputs && errors
}

/// Whether the first text is the front of the second one.
fn is_front(text: &[u8], whole: &[u8]) -> bool {
    match whole.get(..text.len()) {
        Some(front) => front == text,
        None => false,
    }
}

/// Whether the output took so many bytes of the whole text and then failed.
fn is_cut_off(left: &Left, whole: &Left, room: usize) -> bool {
    let said = left.err.as_slice() == b"error: write failed\n".as_slice();
    let front = is_front(left.out.as_slice(), whole.out.as_slice());
    left.status == Status::Device && said && front && left.out.len() == room
}

/// Whether a run ended at a failed open or read, with whole lines of its text.
fn is_stopped(left: &Left, whole: &Left) -> bool {
    let said = is_front(b"error: read failed: ", left.err.as_slice());
    let front = is_front(left.out.as_slice(), whole.out.as_slice());
    left.status == Status::Device && said && front && ends_with_line(left.out.as_slice())
}

fn ends_with_line(text: &[u8]) -> bool {
    match text.last() {
        Some(byte) => *byte == 10,
        None => true,
    }
}

/// Whether each room for the output, from none to that for the whole text, leaves what it should.
fn holds_at_each_room(alloc: Global, number: usize) -> Result<bool, NoMemory> {
    let whole = run_on(alloc, number, SOUND)?;
    let length = whole.out.len();
    for room in 0..length {
        let left = run_on(
            alloc,
            number,
            Devices {
                out_room: room,
                ..SOUND
            },
        )?;
        if !is_cut_off(&left, &whole, room) {
            return Ok(false);
        }
    }
    let left = run_on(
        alloc,
        number,
        Devices {
            out_room: length,
            ..SOUND
        },
    )?;
    Ok(is_same(&left, &whole))
}

/// Whether each call on the files that fails is told, up to the first one that is not made.
fn holds_at_each_call(alloc: Global, number: usize) -> Result<bool, NoMemory> {
    let whole = run_on(alloc, number, SOUND)?;
    for failing in 1..2_000 {
        let left = run_on(alloc, number, Devices { failing, ..SOUND })?;
        if is_same(&left, &whole) {
            return Ok(true);
        }
        if !is_stopped(&left, &whole) {
            return Ok(false);
        }
    }
    Ok(false)
}

/// Whether each room for the line on `err` that is too small leaves its front.
fn holds_at_each_err(alloc: Global, number: usize) -> Result<bool, NoMemory> {
    let whole = run_on(alloc, number, SOUND)?;
    for room in 0..whole.err.len() {
        let left = run_on(
            alloc,
            number,
            Devices {
                err_room: room,
                ..SOUND
            },
        )?;
        let front = is_front(left.err.as_slice(), whole.err.as_slice());
        if left.status != Status::Device || !front || left.err.len() != room {
            return Ok(false);
        }
    }
    Ok(true)
}

#[test]
fn an_output_with_less_room_gets_a_front_of_the_text(rt: HostRuntime) -> Result<(), Fail> {
    for number in 0..RUNS {
        assert!(rt; holds_at_each_room(rt.alloc(), number)?);
    }
    Ok(())
}

#[test]
fn each_failing_call_is_told(rt: HostRuntime) -> Result<(), Fail> {
    for number in 0..RUNS {
        assert!(rt; holds_at_each_call(rt.alloc(), number)?);
    }
    Ok(())
}

#[test]
fn an_err_without_room_is_a_failed_device(rt: HostRuntime) -> Result<(), Fail> {
    for number in 0..RUNS {
        assert!(rt; holds_at_each_err(rt.alloc(), number)?);
    }
    Ok(())
}
