//! Runs with texts written by hand, where memory is at hand and no device fails.
ghost use Rattle.std.specs.Prelude.{◌≡◌};

use crate::run_project;
use byte_edge::{MemoryFiles, MemorySink, NoMemory};
use command_outputs::Status;
use std::alloc::Global;
use std::test::Fail;

/// An input file of a pump and a rule, and a trace of a header and three rows.
fn files(alloc: Global) -> Result<MemoryFiles, NoMemory> {
    let mut held = Vec::new(alloc);
    let input = Vec::from_slice(
        alloc,
        b"[JUNCTIONS]\nN1 0\n[PUMPS]\nP1 N1 N2 C OFF\n[CONTROLS]\nRULE R1\nIF NODE N1 DEPTH > 5\n\
          THEN PUMP P1 STATUS = ON\nELSE PUMP P1 STATUS = OFF\n",
    )?;
    let trace = Vec::from_slice(
        alloc,
        b"moment, NODE N1 DEPTH\n2001-06-15T00:00:00,4\n2001-06-15T00:05:00,6\n\
          2001-06-15T00:10:00,5\n",
    )?;
    held.push((String::from_str(alloc, "in")?, input))?;
    held.push((String::from_str(alloc, "trace")?, trace))?;
    Ok(MemoryFiles::new(held, 22, Vec::new(alloc)))
}

/// What the replay of the rule over the rows prints.
const REPLAYED: &[u8] = b"moment,P1\n2001-06-15T00:00:00,0\n2001-06-15T00:05:00,1\n\
                          2001-06-15T00:10:00,0\n";

/// The table of the rule.
const TABLES: &[u8] = b"tables 1\nlink P1\nrow 1 then 1 when\nclause NODE N1 DEPTH (5,+inf)\n\
                        row 1 else 1 unless\nclause NODE N1 DEPTH (5,+inf)\nend\n";

/// The words of a command.
fn words(alloc: Global, texts: &[&str]) -> Result<Vec<String>, NoMemory> {
    let mut words = Vec::new(alloc);
    for text in texts {
        words.push(String::from_str(alloc, text)?)?;
    }
    Ok(words)
}

#[test]
fn each_command_is_done(rt: HostRuntime) -> Result<(), Fail> {
    let alloc = rt.alloc();
    let mut err = MemorySink::new(alloc, 100, 100, Vec::new(alloc))?;

    let mut out = MemorySink::new(alloc, 200, 200, Vec::new(alloc))?;
    let checked = words(alloc, &["check", "in"])?;
    let status = run_project(alloc, &checked, &mut files(alloc)?, &mut out, &mut err);
    assert!(rt; status == Some(Status::Done));
    assert!(rt; out.written() == b"rules 1 names 0 objects 2\n".as_slice());

    let mut out = MemorySink::new(alloc, 200, 200, Vec::new(alloc))?;
    let tables = words(alloc, &["tables", "in"])?;
    let status = run_project(alloc, &tables, &mut files(alloc)?, &mut out, &mut err);
    assert!(rt; status == Some(Status::Done));
    assert!(rt; out.written() == TABLES);

    let mut out = MemorySink::new(alloc, 200, 200, Vec::new(alloc))?;
    let replayed = words(alloc, &["replay", "in", "trace"])?;
    let status = run_project(alloc, &replayed, &mut files(alloc)?, &mut out, &mut err);
    assert!(rt; status == Some(Status::Done));
    assert!(rt; out.written() == REPLAYED);
    assert!(rt; err.written().is_empty());
    Ok(())
}
