//! Replays of generated models by decision tables.
ghost use Rattle.rule_types.specs.Tables.{HoldsTables};
ghost use Rattle.rule_types.specs.WellFormed.{WellFormed};

use byte_edge::{MemoryFiles, MemorySink, NoMemory};
use input_check::read_input;
use model_generator::gen_files;
use project_commands::printer_of;
use rule_parser::Project;
use std::alloc::Global;
use std::test::Fail;
use streamed_lines::stream_trace;

/// An input file and a trace in memory, under `in` and `trace`, of which these calls fail. A call
/// takes at most 8,192 bytes.
fn files_of(
    alloc: Global,
    input: Vec<u8>,
    trace: Vec<u8>,
    failing: Vec<u64>,
) -> Result<MemoryFiles, NoMemory> {
    let mut held = Vec::new(alloc);
    held.push((String::from_str(alloc, "in")?, input))?;
    held.push((String::from_str(alloc, "trace")?, trace))?;
    Ok(MemoryFiles::new(held, 8_192, failing))
}

/// The calls from 20 to 600.
fn later_calls(alloc: Global) -> Result<Vec<u64>, NoMemory> {
    let mut calls = Vec::new(alloc);
    for call in 20..601 {
        calls.push(call)?;
    }
    Ok(calls)
}

/// How many table rows are tried in the replay of a project over a trace; None where it does not
/// end well.
fn tried(alloc: Global, project: &Project, files: &mut MemoryFiles) -> Option<u64>
    requires well_formed { WellFormed project.now.rules }
    requires tables { HoldsTables project.now.tables project.now.rules.rules }
{
    let Ok(mut printer) = printer_of(alloc, project) else {
        return None;
    };
    let Ok(mut out) = MemorySink::new(alloc, 1_000_000, 8_192, Vec::new(alloc)) else {
        return None;
    };
    if stream_trace(alloc, &mut printer, "trace", files, &mut out).is_err() {
        return None;
    }
    Some(printer.readings().rows_tried())
}

/// The same of an input file and a trace.
fn tried_in(alloc: Global, input: Vec<u8>, trace: Vec<u8>, failing: Vec<u64>) -> Option<u64> {
    let Ok(mut files) = files_of(alloc, input, trace, failing) else {
        return None;
    };
    match read_input(alloc, "in", &mut files) {
        Ok(project) => tried(alloc, &project, &mut files),
        Err(_) => None,
    }
}

/// A trace of ten rows in which the depth of the one junction is always the same.
fn level_trace(alloc: Global) -> Result<Vec<u8>, NoMemory> {
    let trace = Vec::from_slice(
        alloc,
        b"moment,NODE N1 DEPTH\n\
          2000-01-01T00:00:00,7\n2000-01-01T00:05:00,7\n2000-01-01T00:10:00,7\n\
          2000-01-01T00:15:00,7\n2000-01-01T00:20:00,7\n2000-01-01T00:25:00,7\n\
          2000-01-01T00:30:00,7\n2000-01-01T00:35:00,7\n2000-01-01T00:40:00,7\n\
          2000-01-01T00:45:00,7\n",
    )?;
    Ok(trace)
}

/// Each file takes a few calls, since a block takes many lines: else a call would fail.
#[test]
fn tables_are_looked_at_only_where_a_piece_changed(rt: HostRuntime) -> Result<(), Fail> {
    let alloc = rt.alloc();
    let (input, trace) = gen_files(alloc, 1)?;
    assert!(rt; tried_in(alloc, input, trace, later_calls(alloc)?) == Some(24));
    let (input, _) = gen_files(alloc, 1)?;
    assert!(rt; tried_in(alloc, input, level_trace(alloc)?, later_calls(alloc)?) == Some(2));
    Ok(())
}

#[test]
fn rows_tried_stay_few_with_a_hundred_pumps(rt: HostRuntime) -> Result<(), Fail> {
    let alloc = rt.alloc();
    let (input, trace) = gen_files(alloc, 100)?;
    match tried_in(alloc, input, trace, Vec::new(alloc)) {
        Some(count) => {
            assert!(rt; 0 < count);
            assert!(rt; count <= 300_000);
        }
        None => assert!(rt; false),
    }
    Ok(())
}
