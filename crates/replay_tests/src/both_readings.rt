//! The slow reading of rules beside that by decision tables: what they print is the same.
ghost use Rattle.rule_types.specs.Tables.{HoldsTables};
ghost use Rattle.rule_types.specs.WellFormed.{WellFormed};

use byte_edge::{MemoryFiles, MemorySink, NoMemory};
use input_check::read_input;
use model_generator::gen_files;
use plain_replay::PlainReads;
use project_commands::printer_of;
use replay_printer::ReplayPrinter;
use rule_parser::Project;
use std::alloc::Global;
use std::test::Fail;
use streamed_lines::{LinePrinter, stream_trace};

/// What a printer prints of the trace; None where it does not end well.
fn printed<P: LinePrinter>(
    alloc: Global,
    printer: &mut P,
    files: &mut MemoryFiles,
) -> Option<MemorySink>
    requires ready { P.is_ready printer.old }
{
    let Ok(mut out) = MemorySink::new(alloc, 1_000_000, 8_192, Vec::new(alloc)) else {
        return None;
    };
    if stream_trace(alloc, printer, "trace", files, &mut out).is_err() {
        return None;
    }
    Some(out)
}

/// What is printed by the slow reading.
fn printed_slowly(alloc: Global, project: &Project, files: &mut MemoryFiles) -> Option<MemorySink>
    requires well_formed { WellFormed project.now.rules }
    requires tables { HoldsTables project.now.tables project.now.rules.rules }
{
    let Ok(readings) = PlainReads::new(alloc, &project.rules, &project.tables) else {
        return None;
    };
    let Ok(mut printer) = ReplayPrinter::new(alloc, &project.rules, &project.objects, readings)
    else {
        return None;
    };
    printed(alloc, &mut printer, files)
}

/// What is printed by the tables.
fn printed_by_tables(
    alloc: Global,
    project: &Project,
    files: &mut MemoryFiles,
) -> Option<MemorySink>
    requires well_formed { WellFormed project.now.rules }
    requires tables { HoldsTables project.now.tables project.now.rules.rules }
{
    let Ok(mut printer) = printer_of(alloc, project) else {
        return None;
    };
    printed(alloc, &mut printer, files)
}

/// An input file and a trace in memory, under `in` and `trace`.
fn files_of(alloc: Global, input: &[u8], trace: &[u8]) -> Result<MemoryFiles, NoMemory> {
    let mut held = Vec::new(alloc);
    held.push((
        String::from_str(alloc, "in")?,
        Vec::from_slice(alloc, input)?,
    ))?;
    held.push((
        String::from_str(alloc, "trace")?,
        Vec::from_slice(alloc, trace)?,
    ))?;
    Ok(MemoryFiles::new(held, 8_192, Vec::new(alloc)))
}

/// What one of the readings prints of an input file and a trace.
fn printed_of(alloc: Global, input: &[u8], trace: &[u8], slowly: bool) -> Option<MemorySink> {
    let Ok(mut files) = files_of(alloc, input, trace) else {
        return None;
    };
    let Ok(project) = read_input(alloc, "in", &mut files) else {
        return None;
    };
    if slowly {
        return printed_slowly(alloc, &project, &mut files);
    }
    printed_by_tables(alloc, &project, &mut files)
}

/// Whether both readings end well, print the same, and print more than so many bytes.
fn agree(alloc: Global, input: &[u8], trace: &[u8], bytes: usize) -> bool {
    let Some(slow) = printed_of(alloc, input, trace, true) else {
        return false;
    };
    let Some(quick) = printed_of(alloc, input, trace, false) else {
        return false;
    };
    slow.written() == quick.written() && slow.written().len() > bytes
}

#[test]
fn both_print_the_same_of_a_generated_model(rt: HostRuntime) -> Result<(), Fail> {
    let alloc = rt.alloc();
    let (input, trace) = gen_files(alloc, 5)?;
    assert!(rt; agree(alloc, &input, &trace, 200));
    Ok(())
}

/// Names, a timer, the clock, priorities, a PID controller, a gate that takes half an hour, and a
/// missing value.
#[test]
fn both_print_the_same_of_rules_of_every_kind(rt: HostRuntime) -> Result<(), Fail> {
    let alloc = rt.alloc();
    let input = Vec::from_slice(
        alloc,
        b"[JUNCTIONS]\nWell\n[PUMPS]\nLead Well Out * OFF\nLag Well Out * OFF\n\
          [ORIFICES]\nGate Well Out SIDE 0 0.65 NO 0.5\n[CONTROLS]\n\
          VARIABLE Depth = NODE Well DEPTH\nEXPRESSION Spare = 4.1 - Depth\nRULE LeadOn\n\
          IF Depth > 1.8\nTHEN PUMP Lead STATUS = ON\nRULE LeadOff\nIF Depth < 0.6\n\
          THEN PUMP Lead STATUS = OFF\nRULE LagOn\nIF Depth > 2.6\n\
          AND PUMP Lead TIMEOPEN >= 0:10\nTHEN PUMP Lag STATUS = ON\n\
          ELSE PUMP Lag STATUS = OFF\nPRIORITY 1\nRULE Late\n\
          IF SIMULATION CLOCKTIME >= 0:40\nAND Spare > 1\nTHEN PUMP Lag SETTING = 0.5\n\
          PRIORITY 2\nRULE Holds\nIF NODE Well DEPTH <> 2\n\
          THEN ORIFICE Gate SETTING = PID 0.1 0.2 0.3\n",
    )?;
    let trace = Vec::from_slice(
        alloc,
        b"moment,NODE Well DEPTH\n2000-01-01T00:00:00,1\n2000-01-01T00:05:00,2\n\
          2000-01-01T00:10:00,2.7\n2000-01-01T00:15:00,2.8\n2000-01-01T00:20:00,\n\
          2000-01-01T00:25:00,3.4\n2000-01-01T00:40:00,3.05\n2000-01-01T00:45:00,2.9\n\
          2000-01-01T00:50:00,0.5\n",
    )?;
    assert!(rt; agree(alloc, &input, &trace, 270));
    Ok(())
}
