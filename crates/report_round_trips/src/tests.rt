//! Reports that `prove` writes of small models, and what `verify` says of them.
use byte_edge::{MemoryFiles, MemorySink, NoMemory};
use command_outputs::Completion;
use std::alloc::Global;
use std::test::Fail;
use verdict_commands::{prove, verify};

/// Files in memory under `in`, `ranges` and `report`.
fn files_of(
    alloc: Global,
    input: &[u8],
    ranges: &[u8],
    report: &[u8],
) -> Result<MemoryFiles, NoMemory> {
    let mut held = Vec::new(alloc);
    held.push((
        String::from_str(alloc, "in")?,
        Vec::from_slice(alloc, input)?,
    ))?;
    held.push((
        String::from_str(alloc, "ranges")?,
        Vec::from_slice(alloc, ranges)?,
    ))?;
    held.push((
        String::from_str(alloc, "report")?,
        Vec::from_slice(alloc, report)?,
    ))?;
    Ok(MemoryFiles::new(held, 8_192, Vec::new(alloc)))
}

/// A sink in memory with room for a small report.
fn small_sink(alloc: Global) -> Result<MemorySink, NoMemory> {
    MemorySink::new(alloc, 2_000, 2_000, Vec::new(alloc))
}

/// Whether `verify` writes this text of a report, and ends as it is told.
fn is_verified(
    alloc: Global,
    input: &[u8],
    ranges: &[u8],
    report: &[u8],
    completion: Completion,
    text: &[u8],
) -> bool {
    let Ok(mut files) = files_of(alloc, input, ranges, report) else {
        return false;
    };
    let Ok(mut out) = small_sink(alloc) else {
        return false;
    };
    match verify(alloc, "in", "ranges", "report", &mut files, &mut out) {
        Ok(ended) => ended == completion && out.written() == text,
        Err(_) => false,
    }
}

/// Whether `prove` ends like this over an input file and ranges, and `verify` ends alike over the
/// report that it wrote, of which it writes this text.
fn round_trips(
    alloc: Global,
    input: &[u8],
    ranges: &[u8],
    completion: Completion,
    text: &[u8],
) -> bool {
    let Ok(mut files) = files_of(alloc, input, ranges, b"") else {
        return false;
    };
    let Ok(mut out) = small_sink(alloc) else {
        return false;
    };
    match prove(alloc, "in", "ranges", &mut files, &mut out) {
        Ok(ended) => {
            ended == completion
                && is_verified(alloc, input, ranges, out.written(), completion, text)
        }
        Err(_) => false,
    }
}

/// A weir of three rules: the first two can order different settings, the third neither of them.
const WEIR: &[u8] = b"[JUNCTIONS]\nN1\n[CONDUITS]\nC1\n[WEIRS]\nW1\n[CONTROLS]\n\
    RULE R1\nIF NODE N1 DEPTH > 12\nAND LINK C1 FLOW > 100\nTHEN WEIR W1 SETTING = 0.5\n\
    RULE R2\nIF NODE N1 DEPTH > 12\nAND LINK C1 FLOW > 200\nTHEN WEIR W1 SETTING = 1\n\
    RULE R3\nIF NODE N1 DEPTH <= 12\nOR LINK C1 FLOW <= 100\nTHEN WEIR W1 SETTING = 0\n";

/// Two rules that compare the depths of two junctions.
const TWO_DEPTHS: &[u8] = b"[JUNCTIONS]\nA\nB\n[ORIFICES]\nO\n[CONTROLS]\n\
    RULE 1\nIF NODE A DEPTH > NODE B DEPTH\nTHEN ORIFICE O SETTING = 1\n\
    RULE 2\nIF NODE B DEPTH > NODE A DEPTH\nTHEN ORIFICE O SETTING = 0\n";

/// A pump that runs from a quarter to eleven in the evening on.
const EVENING: &[u8] = b"[PUMPS]\nP1\n[CONTROLS]\nRULE 1\nIF SIMULATION CLOCKTIME >= 22:45:00\n\
    THEN PUMP P1 STATUS = ON\nELSE PUMP P1 STATUS = OFF\n";

/// A slow orifice, and one that moves at once.
const SLOW: &[u8] = b"[OPTIONS]\nROUTING_STEP 300\n[JUNCTIONS]\nN1\n[ORIFICES]\n\
    O1 N1 N2 SIDE 0 0.65 NO 0.5\nO2 N1 N2 SIDE 0 0.65 NO\n[CONTROLS]\n\
    RULE 1\nIF NODE N1 DEPTH > 1\nTHEN ORIFICE O1 SETTING = 3\nAND ORIFICE O2 SETTING = 3\n";

#[test]
fn certificates_and_states_are_accepted(rt: HostRuntime) -> Result<(), Fail> {
    let alloc = rt.alloc();
    let ranges = b"NODE N1 DEPTH 0 20\nLINK C1 FLOW 0 300\n\
        CONFLICT R1 R3 W1\nCONFLICT R1 R2 W1\nDEAD R2\nLIMIT W1 0 0.6\n";
    let text = b"verified holds 3 refuted 1 undecided 0\n";
    assert!(rt; round_trips(alloc, WEIR, ranges, Completion::Refuted, text));
    let ranges = b"NODE N1 DEPTH 0 10\nLIMIT O1 0.5 1\nLIMIT O2 0.5 1\n";
    let text = b"verified holds 1 refuted 1 undecided 0\n";
    assert!(rt; round_trips(alloc, SLOW, ranges, Completion::Refuted, text));
    Ok(())
}

#[test]
fn open_cells_are_accepted(rt: HostRuntime) -> Result<(), Fail> {
    let alloc = rt.alloc();
    let ranges = b"NODE A DEPTH 0 10\nNODE B DEPTH 0 10\nCONFLICT 1 2 O\n";
    let text = b"verified holds 0 refuted 0 undecided 1\n";
    assert!(rt; round_trips(alloc, TWO_DEPTHS, ranges, Completion::Undecided, text));
    let ranges = b"NODE A DEPTH 0 1\nNODE B DEPTH 2 3\nCONFLICT 1 2 O\n";
    let text = b"verified holds 1 refuted 0 undecided 0\n";
    assert!(rt; round_trips(alloc, TWO_DEPTHS, ranges, Completion::Done, text));
    Ok(())
}

#[test]
fn moments_are_accepted(rt: HostRuntime) -> Result<(), Fail> {
    let alloc = rt.alloc();
    let ranges = b"MOMENT 2001-06-15T00:00:00 2001-06-15T01:00:00\nLIMIT P1 0 0.5\n";
    let text = b"verified holds 1 refuted 0 undecided 0\n";
    assert!(rt; round_trips(alloc, EVENING, ranges, Completion::Done, text));
    let ranges = b"MOMENT 2001-06-15T22:44:59 2001-06-15T22:45:00\nLIMIT P1 0 0.5\nLIMIT P1 0 1\n";
    let text = b"verified holds 1 refuted 1 undecided 0\n";
    assert!(rt; round_trips(alloc, EVENING, ranges, Completion::Refuted, text));
    Ok(())
}

/// A rule that reads the depths of thirteen junctions.
const MANY_DEPTHS: &[u8] = b"[JUNCTIONS]\nA1\nA2\nA3\nA4\nA5\nA6\nA7\nA8\nA9\nA10\nA11\nA12\n\
    A13\n[ORIFICES]\nO\n[CONTROLS]\nRULE 1\nIF NODE A1 DEPTH >= 0\nAND NODE A2 DEPTH >= 0\n\
    AND NODE A3 DEPTH >= 0\nAND NODE A4 DEPTH >= 0\nAND NODE A5 DEPTH >= 0\n\
    AND NODE A6 DEPTH >= 0\nAND NODE A7 DEPTH >= 0\nAND NODE A8 DEPTH >= 0\n\
    AND NODE A9 DEPTH >= 0\nAND NODE A10 DEPTH >= 0\nAND NODE A11 DEPTH >= 0\n\
    AND NODE A12 DEPTH >= 0\nAND NODE A13 DEPTH >= 0\nTHEN ORIFICE O SETTING = 1\n";

/// The ranges of these depths.
const MANY_RANGES: &[u8] = b"NODE A1 DEPTH 0 10\nNODE A2 DEPTH 0 10\nNODE A3 DEPTH 0 10\n\
    NODE A4 DEPTH 0 10\nNODE A5 DEPTH 0 10\nNODE A6 DEPTH 0 10\nNODE A7 DEPTH 0 10\n\
    NODE A8 DEPTH 0 10\nNODE A9 DEPTH 0 10\nNODE A10 DEPTH 0 10\nNODE A11 DEPTH 0 10\n\
    NODE A12 DEPTH 0 10\nNODE A13 DEPTH 0 10\nLIMIT O 0 0.5\n";

/// Three pieces of each of thirteen keys are more cells than are searched.
#[test]
fn counts_of_cells_are_accepted(rt: HostRuntime) -> Result<(), Fail> {
    let alloc = rt.alloc();
    let text = b"verified holds 0 refuted 0 undecided 1\n";
    assert!(rt; round_trips(alloc, MANY_DEPTHS, MANY_RANGES, Completion::Undecided, text));
    Ok(())
}
