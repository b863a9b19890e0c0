//! The trace of the generated model.
ghost use Rattle.std.specs.Prelude.{◌≡◌, ◌++◌, ◌+◌, ◌*◌, ◌<◌, ◌≤◌, IfOk, OnOk, codes, pos};
ghost use Rattle.std.specs.Fmt.{decimal};
ghost use Rattle.std.specs.List.{flat_map, range_with_len};
ghost use Rattle.model_generator.specs.InputFile.{up_to};
ghost use Rattle.model_generator.specs.Trace.{generated_trace, header_text, column_text};
ghost use Rattle.model_generator.specs.Trace.{row_text, depth_text, depth_at, second_of_row};

use crate::input::push_numbered;
use byte_edge::NoMemory;
use exact_fraction::moment::Moment;
use num_text::moments::moment_text;
use std::alloc::Global;

/// The bytes of the trace.
pub(crate) fn trace_bytes(alloc: Global, n: u32) -> Result<Vec<u8>, NoMemory>
    requires most { n ≤ 1000 }
    ensures { IfOk result (λ text. text.items ≡ generated_trace n) }
{
    let mut text = Vec::new(alloc);
    push_header(alloc, &mut text, n)?;
    push_rows(&mut text, n)?;
    Ok(text)
}

/// Adds the header.
fn push_header(alloc: Global, text: &mut Vec<u8>, n: u32) -> Result<(), NoMemory>
    requires most { n ≤ 1000 }
    ensures { OnOk result (text.new.items ≡ text.old.items ++ header_text n) }
{
    text.extend_from_slice(b"moment")?;
    push_columns(alloc, text, n)?;
    text.extend_from_slice(b"\n")?;
    Ok(())
}

/// Adds the names of the columns.
fn push_columns(alloc: Global, text: &mut Vec<u8>, n: u32) -> Result<(), NoMemory>
    requires most { n ≤ 1000 }
    ensures { OnOk result (text.new.items ≡ text.old.items ++ flat_map column_text (up_to n)) }
{
    for number in 1..n + 1 {
        push_column(alloc, text, number)?;
    }
    Ok(())
}

/// Adds the name of a column.
fn push_column(alloc: Global, text: &mut Vec<u8>, number: u32) -> Result<(), NoMemory>
    ensures { OnOk result (text.new.items ≡ text.old.items ++ column_text number) }
{
    push_numbered(alloc, text, b",NODE N", number)?;
    text.extend_from_slice(b" DEPTH")?;
    Ok(())
}

/// Adds the rows.
fn push_rows(text: &mut Vec<u8>, n: u32) -> Result<(), NoMemory>
    requires most { n ≤ 1000 }
    ensures { OnOk result (text.new.items
        ≡ text.old.items ++ flat_map (row_text n) (range_with_len 0 (10 * n))) }
{
    for row in 0..10 * n {
        push_row(text, n, row)?;
    }
    Ok(())
}

/// Adds a row.
fn push_row(text: &mut Vec<u8>, n: u32, row: u32) -> Result<(), NoMemory>
    requires most { n ≤ 1000 }
    requires few { row < 10000 }
    ensures { OnOk result (text.new.items ≡ text.old.items ++ row_text n row) }
{
    let written = moment_text(moment_of_row(row));
    text.extend_from_slice(written.as_bytes())?;
    push_depths(text, n, row)?;
    text.extend_from_slice(b"\n")?;
    Ok(())
}

/// The moment of a row.
#[tactic(auto, unfolding(exact_fraction::specs::Moments::moment_at))]
fn moment_of_row(row: u32) -> Moment
    requires few { row < 10000 }
    ensures { result ≡ pos (second_of_row row) }
{
    let Some(moment) = Moment::make(946_684_800 + 300 * row as i64) else {
        unreachable!();
    };
    moment
}

/// Adds the depths of a row.
fn push_depths(text: &mut Vec<u8>, n: u32, row: u32) -> Result<(), NoMemory>
    requires most { n ≤ 1000 }
    requires few { row < 10000 }
    ensures { OnOk result (text.new.items
        ≡ text.old.items ++ flat_map (depth_text row) (up_to n)) }
{
    for number in 1..n + 1 {
        push_depth(text, (7 * number + 3 * row) % 11)?;
    }
    Ok(())
}

/// Adds a depth.
fn push_depth(text: &mut Vec<u8>, depth: u32) -> Result<(), NoMemory>
    requires { depth < 11 }
    ensures { OnOk result (text.new.items ≡ text.old.items ++ (codes "," ++ decimal depth)) }
{
    text.extend_from_slice(b",")?;
    text.extend_from_slice(written_depth(depth))?;
    Ok(())
}

/// A depth as it is written.
fn written_depth(depth: u32) -> &'static [u8]
    requires { depth < 11 }
    ensures { result.now ≡ decimal depth }
{
    match depth {
        0 => b"0",
        1 => b"1",
        2 => b"2",
        3 => b"3",
        4 => b"4",
        5 => b"5",
        6 => b"6",
        7 => b"7",
        8 => b"8",
        9 => b"9",
        _ => b"10",
    }
}
