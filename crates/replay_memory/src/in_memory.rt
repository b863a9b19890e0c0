//! The command `replay` over files in memory.
ghost use Rattle.std.specs.Prelude.{◌≡◌, ◌∷◌, [], ℕ, List, map, Some, IfOk, IfSome, codes, string_bytes};
ghost use Rattle.byte_edge.specs.Entries.{held_under};
ghost use Rattle.byte_edge.specs.MemoryFiles.{entries_of};
ghost use Rattle.byte_edge.specs.MemorySink.{written_to};
ghost use Rattle.replay_memory.specs.InMemory.{IsReplayOf, LeavesBytes, replay_of_bytes};

use byte_edge::{MemoryFiles, MemorySink, NoMemory};
use command_outputs::Status;
use std::alloc::Global;
use swmm_rules::run;

/// What a run wrote to its two outputs.
#[derive(Debug, Drop)]
pub struct Written {
    /// How the run ended.
    pub status: Status,
    /// What is written on the output.
    pub output: Vec<u8>,
    /// What is written on standard error.
    pub error: Vec<u8>,
}

/// How many bytes a read gives and a write takes at most, and the room for standard error.
const CUT: usize = 8_192;

/// Runs `replay` over these two files, into an output with room for `room` bytes.
///
/// With Done and Refused the whole text is written, and its line on standard error; with NoMemory
/// and Device a prefix of the text. `Err` comes where memory for the words, the files, the two
/// outputs or the answer is refused.
pub fn replay_bytes(
    alloc: Global,
    input: Vec<u8>,
    trace: Vec<u8>,
    room: usize,
) -> Result<Written, NoMemory>
    ensures replay { IfOk result (IsReplayOf input.items trace.items) }
{
    let words = replay_words(alloc)?;
    let held = two_files(alloc, input, trace)?;
    let mut files = MemoryFiles::new(held, CUT, Vec::new(alloc));
    let mut out = MemorySink::new(alloc, room, CUT, Vec::new(alloc))?;
    let mut err = MemorySink::new(alloc, CUT, CUT, Vec::new(alloc))?;
    let status = run_in_memory(alloc, &words, &mut files, &mut out, &mut err);
    Ok(Written {
        status,
        output: Vec::from_slice(alloc, out.written())?,
        error: Vec::from_slice(alloc, err.written())?,
    })
}

/// Runs the command `replay a b` over files and sinks in memory.
fn run_in_memory(
    alloc: Global,
    words: &[String],
    files: &mut MemoryFiles,
    out: &mut MemorySink,
    err: &mut MemorySink,
) -> Status
    requires words { map string_bytes words.now
        ≡ codes "replay" ∷ codes "a" ∷ codes "b" ∷ [] }
    requires empty_out { written_to out.old ≡ [] }
    requires empty_err { written_to err.old ≡ [] }

    ensures replay { (input trace : List ℕ)
        → held_under (entries_of files.old) (codes "a") ≡ Some input
        → held_under (entries_of files.old) (codes "b") ≡ Some trace
        → IfSome (replay_of_bytes input trace)
        (λ o. LeavesBytes o (written_to out.new) (written_to err.new) result) }
{
    run(alloc, words, files, out, err)
}

/// The words of the command.
fn replay_words(alloc: Global) -> Result<Vec<String>, NoMemory>
    ensures words { IfOk result (λ words. map string_bytes words.items
        ≡ codes "replay" ∷ codes "a" ∷ codes "b" ∷ []) }
{
    let mut words = Vec::new(alloc);
    words.push(String::from_str(alloc, "replay")?)?;
    words.push(String::from_str(alloc, "a")?)?;
    words.push(String::from_str(alloc, "b")?)?;
    Ok(words)
}

/// The input file under `a` and the trace under `b`.
fn two_files(
    alloc: Global,
    input: Vec<u8>,
    trace: Vec<u8>,
) -> Result<Vec<(String, Vec<u8>)>, NoMemory>
    ensures input { IfOk result (λ held. held_under held.items (codes "a") ≡ Some input.items) }
    ensures trace { IfOk result (λ held. held_under held.items (codes "b") ≡ Some trace.items) }
{
    let first = String::from_str(alloc, "a")?;
    let second = String::from_str(alloc, "b")?;
    let mut held = Vec::new(alloc);
    held.push((first, input))?;
    held.push((second, trace))?;
    Ok(held)
}
