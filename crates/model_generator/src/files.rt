//! The two files of the generated model.
ghost use Rattle.std.specs.Prelude.{◌≡◌, ◌≤◌, IfOk};
ghost use Rattle.model_generator.specs.InputFile.{generated_input};
ghost use Rattle.model_generator.specs.Trace.{generated_trace};

use crate::input::input_bytes;
use crate::trace::trace_bytes;
use byte_edge::NoMemory;
use std::alloc::Global;

/// The input file and the trace of the model of `n` pumps, from 1 to 1,000: the bytes of an input
/// file with a junction, a pump and three rules for each number from 1 to `n` (its format is that
/// of the SWMM 5.2 manual, appendix D), and of a trace of ten rows for each pump. NoMemory only
/// where memory is wanting. The trace has some 20 `n`² bytes, and the input file some 200 `n`.
pub fn gen_files(alloc: Global, n: u32) -> Result<(Vec<u8>, Vec<u8>), NoMemory>
    requires least { 1 ≤ n }
    requires most { n ≤ 1000 }
    ensures input { IfOk result (λ files. files.0.items ≡ generated_input n) }
    ensures trace { IfOk result (λ files. files.1.items ≡ generated_trace n) }
{
    let input = input_bytes(alloc, n)?;
    let trace = trace_bytes(alloc, n)?;
    Ok((input, trace))
}
