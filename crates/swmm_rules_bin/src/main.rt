//! The program: the tool over the host's files and streams.
#![tactic(auto)]

use byte_edge::{HostFiles, HostSink};
use std::env;
use std::process::ExitCode;
use swmm_rules::run;

/// The status where the runtime does not give the program its words.
const NO_WORDS: u8 = 7;

fn main(rt: HostRuntime) -> ExitCode {
    let Ok(args) = env::args(&rt) else {
        return ExitCode::from(NO_WORDS);
    };
    let Ok(words) = args.skip(1).collect::<Vec<String>>(rt.alloc()) else {
        return ExitCode::from(NO_WORDS);
    };
    let mut files = HostFiles::new(&rt);
    let mut out = HostSink::new(rt.stdout());
    let mut err = HostSink::new(rt.stderr());
    let status = run(rt.alloc(), &words, &mut files, &mut out, &mut err);
    ExitCode::from(status.number())
}
