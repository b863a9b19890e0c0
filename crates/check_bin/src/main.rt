//! The program of `check` over the host's files and streams. It stands on the libraries that read an
//! input file, so that it is built first.
#![tactic(auto)]

use byte_edge::{HostFiles, HostSink};
use check_run::run_check;
use std::env;
use std::process::ExitCode;

/// The status where the runtime does not give the program its words.
const NO_WORDS: u8 = 7;

/// The status where the words are another command, or none: the whole tool answers them.
const OTHER_WORDS: u8 = 8;

fn main(rt: HostRuntime) -> ExitCode {
    let Ok(args) = env::args(&rt) else {
        return ExitCode::from(NO_WORDS);
    };
    let Ok(words) = args.skip(1).collect::<Vec<String>>(rt.alloc()) else {
        return ExitCode::from(NO_WORDS);
    };
    let mut files = HostFiles::new(&rt);
    let mut out = HostSink::new(rt.stdout());
    let mut err = HostSink::new(rt.stderr());
    match run_check(rt.alloc(), &words, &mut files, &mut out, &mut err) {
        None => ExitCode::from(OTHER_WORDS),
        Some(status) => ExitCode::from(status.number()),
    }
}
