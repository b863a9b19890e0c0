//! The kinds of files, each with its slot and its limits.
use crate::role::Role;

/// What a file is, where it is opened, and how long it may be.
#[derive(Clone, Copy, Debug)]
pub struct FileKind {
    pub role: Role,
    /// The slot that it is opened in.
    pub slot: usize,
    /// The most bytes of a line, without its end.
    pub limit: usize,
    /// The most bytes of the file.
    pub budget: u64,
}

/// The input file: 64 MiB, lines of 4,096 bytes.
pub const INPUT_FILE: FileKind = FileKind {
    role: Role::Input,
    slot: 0,
    limit: 4_096,
    budget: 67_108_864,
};

/// The trace: 4 GiB, lines of 65,536 bytes.
pub const TRACE_FILE: FileKind = FileKind {
    role: Role::Trace,
    slot: 1,
    limit: 65_536,
    budget: 4_294_967_296,
};

/// The ranges: 64 MiB, lines of 4,096 bytes.
pub const RANGES_FILE: FileKind = FileKind {
    role: Role::Ranges,
    slot: 1,
    limit: 4_096,
    budget: 67_108_864,
};

/// The report: 256 MiB, lines of 8,192 bytes.
pub const REPORT_FILE: FileKind = FileKind {
    role: Role::Report,
    slot: 2,
    limit: 8_192,
    budget: 268_435_456,
};
