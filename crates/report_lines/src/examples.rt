//! Worked examples: each function is empty, and its contract is what was worked out by hand.
ghost use Rattle.report_lines.specs.examples.Files.{ArePieces, AreQuestions, AreReports, AreFaults};

/// What pieces are read.
pub fn pieces()
    ensures { ArePieces }
{}

/// What questions are read.
pub fn questions()
    ensures { AreQuestions }
{}

/// What some reports are read as.
pub fn reports()
    ensures { AreReports }
{}

/// Which lines of some reports are at fault.
pub fn faults()
    ensures { AreFaults }
{}
