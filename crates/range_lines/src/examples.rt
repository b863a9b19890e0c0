//! Worked examples: each function is empty, and its contract is what was worked out by hand.
ghost use Rattle.range_lines.specs.examples.Files.{AreRead, AreFaults, AreNeeds, AreReports};

/// The ranges of some files.
pub fn read_files()
    ensures { AreRead }
{}

/// The first faults of some files.
pub fn faulty_lines()
    ensures { AreFaults }
{}

/// What files lack that rules need.
pub fn missing_needs()
    ensures { AreNeeds }
{}

/// How faults are reported.
pub fn reports()
    ensures { AreReports }
{}
