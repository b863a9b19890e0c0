//! Laws of the definitions. Each function here does nothing: its contract states laws for the
//! proofs of the crates above.
ghost use Rattle.std.specs.Prelude.{◌≡◌, false, List, AllPairs, All, filter, IfOk};
ghost use Rattle.std.specs.Str.{bytes_eq};
ghost use Rattle.inp_text.specs.declared.source_line.SourceLine.{SourceLine};
ghost use Rattle.curves_series.specs.Groups.{name_of, groups_of};
ghost use Rattle.curves_series.specs.Reading.{tables_in, HavePoints};

/// The tables of a section have different names, and the lines of each are those that begin with
/// its name, in their order.
pub fn tables_of_lines()
    ensures names { (lines : List SourceLine)
        → AllPairs (λ one later. bytes_eq one.name later.name ≡ false) (groups_of lines) }
    ensures lines { (lines : List SourceLine) → All (λ group. group.lines
        ≡ filter (λ line. bytes_eq (name_of line) group.name) lines) (groups_of lines) }
{}

/// Each table that is read has at least one point, and its x rise strictly.
pub fn points_of_tables()
    ensures points { (controls curves series : List SourceLine)
        → IfOk (tables_in controls curves series) HavePoints }
{}
