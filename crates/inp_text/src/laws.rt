//! Laws of the definitions that the contracts cite: each function is empty, and its contract is the
//! law.
ghost use Rattle.std.specs.Prelude.{◌≡◌, ◌<◌, ◌↔◌, ℕ, Bool, false, ◌&&◌, ◌||◌, List};
ghost use Rattle.std.specs.Prelude.{length, filter, map, reverse, All, AllPairs, Contains};
ghost use Rattle.inp_text.specs.Headings.{is_kind};
ghost use Rattle.inp_text.specs.Items.{before_comment, items, texts_at, item_places};
ghost use Rattle.inp_text.specs.Items.{IsLongestRun, IsPlace};
ghost use Rattle.inp_text.specs.examples.Items.{AreItems, AreControlBytes};
ghost use Rattle.inp_text.specs.examples.Headings.{AreRead, AreUnread};
ghost use Rattle.inp_text.specs.examples.Sections.{AreSections};
ghost use Rattle.inp_text.specs.Sections.{Line, section_lines};
ghost use Rattle.inp_text.specs.Belonging.{numbered, belongs, IsLineOf};
ghost use Rattle.inp_text.specs.Merging.{in_section, lines_in, merged};
ghost use Rattle.inp_text.specs.declared.line.Span.{Span};
ghost use Rattle.inp_text.specs.declared.section_kind.SectionKind.{SectionKind};
ghost use Rattle.inp_text.specs.declared.source_line.SourceLine.{SourceLine};

/// The items and the control bytes of some lines, worked out by hand.
#[tactic(auto, unfolding(crate::specs::Items::item_places))]
pub fn item_examples()
    ensures items { AreItems }
    ensures control_bytes { AreControlBytes }
{}

/// The heading of each section that is read, and lines that open none of them, worked out by hand.
#[tactic(auto, unfolding(crate::specs::Headings::heads, crate::specs::Headings::section_named))]
pub fn heading_examples()
    ensures read { AreRead }
    ensures unread { AreUnread }
{}

/// The sections of a small file and their lines, worked out by hand.
#[tactic(auto, unfolding(crate::specs::Headings::heads, crate::specs::Headings::section_named))]
pub fn section_examples()
    ensures { AreSections }
{}

/// The places of the items of a line are exactly the longest runs of bytes other than blanks before
/// its comment; they rise, with a byte or more between one and the next, lie in the line, and the
/// texts there are its items.
pub fn places_of_items()
    ensures runs { (line : List ℕ) (place : Span)
        → Contains (item_places line) place ↔ IsLongestRun (before_comment line) place }
    ensures order { (line : List ℕ)
        → AllPairs (λ place later. place.end < later.start) (item_places line) }
    ensures texts { (line : List ℕ) → texts_at line (item_places line) ≡ items line }
    ensures within { (line : List ℕ) → All (IsPlace (length line)) (item_places line) }
{}

/// The lines kept of a section are the lines of the file that have items, are no headings, and have
/// a heading of that section as the nearest heading above them; in their order, each with its
/// number (SWMM 5.2 manual, appendix D).
pub fn kept_lines()
    ensures kept { (file : List Line) (kind : SectionKind)
        → section_lines kind (reverse file) ≡ filter (belongs kind file) (numbered file) }
    ensures members { (file : List Line) (kind : SectionKind) (line : SourceLine)
        → Contains (section_lines kind (reverse file)) line ↔ IsLineOf kind file line }
    ensures order { (file : List Line) (kind : SectionKind)
        → AllPairs (λ line later. line.number < later.number)
        (section_lines kind (reverse file)) }
{}

/// The lines of several sections in the order of the file are those of each section, merged by
/// number: so a reader of several sections takes their lines one list after the other.
pub fn merged_lines()
    ensures one { (file : List Line) (kind : SectionKind)
        → lines_in (is_kind kind) file ≡ map (in_section kind) (section_lines kind (reverse file)) }
    ensures either { (file : List Line) (one other : SectionKind → Bool)
        → ((kind : SectionKind) → (one kind && other kind) ≡ false)
        → merged (lines_in one file) (lines_in other file)
        ≡ lines_in (λ kind. one kind || other kind) file }
    ensures order { (file : List Line) (test : SectionKind → Bool)
        → AllPairs (λ found later. found.line.number < later.line.number) (lines_in test file) }
{}
