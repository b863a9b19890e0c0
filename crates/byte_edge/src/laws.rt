//! Laws of lines and of calls of devices, which callers can cite. The functions here do nothing:
//! their contracts are the laws.
ghost use Rattle.std.specs.Prelude.{◌≡◌, ◌<◌, ◌≤◌, ℕ, Bool, List, [], ◌∷◌, ◌++◌, length, map, take, Option, false, codes};
ghost use Rattle.std.specs.List.{concat};
ghost use Rattle.std.specs.Io.KnownBytes.{Appends};
ghost use Rattle.byte_edge.specs.Devices.{AppendsPrefix, IsCallOn};
ghost use Rattle.byte_edge.specs.Lines.{raw_lines, lines, line_text, line_events, line_event_of, AreLines, Whole, OverLong, PastBudget};
ghost use Rattle.byte_edge.specs.ReaderState.{ReaderState, KnowsEnd};

use super::Files;

/// The lines of some bytes give the bytes when they are joined, each but the last ends with its
/// only LF, and none is empty.
pub fn lines_join(bytes: &[u8])
    ensures joined { concat (raw_lines bytes.now) ≡ bytes.now }
    ensures cut { AreLines (raw_lines bytes.now) }
{}

/// Within the budget each line is reported by itself, and past it the first lines are, and then
/// that the budget is passed.
pub fn line_events_within_budget(limit: usize, budget: u64, bytes: &[u8])
    ensures within { length bytes.now ≤ budget → line_events limit budget (raw_lines bytes.now)
        ≡ map (line_event_of limit) (raw_lines bytes.now) }
    ensures past { budget < length bytes.now → (count : ℕ) ×
        (line_events limit budget (raw_lines bytes.now)
        ≡ map (line_event_of limit) (take count (raw_lines bytes.now)) ++ PastBudget ∷ []) }
{}

/// Lines worked out by hand.
pub fn line_examples()
    ensures two_returns { lines (codes "a\r\r\nb") ≡ codes "a\r" ∷ codes "b" ∷ [] }
    ensures return_at_end { lines (codes "a\nb\r") ≡ codes "a" ∷ codes "b" ∷ [] }
    ensures return_inside { lines (codes "a\rb\n") ≡ codes "a\rb" ∷ [] }
    ensures feed_at_end { lines (codes "a\nb\n") ≡ codes "a" ∷ codes "b" ∷ [] }
    ensures empty_lines { lines (codes "\n\r\n") ≡ [] ∷ [] ∷ [] }
    ensures empty_file { lines [] ≡ [] }
    ensures text { line_text (codes "ab\r\n") ≡ codes "ab" }
{}

/// What a reader reports of four lines of at most two bytes each, where a line is too long, and
/// where the budget ends before the last one.
pub fn line_event_examples()
    ensures too_long { line_events 2 12 (raw_lines (codes "ab\r\nabc\nd\ne"))
        ≡ Whole (codes "ab") ∷ OverLong ∷ Whole (codes "d") ∷ Whole (codes "e") ∷ [] }
    ensures past_budget { line_events 2 10 (raw_lines (codes "ab\r\nabc\nd\ne"))
        ≡ Whole (codes "ab") ∷ OverLong ∷ Whole (codes "d") ∷ PastBudget ∷ [] }
    ensures past_at_once { line_events 2 3 (raw_lines (codes "ab\r\n")) ≡ PastBudget ∷ [] }
{}

/// Calls on one slot, one after the other: calls that did not fail, and then one more, leave
/// together what one call leaves.
pub fn calls_on_slot<F: Files>()
    ensures none { (slot : ℕ) (files : F) → IsCallOn slot false
        (F.is_open files) (F.is_open files) (F.held files) (F.held files)
        (F.left files) (F.left files) (F.faults files) (F.faults files) }
    ensures then { (slot : ℕ) (fails : Bool) (was mid now : F)
        → IsCallOn slot false (F.is_open was) (F.is_open mid) (F.held was) (F.held mid)
        (F.left was) (F.left mid) (F.faults was) (F.faults mid)
        → IsCallOn slot fails (F.is_open mid) (F.is_open now) (F.held mid) (F.held now)
        (F.left mid) (F.left now) (F.faults mid) (F.faults now)
        → IsCallOn slot fails (F.is_open was) (F.is_open now) (F.held was) (F.held now)
        (F.left was) (F.left now) (F.faults was) (F.faults now) }
{}

/// What several writes add to the bytes written.
pub fn written_bytes()
    ensures nothing { (written : Option (List ℕ)) → Appends written written [] }
    ensures then { (was mid now : Option (List ℕ)) (first second : List ℕ)
        → Appends was mid first → Appends mid now second → Appends was now (first ++ second) }
    ensures same { (was now : Option (List ℕ)) (text other : List ℕ)
        → text ≡ other → Appends was now text → Appends was now other }
    ensures prefix { (was now : Option (List ℕ)) (text rest : List ℕ)
        → Appends was now text → AppendsPrefix was now (text ++ rest) }
    ensures prefix_after { (was mid now : Option (List ℕ)) (text piece rest : List ℕ)
        → Appends was mid text → AppendsPrefix mid now piece
        → AppendsPrefix was now (text ++ (piece ++ rest)) }
{}

/// What a reader knows of the end of its slot, by the number of the slot.
pub fn known_end()
    ensures at_slot { (was now : ℕ → Option (List ℕ)) (slot number : ℕ) (old new : ReaderState)
        → slot ≡ number → (KnowsEnd old (was slot) → KnowsEnd new (now slot))
        → KnowsEnd old (was number) → KnowsEnd new (now number) }
{}
