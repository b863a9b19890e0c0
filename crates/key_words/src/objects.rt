//! Words of objects.
ghost use Rattle.std.specs.Prelude.{◌≡◌};
ghost use Rattle.key_words.specs.Words.{is_word, object_text, object_word};
ghost use Rattle.key_words.specs.Words.{simulation_text as simulation};

use rule_types::ObjectWord;

/// The object word that an item is, ignoring the case of ASCII letters: None exactly where it is
/// none (SWMM 5.2 manual, [CONTROLS]).
#[tactic(auto, unfolding(crate::specs::Words::object_word))]
pub fn read_object_word(item: &[u8]) -> Option<ObjectWord>
    ensures value { result ≡ object_word item.now }
{
    if item.eq_ignore_ascii_case(b"GAGE") {
        return Some(ObjectWord::Gage);
    }
    if item.eq_ignore_ascii_case(b"NODE") {
        return Some(ObjectWord::Node);
    }
    if item.eq_ignore_ascii_case(b"LINK") {
        return Some(ObjectWord::Link);
    }
    if item.eq_ignore_ascii_case(b"CONDUIT") {
        return Some(ObjectWord::Conduit);
    }
    if item.eq_ignore_ascii_case(b"PUMP") {
        return Some(ObjectWord::Pump);
    }
    if item.eq_ignore_ascii_case(b"ORIFICE") {
        return Some(ObjectWord::Orifice);
    }
    if item.eq_ignore_ascii_case(b"WEIR") {
        return Some(ObjectWord::Weir);
    }
    if item.eq_ignore_ascii_case(b"OUTLET") {
        return Some(ObjectWord::Outlet);
    }
    None
}

/// The text of an object word.
pub fn object_word_text(word: ObjectWord) -> &'static [u8]
    ensures value { result.now ≡ object_text word }
{
    match word {
        ObjectWord::Gage => b"GAGE",
        ObjectWord::Node => b"NODE",
        ObjectWord::Link => b"LINK",
        ObjectWord::Conduit => b"CONDUIT",
        ObjectWord::Pump => b"PUMP",
        ObjectWord::Orifice => b"ORIFICE",
        ObjectWord::Weir => b"WEIR",
        ObjectWord::Outlet => b"OUTLET",
    }
}

/// Whether an item is the word SIMULATION, ignoring the case of ASCII letters.
pub fn is_simulation(item: &[u8]) -> bool
    ensures value { result ≡ is_word item.now simulation }
{
    item.eq_ignore_ascii_case(b"SIMULATION")
}

/// The word SIMULATION.
pub fn simulation_text() -> &'static [u8]
    ensures value { result.now ≡ simulation }
{
    b"SIMULATION"
}
