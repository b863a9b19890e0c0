//! Laws of words: each function is empty, and its contract is the law. Of each table just the texts
//! of its words are read, ignoring case, each as its own word; so no item is read as two words, and
//! what is written is read back.
ghost use Rattle.std.specs.Prelude.{◌≡◌, ℕ, List, ◌↔◌, IsTrue, Some, None, codes};
ghost use Rattle.exact_fraction.specs.declared.relation.Relation.{Relation};
ghost use Rattle.exact_fraction.specs.declared.relation.Relation.TheVariants as relation;
ghost use Rattle.object_index.specs.examples.Objects.{network};
ghost use Rattle.rule_types.specs.declared.object.ObjectWord.{ObjectWord};
ghost use Rattle.rule_types.specs.declared.object.ObjectWord.TheVariants as word;
ghost use Rattle.rule_types.specs.declared.object.Space.TheVariants as spaces;
ghost use Rattle.rule_types.specs.declared.key.Attr.{Attr};
ghost use Rattle.rule_types.specs.declared.key.Attr.TheVariants as attribute;
ghost use Rattle.rule_types.specs.declared.key.ClockAttr.{ClockAttr};
ghost use Rattle.rule_types.specs.declared.key.ClockAttr.TheVariants as clock_attribute_is;
ghost use Rattle.rule_types.specs.declared.key.Key.TheVariants.{Object, Clock};
ghost use Rattle.key_words.specs.declared.status.StatusWord.{StatusWord};
ghost use Rattle.key_words.specs.declared.status.StatusWord.TheVariants as status;
ghost use Rattle.key_words.specs.Words.{is_word, object_text, object_word, has_word};
ghost use Rattle.key_words.specs.Words.{attribute_text, attribute_named, attribute_of};
ghost use Rattle.key_words.specs.Words.{clock_text, clock_attribute, relation_text, relation_of};
ghost use Rattle.key_words.specs.Words.{status_text, status_word};
ghost use Rattle.key_words.specs.KeyTexts.{key_text};

/// The words of objects.
pub fn objects()
    ensures exact { (item : List ℕ) (w : ObjectWord)
        → (object_word item ≡ Some w) ↔ IsTrue (is_word item (object_text w)) }
    ensures back { (w : ObjectWord) → object_word (object_text w) ≡ Some w }
{}

/// The words of the attributes of objects: those of the manual, and `n-HR_DEPTH` for n from 1 to
/// 48.
pub fn attributes()
    ensures exact { (item : List ℕ) (a : Attr) → (attribute_named item ≡ Some a)
        ↔ (IsTrue (is_word item (attribute_text a)) × IsTrue (has_word a)) }
    ensures back { (a : Attr) → IsTrue (has_word a) → attribute_named (attribute_text a) ≡ Some a }
{}

/// The words of the clock's attributes.
pub fn clock()
    ensures exact { (item : List ℕ) (a : ClockAttr)
        → (clock_attribute item ≡ Some a) ↔ IsTrue (is_word item (clock_text a)) }
    ensures back { (a : ClockAttr) → clock_attribute (clock_text a) ≡ Some a }
{}

/// The signs of relations.
pub fn relations()
    ensures exact { (item : List ℕ) (r : Relation)
        → (relation_of item ≡ Some r) ↔ IsTrue (is_word item (relation_text r)) }
    ensures back { (r : Relation) → relation_of (relation_text r) ≡ Some r }
{}

/// The words of statuses.
pub fn statuses()
    ensures exact { (item : List ℕ) (w : StatusWord)
        → (status_word item ≡ Some w) ↔ IsTrue (is_word item (status_text w)) }
    ensures back { (w : StatusWord) → status_word (status_text w) ≡ Some w }
{}

/// What some items are read as, worked out by hand.
#[tactic(auto, unfolding(crate::specs::Words::object_word, crate::specs::Words::clock_attribute, crate::specs::Words::relation_of, crate::specs::Words::status_word))]
pub fn word_examples()
    ensures pump { object_word (codes "Pump") ≡ Some word.Pump }
    ensures links { object_word (codes "LINKS") ≡ None }
    ensures simulation { object_word (codes "SIMULATION") ≡ None }
    ensures day { clock_attribute (codes "day") ≡ Some clock_attribute_is.Day }
    ensures clock_depth { clock_attribute (codes "DEPTH") ≡ None }
    ensures at_least { relation_of (codes ">=") ≡ Some relation.Ge }
    ensures turned { relation_of (codes "=>") ≡ None }
    ensures closed { status_word (codes "closed") ≡ Some status.Closed }
    ensures number { status_word (codes "1") ≡ None }
{}

/// What some attributes are read as, worked out by hand.
#[tactic(auto, unfolding(crate::specs::Words::attribute_named, crate::specs::Words::plain_attribute, crate::specs::Words::hour_depth, num_text::specs::Counts::count_of, num_text::specs::Fields::leading_digits, num_text::specs::Fields::past_digits))]
pub fn attribute_examples()
    ensures depth { attribute_named (codes "Depth") ≡ Some attribute.Depth }
    ensures one_hour { attribute_named (codes "1-HR_DEPTH") ≡ Some (attribute.HourDepth 1) }
    ensures two_days { attribute_named (codes "48-hr_depth") ≡ Some (attribute.HourDepth 48) }
    ensures no_hours { attribute_named (codes "0-HR_DEPTH") ≡ None }
    ensures more { attribute_named (codes "49-HR_DEPTH") ≡ None }
    ensures padded { attribute_named (codes "01-HR_DEPTH") ≡ None }
    ensures without { attribute_named (codes "-HR_DEPTH") ≡ None }
    ensures clock_time { attribute_named (codes "TIME") ≡ None }
    ensures of_node { attribute_of word.Node (codes "HEAD") ≡ Some attribute.Head }
    ensures of_pump { attribute_of word.Pump (codes "setting") ≡ Some attribute.Setting }
    ensures not_of_link { attribute_of word.Link (codes "HEAD") ≡ None }
    ensures not_of_node { attribute_of word.Node (codes "2-HR_DEPTH") ≡ None }
    ensures of_gage { attribute_of word.Gage (codes "2-HR_DEPTH") ≡ Some (attribute.HourDepth 2) }
{}

/// How some keys of a small network are written, worked out by hand: a pump is a LINK, and an
/// object that is not there has no name.
pub fn key_examples()
    ensures node { key_text network
        (Object (record { space = spaces.Nodes; index = 0 }) attribute.Depth)
        ≡ codes "NODE J1 DEPTH" }
    ensures pump { key_text network
        (Object (record { space = spaces.Links; index = 1 }) attribute.TimeOpen)
        ≡ codes "LINK p1 TIMEOPEN" }
    ensures gage { key_text network
        (Object (record { space = spaces.Gages; index = 0 }) (attribute.HourDepth 12))
        ≡ codes "GAGE R1 12-HR_DEPTH" }
    ensures moment { key_text network (Clock clock_attribute_is.DayOfYear)
        ≡ codes "SIMULATION DAYOFYEAR" }
{}
