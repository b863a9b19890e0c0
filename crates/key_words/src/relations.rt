//! The signs of relations.
ghost use Rattle.std.specs.Prelude.{◌≡◌};
ghost use Rattle.key_words.specs.Words.{relation_text as text_of, relation_of};

use exact_fraction::relation::Relation;

/// The relation that an item is the sign of: None exactly where it is none of the six (SWMM 5.2
/// manual, [CONTROLS]).
#[tactic(auto, unfolding(crate::specs::Words::relation_of))]
pub fn read_relation(item: &[u8]) -> Option<Relation>
    ensures value { result ≡ relation_of item.now }
{
    if item.eq_ignore_ascii_case(b"=") {
        return Some(Relation::Eq);
    }
    if item.eq_ignore_ascii_case(b"<>") {
        return Some(Relation::Ne);
    }
    if item.eq_ignore_ascii_case(b"<") {
        return Some(Relation::Lt);
    }
    if item.eq_ignore_ascii_case(b"<=") {
        return Some(Relation::Le);
    }
    if item.eq_ignore_ascii_case(b">") {
        return Some(Relation::Gt);
    }
    if item.eq_ignore_ascii_case(b">=") {
        return Some(Relation::Ge);
    }
    None
}

/// The sign of a relation.
pub fn relation_text(relation: Relation) -> &'static [u8]
    ensures value { result.now ≡ text_of relation }
{
    match relation {
        Relation::Eq => b"=",
        Relation::Ne => b"<>",
        Relation::Lt => b"<",
        Relation::Le => b"<=",
        Relation::Gt => b">",
        Relation::Ge => b">=",
    }
}
