//! Laws of the definitions that the contracts cite: each function is empty, and its contract is the
//! law.
ghost use Rattle.std.specs.Prelude.{◌≡◌, ℕ, List, Ok};
ghost use Rattle.rule_types.specs.declared.object.ObjectNo.{ObjectNo};
ghost use Rattle.rule_types.specs.declared.object.ObjectWord.{ObjectWord};
ghost use Rattle.object_index.specs.examples.Names.{AreFinds};
ghost use Rattle.object_index.specs.examples.Objects.{AreExamples, AreHeld};
ghost use Rattle.object_index.specs.Holding.{HoldsObject};
ghost use Rattle.object_index.specs.Objects.{Objects, resolution};

/// What some names find in a table, worked out by hand.
pub fn find_examples()
    ensures { AreFinds }
{}

/// What some words and names give, worked out by hand.
pub fn examples()
    ensures { AreExamples }
{}

/// Whether a small network has the objects that some rules name, worked out by hand.
pub fn held_examples()
    ensures { AreHeld }
{}

/// What a word and a name give is an object of the network.
pub fn resolved_objects()
    ensures held { (objects : Objects) (word : ObjectWord) (name : List ℕ) (object : ObjectNo)
        → resolution objects word name ≡ Ok object → HoldsObject objects object }
{}
