//! Pushes that take no memory.
ghost use Rattle.std.specs.Prelude.{◌≡◌, [], ◌∷◌, ◌++◌, ◌↔◌, ◌<◌, ◌+◌, IsOk, OnOk, OnErr, IfErr};
ghost use Rattle.std.specs.Vec.{vec_len, vec_capacity};

/// Adds an item at the end of a `Vec` that has room for it: it takes no memory. Without room the
/// `Vec` is as before, and the item comes back.
pub fn push_within_capacity<T>(items: &mut Vec<T>, item: T) -> Result<(), T>
    ensures pushed { OnOk result (items.new.items ≡ items.old.items ++ item ∷ []) }
    ensures kept { OnErr result (items.new.items ≡ items.old.items) }
    ensures returned { IfErr result (λ back. back ≡ item) }
    ensures room { IsOk result ↔ (vec_len items.old < vec_capacity items.old) }
    ensures capacity { vec_capacity items.new ≡ vec_capacity items.old }
    ensures longer { OnOk result (vec_len items.new ≡ vec_len items.old + 1) }
    ensures as_long { OnErr result (vec_len items.new ≡ vec_len items.old) }
{
    if items.capacity() <= items.len() {
        return Err(item);
    }
    items.push_reserved(item);
    Ok(())
}
