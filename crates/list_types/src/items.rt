//! Lists.
ghost use Rattle.std.specs.Prelude.{◌≡◌, [], ◌∷◌, ◌++◌, ◌↔◌, ◌<◌, length, slice_get, slice_set};
ghost use Rattle.std.specs.Prelude.{IsTrue, Some, OnSome, OnOk, OnErr, IfErr};
ghost use Rattle.std.specs.List.{AllZip};
ghost use Rattle.std.specs.Option.{option_copied};
ghost use Rattle.std.specs.Cmp.Lexicographic.{pointwise, lists_equiv, lists_per};

use std::alloc::{AllocError, AllocFailed, Global};
use std::marker::Model;
use std::mem;

/// A list that is made from a `Vec` and gives it back, and that contracts see as the list of its
/// items.
#[derive(Debug, Drop)]
pub struct Items<T> {
    items: Vec<T>,
}

/// A text of bytes.
pub type Bytes = Items<u8>;

impl<T> Model for Items<T> {
    ghost use Rattle.std.specs.Prelude.{List};
    ghost use Rattle.std.specs.Coded.{coded_list};

    ghost Value = { List T };

    ghost coded = { coded_list T.code };

    ghost view = { λ list. list.items.items };
}

impl<T> Items<T> {
    /// The empty list, which takes no memory.
    pub fn new(alloc: Global) -> Items<T>
        ensures value { result ≡ [] }
    {
        Items {
            items: Vec::new(alloc),
        }
    }

    /// The list of what `items` holds, with its memory.
    pub fn from_vec(items: Vec<T>) -> Items<T>
        ensures value { result ≡ items.items }
    {
        Items { items }
    }

    /// The `Vec` of these items, with their memory.
    pub fn into_vec(self) -> Vec<T>
        ensures value { result.items ≡ self }
    {
        let Items { items } = self;
        items
    }

    /// The items, in their order.
    pub fn as_slice(&self) -> &[T]
        ensures value { result.now ≡ self.now }
    {
        self.items.as_slice()
    }

    /// The number of items.
    pub fn len(&self) -> usize
        ensures value { result ≡ length self.now }
    {
        self.items.len()
    }

    /// Whether there is no item.
    pub fn is_empty(&self) -> bool
        ensures value { IsTrue result ↔ (self.now ≡ []) }
    {
        self.items.is_empty()
    }

    /// The item at `at`, counted from 0, or None past the end.
    pub fn get(&self, at: usize) -> Option<&T>
        ensures value { option_copied result ≡ slice_get self.now at }
        ensures within { OnSome result (at < length self.now) }
    {
        self.items.get(at)
    }

    /// Adds an item at the end, in about the same time however many items there are. It fails only
    /// where memory is wanting: the list is then as before, and the item comes back in the error.
    pub fn push(&mut self, item: T) -> Result<(), AllocFailed<T>>
        ensures pushed { OnOk result (self.new ≡ self.old ++ item ∷ []) }
        ensures kept { OnErr result (self.new ≡ self.old) }
        ensures returned { IfErr result (λ failed. failed.value ≡ item) }
    {
        self.items.push(item)
    }

    /// Puts an item at `at`, counted from 0, in place of the one there, which it returns. It takes
    /// no memory.
    pub fn set(&mut self, at: usize, item: T) -> T
        requires within { at < length self.old }
        ensures items { self.new ≡ slice_set self.old at item }
        ensures replaced { slice_get self.old at ≡ Some result }
    {
        mem::replace(&mut self.items[at], item)
    }
}

/// A copy takes memory, and holds a clone of each item.
impl<T: Clone> Clone for Items<T> {
    ghost is_clone = { λ list copy. AllZip T.is_clone list copy × (length copy ≡ length list) };

    fn clone(&self) -> Result<Items<T>, AllocError> {
        let items = self.items.clone()?;
        Ok(Items { items })
    }
}

/// Two lists are equal where they are equally long and their items are equal, place by place.
impl<T: PartialEq> PartialEq for Items<T> {
    ghost eq = { λ list other. pointwise T.eq list other };

    ghost laws = { lists_per T.laws };

    fn eq(&self, other: &Self) -> bool {
        self.items == other.items
    }
}

impl<T: Eq> Eq for Items<T> {
    ghost laws = { lists_equiv T.Eq.laws };
}
