//! Boxes.
ghost use Rattle.std.specs.Prelude.{◌≡◌, IfOk};

use std::alloc::{AllocError, Global};
use std::marker::Model;

/// A box that contracts see as its value, for a type that leads back to itself.
#[derive(Debug, Drop)]
pub struct Boxed<T> {
    inner: Box<T>,
}

impl<T> Model for Boxed<T> {
    ghost Value = { T };

    ghost coded = { T.code };

    ghost view = { λ b. b.inner.value };
}

impl<T> Boxed<T> {
    /// The value.
    pub fn get(&self) -> &T
        ensures value { result.now ≡ self.now }
    {
        &self.inner
    }

    /// The value, out of its box.
    pub fn into_inner(self) -> T
        ensures value { result ≡ self }
    {
        let Boxed { inner } = self;
        Box::into_inner(inner)
    }

    /// An allocator by which a copy is made: the one that the box came from. A box is seen as its
    /// value alone, so to a caller any allocator may come.
    pub fn allocator(&self) -> Global {
        *Box::allocator(&self.inner)
    }
}

impl<T: Drop> Boxed<T> {
    /// A box of `value`: AllocError only where memory is wanting.
    pub fn new(alloc: Global, value: T) -> Result<Boxed<T>, AllocError>
        ensures value { IfOk result (λ boxed. boxed ≡ value) }
    {
        Ok(Boxed {
            inner: Box::new(alloc, value)?,
        })
    }
}

/// A copy takes memory, and holds a clone of the value.
impl<T: Clone> Clone for Boxed<T> {
    ghost is_clone = { λ boxed copy. T.is_clone boxed copy };

    fn clone(&self) -> Result<Boxed<T>, AllocError> {
        let value = self.get().clone()?;
        Boxed::new(self.allocator(), value)
    }
}

/// Two boxes are equal where their values are.
impl<T: PartialEq> PartialEq for Boxed<T> {
    ghost eq = { λ boxed other. T.eq boxed other };

    ghost laws = { T.laws };

    fn eq(&self, other: &Self) -> bool {
        self.get() == other.get()
    }
}

impl<T: Eq> Eq for Boxed<T> {
    ghost laws = { T.Eq.laws };
}
