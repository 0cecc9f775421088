//! A box that can be emptied and filled again.
ghost use Rattle.std.specs.Prelude.{◌≡◌, IfOk};

use sb_laws::NoMemory;
use std::alloc::Global;
use std::marker::Model;

/// A `Box` inside a type that leads back to itself. Contracts see what is in it.
#[derive(Drop)]
pub struct Boxed<T> {
    inner: Box<T>,
}

impl<T> Model for Boxed<T> {
    ghost Value = { T };

    ghost coded = { T.code };

    ghost view = { λ boxed. boxed.inner.value };
}

impl<T> Boxed<T> {
    /// What is in the box, lent.
    pub fn get(&self) -> &T
        ensures { result.now ≡ self.now }
    {
        &self.inner
    }

    /// Puts a value into the box, and gives what was there. No memory is taken.
    pub fn replace(&mut self, value: T) -> T
        ensures before { result ≡ self.old }
        ensures after { self.new ≡ value }
    {
        std::mem::replace(&mut *self.inner, value)
    }

    /// What is in the box. No memory is taken.
    pub fn into_inner(self) -> T
        ensures { result ≡ self }
    {
        let Boxed { inner } = self;
        Box::into_inner(inner)
    }
}

impl<T: Drop> Boxed<T> {
    /// The value in a box of its own.
    pub fn new(alloc: Global, value: T) -> Result<Boxed<T>, NoMemory>
        ensures { IfOk result (λ boxed. boxed ≡ value) }
    {
        Ok(Boxed {
            inner: Box::new(alloc, value)?,
        })
    }
}
