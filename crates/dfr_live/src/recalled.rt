//! A value as proofs recall it. It takes no memory, and does nothing in a program.

ghost use Rattle.std.specs.Prelude.{◌≡◌};
ghost use Rattle.std.specs.Borrow.{ftrue};

use std::marker::{Model, PhantomData};

/// What a value was. Clauses read it as `value`.
#[derive(Drop)]
pub(crate) struct Recalled<T> {
    of: PhantomData<T>,
    pub ghost value: { T },
}

impl<T> Model for Recalled<T> {
    ghost also_owns = { λ _. ftrue };
}

// It holds nothing of the value.
unsafe impl<T: Send> Send for Recalled<T> {}

impl<T> Recalled<T> {
    pub(crate) fn of(value: &T) -> Recalled<T>
        ensures { result.value ≡ value.now }
    {
        Recalled { of: PhantomData }
    }
}
