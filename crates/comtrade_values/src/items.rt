//! A list that contracts see as its items, and deep copies that can run out of memory.

ghost use Rattle.std.specs.Prelude.{◌≡◌, IfOk};

use crate::Memory;
use std::alloc::{Allocator, Global};
use std::marker::Model;

/// A list. Contracts see its items.
#[derive(Drop, Debug)]
pub struct Items<T, A: Allocator = Global> {
    list: Vec<T, A>,
}

impl<T, A: Allocator> Model for Items<T, A> {
    ghost use Rattle.std.specs.Prelude.{List};

    ghost Value = { List T };

    ghost view = { λ a. a.list.items };
}

impl<T: PartialEq, A: Allocator> PartialEq for Items<T, A> {
    ghost use Rattle.std.specs.Cmp.Lexicographic.{pointwise, lists_per};

    ghost eq = { λ x y. pointwise T.eq x y };

    ghost laws = { lists_per T.laws };

    fn eq(&self, other: &Self) -> bool {
        self.list == other.list
    }
}

impl<T, A: Allocator> Items<T, A> {
    /// Makes a list of a vector. Doesn't allocate.
    pub fn of(list: Vec<T, A>) -> Items<T, A>
        ensures { result ≡ list.items }
    {
        Items { list }
    }

    /// The items, in order.
    pub fn items(&self) -> &[T]
        ensures { result.now ≡ self.now }
    {
        self.list.as_slice()
    }

    /// The list as a vector. Doesn't allocate.
    pub fn into_vec(self) -> Vec<T, A>
        ensures { result.items ≡ self }
    {
        self.list
    }

    /// The allocator of the list.
    pub fn allocator(&self) -> &A {
        self.list.allocator()
    }
}

impl<T: Copy, A: Allocator + Copy> Items<T, A> {
    /// A deep copy, on the same allocator. `Memory`: an allocation failed.
    pub fn try_clone(&self) -> Result<Items<T, A>, Memory>
        ensures { IfOk result (λ copy. copy ≡ self.now) }
    {
        let list = Vec::from_slice(*self.list.allocator(), self.list.as_slice())?;
        Ok(Items { list })
    }
}

/// A type with a deep copy that can run out of memory.
pub trait TryClone: Drop {
    /// A deep copy, on the same allocator. `Memory`: an allocation failed.
    fn try_clone(&self) -> Result<Self, Memory>
        ensures { IfOk result (λ copy. copy ≡ self.now) };
}

/// A deep copy of each item, in order, in a list on `alloc`. `Memory`: an allocation failed.
pub fn copies_of<T: TryClone, A: Allocator + Copy>(
    alloc: A,
    list: &[T],
) -> Result<Items<T, A>, Memory>
    ensures { IfOk result (λ copies. copies ≡ list.now) }
{
    let mut copies = Vec::with_capacity(alloc, list.len())?;
    for item in list {
        copies.push(item.try_clone()?)?;
    }
    Ok(Items::of(copies))
}
