//! Sums and products of the items of an iterator, for any type whose operator may be used on all its values:
//! what the `Sum` and `Product` of a new field can be made of.

ghost use Rattle.std.specs.Prelude.{List};
ghost use Rattle.std.specs.Iterator.{Drains, IsFinite};
ghost use Rattle.std.specs.List.{FoldsTo};

use std::ops::{Add, Mul};

/// Adds the items to `first`, one after another.
pub fn add_all<A: Copy + Add<A, Output = A>, I: Iterator<Item = A>>(first: A, iter: I) -> A
    requires can { I.can_next iter }
    requires finite { IsFinite (I.remaining iter) }
    requires adds { (a b : A) → A.can_add a b }
    ensures { (xs : List A) × Drains I.next_gives iter xs × FoldsTo A.add_gives first xs result }
{
    let mut sum = first;
    for x in iter {
        sum = sum + x;
    }
    sum
}

/// Multiplies `first` by the items, one after another.
pub fn multiply_all<A: Copy + Mul<A, Output = A>, I: Iterator<Item = A>>(first: A, iter: I) -> A
    requires can { I.can_next iter }
    requires finite { IsFinite (I.remaining iter) }
    requires multiplies { (a b : A) → A.can_mul a b }
    ensures { (xs : List A) × Drains I.next_gives iter xs × FoldsTo A.mul_gives first xs result }
{
    let mut product = first;
    for x in iter {
        product = product * x;
    }
    product
}
