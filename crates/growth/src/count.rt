//! Numbers that contracts alone see.

ghost use Rattle.std.specs.Prelude.{◌≡◌, ◌+◌, ℕ};
ghost use Rattle.std.specs.Borrow.{ftrue};

use std::marker::Model;

/// A number that contracts alone see. It takes no bytes, and its functions do nothing at run time.
#[derive(Drop)]
pub struct Count {
    pub ghost number: { ℕ },
}

impl Model for Count {
    ghost also_owns = { λ _. ftrue };
}

impl Count {
    /// The number of a value.
    pub fn of(_number: &usize) -> Count
        ensures { result.number ≡ _number.now }
    {
        Count {}
    }

    /// The sum of two.
    pub fn both(_first: &Count, _second: &Count) -> Count
        ensures { result.number ≡ _first.now.number + _second.now.number }
    {
        Count {}
    }
}
