//! Powers of an element, one after another.

ghost use Rattle.std.specs.Prelude.{◌≡◌, ◌<◌, ◌≤◌, ℕ, Some, IfOk, OnErr, length, get_or, vec_len};
ghost use Rattle.std.specs.Mem.{type_size};
ghost use Rattle.growth.specs.Refusals.{WasRefused};
ghost use Rattle.p3_field.specs.Ring.{power};

use crate::fields::Field;
use growth::Refused;
use std::alloc::Global;

/// An element, and its products with a base, with the base's square, and so on, without end: item i is
/// the product of the element and the i-th power of the base.
#[derive(Clone, Copy, Debug)]
pub struct Powers<F> {
    base: F,
    current: F,
}

impl<F: Field> Powers<F> {
    /// From this element on.
    pub fn new(base: F, start: F) -> Powers<F>
        ensures base { result.base ≡ base }
        ensures start { result.current ≡ start }
    {
        Powers {
            base,
            current: start,
        }
    }

    /// Writes the first items over a slice, as many as it has places. Takes no memory.
    pub fn fill(self, to: &mut [F])
        ensures long { length to.new ≡ length to.old }
        ensures powers { (i : ℕ) → i < length to.old → F.value (get_or to.new i F.zero)
            ≡ F.ring.mul (F.value self.current) (power F.ring (F.value self.base) i) }
    {
        let base = self.base;
        let mut current = self.current;
        for i in 0..to.len() {
            to[i] = current;
            current = current * base;
        }
    }

    /// The first n items, in memory for n of them.
    pub fn collect_n(self, alloc: Global, n: usize) -> Result<Vec<F>, Refused>
        ensures long { IfOk result (λ v. vec_len v ≡ n) }
        ensures powers { IfOk result (λ v. (i : ℕ) → i < n → F.value (get_or v.items i F.zero)
            ≡ F.ring.mul (F.value self.current) (power F.ring (F.value self.base) i)) }
        ensures room { OnErr result (WasRefused (type_size F.row) n) }
    {
        let mut powers = growth::with_capacity(alloc, n)?;
        let base = self.base;
        let mut current = self.current;
        for _i in 0..n {
            powers.push_reserved(current);
            current = current * base;
        }
        Ok(powers)
    }
}

impl<F: Field> Iterator for Powers<F> {
    type Item = F;

    ghost next_gives = { λ s r t. (r ≡ Some s.current) × (t.base ≡ s.base)
        × (F.value t.current ≡ F.ring.mul (F.value s.current) (F.value s.base)) };

    fn next(&mut self) -> Option<F> {
        let power = self.current;
        self.current = self.current * self.base;
        Some(power)
    }
}
