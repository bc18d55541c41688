//! What stands in a prover's code beside the transforms, over any field that has it (`FieldOps`) and over named ones:
//! operators that change an element in its place, squares, sums and products of iterators, powers, and printed elements.
//!
//! Proved: that each can be called, and what those with a clause return. Tests show the numbers and texts of the rest.

ghost use Rattle.std.specs.Prelude.{◌≡◌, ◌↔◌, ◌<◌, ◌≤◌, ℕ, IfOk, IfSome, IsNone, OnErr, Ok, map, get_or, vec_len};
ghost use Rattle.std.specs.Mem.{type_size};
ghost use Rattle.growth.specs.Refusals.{WasRefused};
ghost use Rattle.p3_field.specs.Ring.{count, minus, power, product_of, sum_of};

use p3_dft::{BabyBear, CanonicalField, Field, FieldOps, Goldilocks, Refused, TwoAdicField};
use std::alloc::{AllocError, Global};
use std::cmp::Ordering;

/// The square of a difference.
pub fn squared_distance<F: FieldOps>(a: F, b: F) -> F
    ensures { F.value result ≡ F.ring.mul (minus F.ring (F.value a) (F.value b))
        (minus F.ring (F.value a) (F.value b)) }
{
    let mut difference = a;
    difference -= b;
    difference.square()
}

/// Which of two elements comes first. Their values alone decide it.
pub fn compared<F: Field>(a: F, b: F) -> Ordering
    ensures { (c d : F) → F.value c ≡ F.value a → F.value d ≡ F.value b → F.cmp c d ≡ result }
{
    a.cmp(&b)
}

/// The value of `3 x + 2` at a point.
pub fn line_at(x: Goldilocks) -> Goldilocks {
    let mut y = Goldilocks::from(3u8);
    y *= x;
    y += Goldilocks::TWO;
    y
}

/// The element with this number, if there is one: that many ones added up, over any field.
pub fn numbered<F: CanonicalField>(number: u64) -> Option<F>
    ensures value { IfSome result (λ x. F.value x ≡ count F.ring number) }
    ensures none { IsNone result ↔ F.ORDER_U64 ≤ number }
{
    F::new(number)
}

/// A clone of an element over a named field.
pub fn cloned(x: BabyBear) -> Result<BabyBear, AllocError>
    ensures { result ≡ Ok x }
{
    x.clone()
}

/// The sum of a slice.
pub fn total<F: TwoAdicField + FieldOps>(elements: &[F]) -> F
    ensures { F.value result ≡ sum_of F.ring (map F.value elements.now) }
{
    elements.iter().copied().sum()
}

/// The product of a slice.
pub fn all_multiplied<F: FieldOps>(elements: &[F]) -> F
    ensures { F.value result ≡ product_of F.ring (map F.value elements.now) }
{
    elements.iter().copied().product()
}

/// The sum of the squares of a slice.
pub fn total_of_squares(elements: &[BabyBear]) -> BabyBear {
    elements.iter().map(|x| x.square()).sum()
}

/// The first n powers of an element, from `start` on.
pub fn first_powers<F: Field>(alloc: Global, base: F, start: F, n: usize) -> Result<Vec<F>, Refused>
    ensures long { IfOk result (λ v. vec_len v ≡ n) }
    ensures powers { IfOk result (λ v. (i : ℕ) → i < n → F.value (get_or v.items i F.zero)
        ≡ F.ring.mul (F.value start) (power F.ring (F.value base) i)) }
    ensures room { OnErr result (WasRefused (type_size F.row) n) }
{
    base.shifted_powers(start).collect_n(alloc, n)
}

/// The sum of the first n powers of an element.
pub fn geometric_sum(base: BabyBear, n: usize) -> BabyBear {
    base.powers().take(n).sum()
}

/// The numbers of a slice, as a failed comparison prints them.
pub fn text_of<F: FieldOps>(alloc: Global, elements: &[F]) -> Result<String, AllocError> {
    format!(in alloc; "{elements:?}")
}

/// The number of an element, in eight places.
pub fn aligned_text_of<F: FieldOps>(alloc: Global, element: F) -> Result<String, AllocError> {
    format!(in alloc; "{element:>8}")
}
