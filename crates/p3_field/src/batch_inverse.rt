//! The inverses of many elements by one inversion.

ghost use Rattle.std.specs.Prelude.{◌≡◌, ◌+◌, ◌*◌, ◌<◌, ℕ, IfOk, IfSome, IsNone, OnErr, length, get_or, vec_len};
ghost use Rattle.std.specs.Mem.{type_size};
ghost use Rattle.growth.specs.Refusals.{WasRefused};
ghost use Rattle.p3_field.specs.Ring.{IsInverse, IsInvertible};

use crate::fields::Field;
use crate::packed::Products;
use growth::Refused;
use std::alloc::Global;

// The product of two elements, which is counted.
#[inline(always)]
fn counted_product<F: Field>(x: F, y: F, products: &mut Products) -> F
    ensures value { F.value result ≡ F.ring.mul (F.value x) (F.value y) }
    ensures count { products.new ≡ products.old + 1 }
{
    products.rise(1);
    x * y
}

/// The inverses of elements that all have one (`first_without_inverse` tells), in memory of their own.
///
/// It makes one inversion, and three products an element.
pub fn batch_multiplicative_inverse<F: Field>(alloc: Global, x: &[F]) -> Result<Vec<F>, Refused>
    requires { (i : ℕ) → i < length x.now → IsInvertible F.ring (F.value (get_or x.now i F.zero)) }
    ensures long { IfOk result (λ v. vec_len v ≡ length x.now) }
    ensures inverses { IfOk result (λ v. (i : ℕ) → i < length x.now →
        IsInverse F.ring (F.value (get_or x.now i F.zero)) (F.value (get_or v.items i F.zero))) }
    ensures room { OnErr result (WasRefused (type_size F.row) (length x.now)) }
{
    let mut inverses = growth::from_slice(alloc, x)?;
    batch_multiplicative_inverse_to(x, &mut inverses, &mut Products::new());
    Ok(inverses)
}

/// Writes the inverses of elements that all have one (`first_without_inverse` tells) over a slice of as many places.
/// Takes no memory.
///
/// It makes one inversion, of the product of all, and three products an element, which are counted: the slice first
/// takes the products of the elements before each, and then, from the last one on, each inverse.
pub fn batch_multiplicative_inverse_to<F: Field>(
    x: &[F],
    inverses: &mut [F],
    products: &mut Products,
)
    requires size { length inverses.old ≡ length x.now }
    requires invertible { (i : ℕ) → i < length x.now → IsInvertible F.ring (F.value (get_or x.now i F.zero)) }
    ensures inverses { (i : ℕ) → i < length x.now →
        IsInverse F.ring (F.value (get_or x.now i F.zero)) (F.value (get_or inverses.new i F.zero)) }
    ensures count { products.new ≡ products.old + 3 * length x.now }
{
    let mut product = F::ONE;
    for i in 0..x.len() {
        inverses[i] = product;
        product = counted_product(product, x[i], products);
    }
    let mut inverse = product.inverse();
    for i in (0..x.len()).rev() {
        inverses[i] = counted_product(inverses[i], inverse, products);
        inverse = counted_product(inverse, x[i], products);
    }
}

/// The place of the first element without an inverse, `None` where each has one. Takes no memory.
///
/// Where each has one, it makes one inversion: that of the product of all.
pub fn first_without_inverse<F: Field>(x: &[F]) -> Option<usize>
    ensures place { IfSome result (λ n. n < length x.now) }
    ensures none_there { IfSome result (λ n. ¬ (IsInvertible F.ring (F.value (get_or x.now n F.zero)))) }
    ensures before { IfSome result (λ n. (i : ℕ) → i < n →
        IsInvertible F.ring (F.value (get_or x.now i F.zero))) }
    ensures all { IsNone result → (i : ℕ) → i < length x.now →
        IsInvertible F.ring (F.value (get_or x.now i F.zero)) }
{
    let mut product = F::ONE;
    for i in 0..x.len() {
        product = product * x[i];
    }
    if product.try_inverse().is_some() {
        return None;
    }
    for i in 0..x.len() {
        if x[i].try_inverse().is_none() {
            return Some(i);
        }
    }
    None
}
