//! Multiplying all entries by one factor.

ghost use Rattle.std.specs.Prelude.{◌≡◌, ◌+◌, length, map};

use crate::dense::RowMajorMatrix;
use crate::packs::{full_packs, scale_packs, scale_packs_oop};
use crate::views::RowMajorMatrixViewMut;
use p3_field::{Packable, PackedField, Products};

/// Multiplies each value by t, with one product each.
// Never inlined: in its callers the loop is compiled for the worse, and inverses take longer.
#[inline(never)]
pub fn scale_slice_in_place<F: Packable>(values: &mut [F], t: F, products: &mut Products)
    ensures values { map F.value values.new ≡ map (λ x. F.ring.mul x (F.value t)) (map F.value values.old) }
    ensures count { products.new ≡ products.old + length values.old }
{
    if F::ONE_BY_ONE {
        scale_packs::<F, F>(values, t, products);
        return;
    }
    let full = full_packs(values.len(), F::Packing::WIDTH);
    let (packed, rest) = values.split_at_mut(full);
    scale_packs::<F, F::Packing>(packed, t, products);
    scale_packs::<F, F>(rest, t, products);
}

/// Writes each value times t to its place in another slice of the same length, with one product each.
pub fn scale_slice_oop<F: Packable>(from: &[F], to: &mut [F], t: F, products: &mut Products)
    requires { length from.now ≡ length to.old }
    ensures values { map F.value to.new ≡ map (λ x. F.ring.mul x (F.value t)) (map F.value from.now) }
    ensures count { products.new ≡ products.old + length from.now }
{
    let full = full_packs(from.len(), F::Packing::WIDTH);
    let (packed, rest) = from.split_at(full);
    let (to_packed, to_rest) = to.split_at_mut(full);
    scale_packs_oop::<F, F::Packing>(packed, to_packed, t, products);
    scale_packs_oop::<F, F>(rest, to_rest, t, products);
}

impl<F: Packable> RowMajorMatrix<F> {
    /// Multiplies each entry by t, with one product each.
    pub fn scale(&mut self, t: F, products: &mut Products)
        ensures width { self.new.width ≡ self.old.width }
        ensures values { map F.value self.new.values
            ≡ map (λ x. F.ring.mul x (F.value t)) (map F.value self.old.values) }
        ensures count { products.new ≡ products.old + length self.old.values }
    {
        scale_slice_in_place(self.values_mut(), t, products);
    }
}

impl<'a, F: Packable> RowMajorMatrixViewMut<'a, F> {
    /// Multiplies each entry by t, with one product each.
    pub fn scale(&mut self, t: F, products: &mut Products)
        ensures same_reference { self.new.matrix.ghost_name ≡ self.old.matrix.ghost_name }
        ensures width { self.new.matrix.now.width ≡ self.old.matrix.now.width }
        ensures values { map F.value self.new.matrix.now.values
            ≡ map (λ x. F.ring.mul x (F.value t)) (map F.value self.old.matrix.now.values) }
        ensures count { products.new ≡ products.old + length self.old.matrix.now.values }
    {
        self.matrix.scale(t, products);
    }
}
