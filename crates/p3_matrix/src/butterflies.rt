//! Butterflies: what takes a pair of values, or two rows, to another pair.

ghost use Rattle.std.specs.Prelude.{◌≡◌, ◌+◌, ◌*◌, ◌≤◌, ℕ, length, map};
ghost use Rattle.p3_field.specs.Ring.{Ring, minus};
ghost use Rattle.p3_field.specs.Lanes.{by_lanes};

use crate::packs::{
    apply_by_packs, apply_by_packs_apart, apply_to_elements, apply_to_packs_oop, dit_on_elements,
    dit_on_packs, full_packs,
};
use p3_field::{Packable, PackedField, Products};
use std::alloc::AllocError;

/// What takes x_1 and x_2 to a near and a far value, by a formula that is the same at each lane of
/// packed values and at each place of two rows.
///
/// Contracts name the formula by `near` and `far`, over any ring, and the number of products for
/// each pair by `cost`.
pub trait Butterfly<F: Packable>: Copy {
    // What stands in the place of x_1, given the values of elements in a ring.
    ghost near: { (A : Type 0) → Ring A → (F → A) → Self → A → A → A };

    // What stands in the place of x_2.
    ghost far: { (A : Type 0) → Ring A → (F → A) → Self → A → A → A };

    // The number of products for a pair.
    ghost cost: { ℕ };

    /// The near and the far value, lane by lane.
    fn apply<P: PackedField<Scalar = F>>(&self, x_1: P, x_2: P, products: &mut Products) -> (P, P)
        ensures near { map F.value (P.lanes result.0)
            ≡ by_lanes (near F.Element F.ring F.value self.now) (map F.value (P.lanes x_1))
            (map F.value (P.lanes x_2)) }
        ensures far { map F.value (P.lanes result.1)
            ≡ by_lanes (far F.Element F.ring F.value self.now) (map F.value (P.lanes x_1)) (map F.value (P.lanes x_2)) }
        ensures count { products.new ≡ products.old + cost * P.WIDTH };

    /// As `apply`, and the near value takes the place of x_1, the far one that of x_2.
    final fn apply_in_place<P: PackedField<Scalar = F>>(
        &self,
        x_1: &mut P,
        x_2: &mut P,
        products: &mut Products,
    )
        ensures near { map F.value (P.lanes x_1.new)
            ≡ by_lanes (near F.Element F.ring F.value self.now) (map F.value (P.lanes x_1.old))
            (map F.value (P.lanes x_2.old)) }
        ensures far { map F.value (P.lanes x_2.new)
            ≡ by_lanes (far F.Element F.ring F.value self.now) (map F.value (P.lanes x_1.old))
            (map F.value (P.lanes x_2.old)) }
        ensures count { products.new ≡ products.old + cost * P.WIDTH }
    {
        let (near, far) = self.apply(*x_1, *x_2, products);
        *x_1 = near;
        *x_2 = far;
    }

    /// Takes two rows of one length, which may be zero, to the near and the far row in their places.
    #[inline(always)]
    final fn apply_to_rows(&self, row_1: &mut [F], row_2: &mut [F], products: &mut Products)
        requires { length row_1.old ≡ length row_2.old }
        ensures near { map F.value row_1.new
            ≡ by_lanes (near F.Element F.ring F.value self.now) (map F.value row_1.old) (map F.value row_2.old) }
        ensures far { map F.value row_2.new
            ≡ by_lanes (far F.Element F.ring F.value self.now) (map F.value row_1.old) (map F.value row_2.old) }
        ensures count { products.new ≡ products.old + cost * length row_1.old }
    {
        if !F::ONE_BY_ONE {
            apply_by_packs_apart(self, row_1, row_2, products);
        } else if row_1.len() < F::Packing::WIDTH {
            apply_to_elements(self, row_1, row_2, products);
        } else {
            apply_by_packs(self, row_1, row_2, products);
        }
    }

    /// Takes two rows of one length, which may be zero, to the near and the far row in two others
    /// of that length. The sources stay.
    final fn apply_to_rows_oop(
        &self,
        src_1: &[F],
        dst_1: &mut [F],
        src_2: &[F],
        dst_2: &mut [F],
        products: &mut Products,
    )
        requires sources { length src_1.now ≡ length src_2.now }
        requires first { length src_1.now ≡ length dst_1.old }
        requires second { length src_1.now ≡ length dst_2.old }
        ensures near { map F.value dst_1.new
            ≡ by_lanes (near F.Element F.ring F.value self.now) (map F.value src_1.now) (map F.value src_2.now) }
        ensures far { map F.value dst_2.new
            ≡ by_lanes (far F.Element F.ring F.value self.now) (map F.value src_1.now) (map F.value src_2.now) }
        ensures count { products.new ≡ products.old + cost * length src_1.now }
    {
        let full = full_packs(src_1.len(), F::Packing::WIDTH);
        let (from_1, last_1) = src_1.split_at(full);
        let (from_2, last_2) = src_2.split_at(full);
        let (to_1, rest_1) = dst_1.split_at_mut(full);
        let (to_2, rest_2) = dst_2.split_at_mut(full);
        apply_to_packs_oop::<F, F::Packing, Self>(self, from_1, to_1, from_2, to_2, products);
        apply_to_packs_oop::<F, F, Self>(self, last_1, rest_1, last_2, rest_2, products);
    }
}

/// Decimation in time (Cooley and Tukey): `(x_1 + x_2 * t, x_1 - x_2 * t)` for the twiddle t, with one product.
#[derive(Clone, Copy)]
pub struct DitButterfly<F>(pub F);

impl<F: Packable> Butterfly<F> for DitButterfly<F> {
    ghost use Rattle.p3_matrix.specs.Butterflies.{dit_near, dit_far};

    ghost near = { λ A r v b. dit_near r (v b.0) };

    ghost far = { λ A r v b. dit_far r (v b.0) };

    ghost cost = { 1 };

    #[inline(always)]
    fn apply<P: PackedField<Scalar = F>>(&self, x_1: P, x_2: P, products: &mut Products) -> (P, P) {
        let turned = x_2.scaled(self.0, products);
        (x_1.add(turned), x_1.sub(turned))
    }
}

/// Decimation in frequency (Gentleman and Sande): `(x_1 + x_2, (x_1 - x_2) * t)` for the twiddle t, with one product.
#[derive(Clone, Copy)]
pub struct DifButterfly<F>(pub F);

impl<F: Packable> Butterfly<F> for DifButterfly<F> {
    ghost use Rattle.p3_matrix.specs.Butterflies.{dif_near, dif_far};

    ghost near = { λ A r v b. dif_near r (v b.0) };

    ghost far = { λ A r v b. dif_far r (v b.0) };

    ghost cost = { 1 };

    #[inline(always)]
    fn apply<P: PackedField<Scalar = F>>(&self, x_1: P, x_2: P, products: &mut Products) -> (P, P) {
        (x_1.add(x_2), x_1.sub_scaled(x_2, self.0, products))
    }
}

/// What `DifButterfly` makes where every x_2 is zero: `(x_1, x_1 * t)` for the twiddle t, with one
/// product. It does not look at x_2.
#[derive(Clone, Copy)]
pub struct DifButterflyZeros<F>(pub F);

impl<F: Packable> Butterfly<F> for DifButterflyZeros<F> {
    ghost use Rattle.p3_matrix.specs.Butterflies.{dif_zeros_near, dif_zeros_far};

    ghost near = { λ A r v b. dif_zeros_near r (v b.0) };

    ghost far = { λ A r v b. dif_zeros_far r (v b.0) };

    ghost cost = { 1 };

    #[inline(always)]
    fn apply<P: PackedField<Scalar = F>>(
        &self,
        x_1: P,
        _x_2: P,
        products: &mut Products,
    ) -> (P, P) {
        (x_1, x_1.scaled(self.0, products))
    }
}

/// Decimation in time, and both values times a scale: `((x_1 + x_2 * t) * s, (x_1 - x_2 * t) * s)`
/// for the twiddle t and the scale s, with two products.
pub struct ScaledDitButterfly<F: Packable> {
    twiddle: F,
    scale: F,
    twiddle_times_scale: F,
    pub ghost fits: { F.number (F.value twiddle_times_scale)
        ≡ F.number (F.ring.mul (F.value twiddle) (F.value scale)) },
}

impl<F: Packable> Copy for ScaledDitButterfly<F> {}

impl<F: Packable> Clone for ScaledDitButterfly<F> {
    ghost use Rattle.std.specs.Prelude.{◌≡◌, ⊤};

    ghost is_clone = { λ b c. c ≡ b };

    ghost is_infallible = { λ _. ⊤ };

    fn clone(&self) -> Result<Self, AllocError> {
        Ok(*self)
    }
}

impl<F: Packable> ScaledDitButterfly<F> {
    /// The butterfly of this twiddle and this scale.
    pub fn new(twiddle: F, scale: F) -> Self
        ensures twiddle { result.twiddle ≡ twiddle }
        ensures scale { result.scale ≡ scale }
    {
        ScaledDitButterfly {
            twiddle,
            scale,
            twiddle_times_scale: twiddle * scale,
        }
    }

    /// The twiddle.
    pub fn twiddle(&self) -> F
        ensures { result ≡ self.now.twiddle }
    {
        self.twiddle
    }

    /// The scale.
    pub fn scale(&self) -> F
        ensures { result ≡ self.now.scale }
    {
        self.scale
    }

    /// The product of the twiddle and the scale.
    pub fn twiddle_times_scale(&self) -> F
        ensures { F.value result ≡ F.ring.mul (F.value self.now.twiddle) (F.value self.now.scale) }
    {
        self.twiddle_times_scale
    }
}

impl<F: Packable> Butterfly<F> for ScaledDitButterfly<F> {
    ghost use Rattle.p3_matrix.specs.Butterflies.{scaled_dit_near, scaled_dit_far};

    ghost near = { λ A r v b. scaled_dit_near r (v b.twiddle) (v b.scale) };

    ghost far = { λ A r v b. scaled_dit_far r (v b.twiddle) (v b.scale) };

    ghost cost = { 2 };

    #[inline(always)]
    fn apply<P: PackedField<Scalar = F>>(&self, x_1: P, x_2: P, products: &mut Products) -> (P, P) {
        let scaled = x_1.scaled(self.scale, products);
        let turned = x_2.scaled(self.twiddle_times_scale, products);
        (scaled.add(turned), scaled.sub(turned))
    }
}

/// `(x_1 + x_2, x_1 - x_2)`, with no product.
#[derive(Clone, Copy)]
pub struct TwiddleFreeButterfly;

impl<F: Packable> Butterfly<F> for TwiddleFreeButterfly {
    ghost use Rattle.p3_matrix.specs.Butterflies.{twiddle_free_near, twiddle_free_far};

    ghost near = { λ A r v b. twiddle_free_near r };

    ghost far = { λ A r v b. twiddle_free_far r };

    ghost cost = { 0 };

    #[inline(always)]
    fn apply<P: PackedField<Scalar = F>>(
        &self,
        x_1: P,
        x_2: P,
        _products: &mut Products,
    ) -> (P, P) {
        (x_1.add(x_2), x_1.sub(x_2))
    }
}

/// Decimation in time on two rows whose pairs have a twiddle each: those at place t meet as
/// `DitButterfly(twiddles[t])` says, for one product. The rows and the twiddles have one length, which
/// may be zero.
pub fn apply_dit_by_place<F: Packable>(
    twiddles: &[F],
    row_1: &mut [F],
    row_2: &mut [F],
    products: &mut Products,
)
    requires rows { length row_1.old ≡ length row_2.old }
    requires twiddles { length row_1.old ≡ length twiddles.now }
    ensures near { map F.value row_1.new ≡ by_lanes F.ring.add (map F.value row_1.old)
        (by_lanes F.ring.mul (map F.value row_2.old) (map F.value twiddles.now)) }
    ensures far { map F.value row_2.new ≡ by_lanes (minus F.ring) (map F.value row_1.old)
        (by_lanes F.ring.mul (map F.value row_2.old) (map F.value twiddles.now)) }
    ensures count { products.new ≡ products.old + length row_1.old }
{
    let full = full_packs(row_1.len(), F::Packing::WIDTH);
    let (packed, rest) = twiddles.split_at(full);
    let (packed_1, rest_1) = row_1.split_at_mut(full);
    let (packed_2, rest_2) = row_2.split_at_mut(full);
    dit_on_packs::<F, F::Packing>(packed, packed_1, packed_2, products);
    dit_on_elements(rest, rest_1, rest_2, products);
}
