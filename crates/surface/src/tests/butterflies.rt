// Butterflies: the four calls, and worked pairs.

ghost use Rattle.std.specs.Prelude.{◌≡◌, length};

use super::{are, list};
use p3_dft::{
    BabyBear, Butterfly, CanonicalField, DifButterfly, DifButterflyZeros, DitButterfly, Packable,
    PackedField, Products, ScaledDitButterfly, TwiddleFreeButterfly, apply_dit_by_place,
    scale_slice_in_place,
};
use std::alloc::Global;
use std::process::Abort;

fn apply<F: Packable, B: Butterfly<F>, PF: PackedField<Scalar = F>>(
    butterfly: &B,
    x_1: PF,
    x_2: PF,
    products: &mut Products,
) -> (PF, PF) {
    butterfly.apply(x_1, x_2, products)
}

fn apply_in_place<F: Packable, B: Butterfly<F>, PF: PackedField<Scalar = F>>(
    butterfly: &B,
    x_1: &mut PF,
    x_2: &mut PF,
    products: &mut Products,
) {
    butterfly.apply_in_place(x_1, x_2, products);
}

fn apply_to_rows<F: Packable, B: Butterfly<F>>(
    butterfly: &B,
    row_1: &mut [F],
    row_2: &mut [F],
    products: &mut Products,
)
    requires { length row_1.old ≡ length row_2.old }
{
    butterfly.apply_to_rows(row_1, row_2, products);
}

fn apply_to_rows_oop<F: Packable, B: Butterfly<F>>(
    butterfly: &B,
    src_1: &[F],
    dst_1: &mut [F],
    src_2: &[F],
    dst_2: &mut [F],
    products: &mut Products,
)
    requires sources { length src_1.now ≡ length src_2.now }
    requires first { length src_1.now ≡ length dst_1.old }
    requires second { length src_1.now ≡ length dst_2.old }
{
    butterfly.apply_to_rows_oop(src_1, dst_1, src_2, dst_2, products);
}

fn by_place<F: Packable>(twiddles: &[F], row_1: &mut [F], row_2: &mut [F], products: &mut Products)
    requires rows { length row_1.old ≡ length row_2.old }
    requires twiddles { length row_1.old ≡ length twiddles.now }
{
    apply_dit_by_place(twiddles, row_1, row_2, products);
}

fn scale<F: Packable>(values: &mut [F], t: F, products: &mut Products) {
    scale_slice_in_place(values, t, products);
}

// The twiddles are public, and read of the scaled one.

fn twiddles<F>(
    dit: DitButterfly<F>,
    dif: DifButterfly<F>,
    zeros: DifButterflyZeros<F>,
) -> (F, F, F) {
    (dit.0, dif.0, zeros.0)
}

fn scaled<F: Packable>(twiddle: F, scale: F) -> (F, F, F) {
    let butterfly: ScaledDitButterfly<F> = ScaledDitButterfly::new(twiddle, scale);
    (
        butterfly.twiddle(),
        butterfly.scale(),
        butterfly.twiddle_times_scale(),
    )
}

// Stops the test where a butterfly makes other numbers of two elements.
fn makes<F: CanonicalField, B: Butterfly<F>>(
    rt: &impl Abort,
    butterfly: B,
    x_1: F,
    x_2: F,
    wanted: (u64, u64),
) {
    let (near, far) = apply(&butterfly, x_1, x_2, &mut Products::new());
    assert!(rt; (near.as_canonical_u64(), far.as_canonical_u64()) == wanted);
}

fn pairs<F: CanonicalField>(rt: &impl Abort) {
    let (two, three, five) = (F::from_u8(2), F::from_u8(3), F::from_u8(5));
    makes(rt, DitButterfly(three), five, two, (11, 2013265920));
    makes(rt, DifButterfly(three), five, two, (7, 9));
    makes(rt, DifButterflyZeros(three), five, F::ZERO, (5, 15));
    let scaled = ScaledDitButterfly::new(three, two);
    makes(rt, scaled, five, two, (22, 2013265919));
    makes(rt, TwiddleFreeButterfly, five, two, (7, 3));
}

// A butterfly of a user's own: the sum and the difference.
#[derive(Clone, Copy)]
struct SumAndDifference;

impl<F: Packable> Butterfly<F> for SumAndDifference {
    ghost use Rattle.p3_matrix.specs.Butterflies.{twiddle_free_near, twiddle_free_far};

    ghost near = { λ A r v b. twiddle_free_near r };

    ghost far = { λ A r v b. twiddle_free_far r };

    ghost cost = { 0 };

    fn apply<PF: PackedField<Scalar = F>>(
        &self,
        x_1: PF,
        x_2: PF,
        _products: &mut Products,
    ) -> (PF, PF) {
        (x_1.add(x_2), x_1.sub(x_2))
    }
}

fn rows_are_made<F: CanonicalField>(rt: &impl Abort, alloc: Global) {
    let mut row_1: Vec<F> = list(rt, alloc, &[5, 5, 5]);
    let mut row_2: Vec<F> = list(rt, alloc, &[2, 2, 2]);
    assert!(rt; row_1.len() == row_2.len());
    let mut products = Products::new();
    apply_to_rows(
        &SumAndDifference,
        row_1.as_mut_slice(),
        row_2.as_mut_slice(),
        &mut products,
    );
    are(rt, alloc, row_1.as_slice(), &[7, 7, 7]);
    are(rt, alloc, row_2.as_slice(), &[3, 3, 3]);
}

fn of_any_field<F: CanonicalField>(rt: &impl Abort, alloc: Global) {
    pairs::<F>(rt);
    rows_are_made::<F>(rt, alloc);
}

#[test]
fn butterflies_make_the_pairs(rt: HostRuntime) {
    of_any_field::<BabyBear>(&rt, rt.alloc());
}
