// Butterflies against values that were calculated by hand, and rows against single elements.

ghost use Rattle.std.specs.Prelude.{◌≡◌, ◌≤◌, ℕ, ◌+◌, ◌*◌, length, vec_len};

use super::{FieldName, Topic, is, over, row};
use p3_field::{BabyBear, CanonicalField, Field, Lanes, PackedField, Products};
use p3_matrix::packs::{apply_to_elements, apply_to_packs, full_packs};
use p3_matrix::{
    Butterfly, DifButterfly, DifButterflyZeros, DitButterfly, RowMajorMatrix, ScaledDitButterfly,
    TwiddleFreeButterfly, apply_dit_by_place,
};
use std::alloc::Global;
use std::process::Abort;

// Stops the test where a butterfly makes other numbers of two elements.
fn makes<F: CanonicalField, B: Butterfly<F>>(
    rt: &impl Abort,
    b: B,
    x_1: F,
    x_2: F,
    wanted: (u64, u64),
) {
    let (near, far) = b.apply(x_1, x_2, &mut Products::new());
    is(rt, near.as_canonical_u64(), wanted.0);
    is(rt, far.as_canonical_u64(), wanted.1);
}

// Each butterfly, of five and two, over BabyBear.
pub(crate) fn applies_to_pairs<F: CanonicalField>(rt: &impl Abort) {
    let (two, three, five) = (F::from_u8(2), F::from_u8(3), F::from_u8(5));
    makes(rt, DitButterfly(three), five, two, (11, 2013265920));
    makes(rt, DifButterfly(three), five, two, (7, 9));
    makes(
        rt,
        ScaledDitButterfly::new(three, two),
        five,
        two,
        (22, 2013265919),
    );
    makes(rt, TwiddleFreeButterfly, five, two, (7, 3));
    makes(rt, DifButterflyZeros(three), five, F::ZERO, (5, 15));
}

// Of zero and one, by a root of order four, over Goldilocks.
pub(crate) fn applies_at_a_root<F: CanonicalField>(rt: &impl Abort) {
    let root = DitButterfly(F::from_usize(281474976710656));
    let last = (281474976710656, 18446462594437873665);
    makes(rt, root, F::ZERO, F::ONE, last);
}

#[test]
fn applies_to_elements(rt: HostRuntime) {
    over(&rt, rt.alloc(), FieldName::BabyBear, Topic::PairsOfFive);
    over(&rt, rt.alloc(), FieldName::Goldilocks, Topic::PairAtARoot);
}

// What a butterfly was made of.
pub(crate) fn reads<F: CanonicalField>(rt: &impl Abort) {
    let scaled = ScaledDitButterfly::new(F::from_u8(3), F::TWO);
    is(rt, scaled.twiddle().as_canonical_u64(), 3);
    is(rt, scaled.scale().as_canonical_u64(), 2);
    is(rt, scaled.twiddle_times_scale().as_canonical_u64(), 6);
}

#[test]
fn reads_a_scaled_butterfly(rt: HostRuntime) {
    over(&rt, rt.alloc(), FieldName::BabyBear, Topic::ScaledButterfly);
}

// What two butterflies, one after the other, make of five and two.
fn make_one_after_another<F: CanonicalField, B: Butterfly<F>, C: Butterfly<F>>(
    rt: &impl Abort,
    first: B,
    second: C,
    wanted: (u64, u64),
) {
    let mut products = Products::new();
    let (mut x_1, mut x_2) = (F::from_u8(5), F::from_u8(2));
    first.apply_in_place(&mut x_1, &mut x_2, &mut products);
    makes(rt, second, x_1, x_2, wanted);
}

pub(crate) fn undo_up_to_factors<F: CanonicalField>(rt: &impl Abort) {
    let three = F::from_u8(3);
    make_one_after_another(rt, DitButterfly(three), DifButterfly(three), (10, 36));
    let plain = TwiddleFreeButterfly;
    make_one_after_another::<F, TwiddleFreeButterfly, TwiddleFreeButterfly>(
        rt,
        plain,
        plain,
        (10, 4),
    );
}

#[test]
fn undoes_up_to_factors(rt: HostRuntime) {
    over(&rt, rt.alloc(), FieldName::BabyBear, Topic::TwoButterflies);
}

// Stops the test where two rows differ.
fn same_rows<F: CanonicalField>(rt: &impl Abort, found: &Vec<F>, wanted: &Vec<F>) {
    let size = found.len();
    assert!(rt; *found == *wanted, "rows of {size}");
}

// Stops the test where a butterfly makes another pair of two elements.
fn place_agrees<F: CanonicalField, B: Butterfly<F>>(
    rt: &impl Abort,
    b: B,
    pair: (F, F),
    wanted: (F, F),
) {
    assert!(rt; b.apply(pair.0, pair.1, &mut Products::new()) == wanted);
}

// Stops the test where a butterfly makes another pair of an element of each row.
fn places_agree<F: CanonicalField, B: Butterfly<F>>(
    rt: &impl Abort,
    b: B,
    rows: (&Vec<F>, &Vec<F>),
    results: (&Vec<F>, &Vec<F>),
) {
    let size = rows.0.len();
    assert!(rt; rows.1.len() == size && results.0.len() == size && results.1.len() == size);
    for i in 0..size {
        let pair = (rows.0[i], rows.1[i]);
        place_agrees(rt, b, pair, (results.0[i], results.1[i]));
    }
}

// Two rows of this size.
fn rows_of<F: CanonicalField>(
    rt: &impl Abort,
    alloc: Global,
    size: usize,
    step_2: usize,
) -> (Vec<F>, Vec<F>)
    ensures first { vec_len result.0 ≡ size }
    ensures second { vec_len result.1 ≡ size }
{
    let row_1 = row(rt, alloc, size, 2013265900, 7);
    (row_1, row(rt, alloc, size, 0, step_2))
}

// What a butterfly makes of the rows out of place, which stay.
fn made_oop<F: CanonicalField, B: Butterfly<F>>(
    rt: &impl Abort,
    alloc: Global,
    b: B,
    rows: (&Vec<F>, &Vec<F>),
) -> (Vec<F>, Vec<F>)
    requires { vec_len rows.0.now ≡ vec_len rows.1.now }
{
    let size = rows.0.len();
    let mut dst_1: Vec<F> = row(rt, alloc, size, 1, 1);
    let mut dst_2: Vec<F> = row(rt, alloc, size, 1, 1);
    b.apply_to_rows_oop(
        rows.0.as_slice(),
        dst_1.as_mut_slice(),
        rows.1.as_slice(),
        dst_2.as_mut_slice(),
        &mut Products::new(),
    );
    (dst_1, dst_2)
}

// Rows of this size, out of place and in place.
fn row_like_elements<F: CanonicalField, B: Butterfly<F>>(
    rt: &impl Abort,
    alloc: Global,
    b: B,
    step_2: usize,
    size: usize,
) {
    let (mut row_1, mut row_2) = rows_of(rt, alloc, size, step_2);
    let (dst_1, dst_2) = made_oop(rt, alloc, b, (&row_1, &row_2));
    let (same_1, same_2) = rows_of(rt, alloc, size, step_2);
    same_rows(rt, &row_1, &same_1);
    same_rows(rt, &row_2, &same_2);
    places_agree(rt, b, (&row_1, &row_2), (&dst_1, &dst_2));
    b.apply_to_rows(
        row_1.as_mut_slice(),
        row_2.as_mut_slice(),
        &mut Products::new(),
    );
    same_rows(rt, &row_1, &dst_1);
    same_rows(rt, &row_2, &dst_2);
}

// Two rows by packs of this width.
fn by_packs<F: CanonicalField, P: PackedField<Scalar = F>, B: Butterfly<F>>(
    rt: &impl Abort,
    alloc: Global,
    b: B,
    step_2: usize,
    full: usize,
) -> (Vec<F>, Vec<F>)
    requires width { 1 ≤ P.WIDTH }
    requires whole { (k : ℕ) × full ≡ k * P.WIDTH }
{
    let (mut row_1, mut row_2) = rows_of(rt, alloc, full, step_2);
    apply_to_packs::<F, P, B>(
        &b,
        row_1.as_mut_slice(),
        row_2.as_mut_slice(),
        &mut Products::new(),
    );
    (row_1, row_2)
}

// Two rows element by element.
fn by_elements<F: CanonicalField, B: Butterfly<F>>(
    rt: &impl Abort,
    alloc: Global,
    b: B,
    step_2: usize,
    size: usize,
) -> (Vec<F>, Vec<F>) {
    let (mut row_1, mut row_2) = rows_of(rt, alloc, size, step_2);
    apply_to_elements(
        &b,
        row_1.as_mut_slice(),
        row_2.as_mut_slice(),
        &mut Products::new(),
    );
    (row_1, row_2)
}

// Rows of packs of this width, by packs and by single elements.
fn packs_like_elements<F: CanonicalField, P: PackedField<Scalar = F>, B: Butterfly<F>>(
    rt: &impl Abort,
    alloc: Global,
    b: B,
    step_2: usize,
    size: usize,
)
    requires { 1 ≤ P.WIDTH }
{
    let full = full_packs(size, P::WIDTH);
    let (row_1, row_2) = by_packs::<F, P, B>(rt, alloc, b, step_2, full);
    let (one_1, one_2) = by_elements(rt, alloc, b, step_2, full);
    same_rows(rt, &row_1, &one_1);
    same_rows(rt, &row_2, &one_2);
}

fn rows_like_elements<F: CanonicalField, B: Butterfly<F>>(
    rt: &impl Abort,
    alloc: Global,
    b: B,
    step_2: usize,
) {
    for size in 0..34usize {
        row_like_elements(rt, alloc, b, step_2, size);
    }
}

// Each butterfly.
pub(crate) fn rows_of_butterflies<F: CanonicalField>(rt: &impl Abort, alloc: Global) {
    let t = F::from_usize(1728404513);
    let scaled = ScaledDitButterfly::new(t, F::from_usize(1006632961));
    rows_like_elements::<F, DitButterfly<F>>(rt, alloc, DitButterfly(t), 1000003);
    rows_like_elements::<F, DifButterfly<F>>(rt, alloc, DifButterfly(t), 1000003);
    rows_like_elements::<F, DifButterflyZeros<F>>(rt, alloc, DifButterflyZeros(t), 0);
    rows_like_elements::<F, ScaledDitButterfly<F>>(rt, alloc, scaled, 1000003);
    rows_like_elements::<F, TwiddleFreeButterfly>(rt, alloc, TwiddleFreeButterfly, 1000003);
}

// Packs of eight lanes, of sixteen, and of four that go one after another.
const FIELDS_BY_PACKS: [FieldName; 6] = [
    FieldName::BabyBear,
    FieldName::KoalaBear,
    FieldName::Goldilocks,
    FieldName::WideBabyBear,
    FieldName::WideKoalaBear,
    FieldName::WideGoldilocks,
];

#[test]
fn applies_to_rows(rt: HostRuntime) {
    for field in FIELDS_BY_PACKS {
        over(&rt, rt.alloc(), field, Topic::RowsOfButterflies);
    }
}

// Rows of full packs, by packs and by single elements.
fn packs_agree<F: CanonicalField, P: PackedField<Scalar = F>, B: Butterfly<F>>(
    rt: &impl Abort,
    alloc: Global,
    b: B,
    step_2: usize,
)
    requires { 1 ≤ P.WIDTH }
{
    for size in 0..34usize {
        packs_like_elements::<F, P, B>(rt, alloc, b, step_2, size);
    }
}

// Each butterfly, at packs of this width.
fn packs_of<F: CanonicalField, P: PackedField<Scalar = F>>(rt: &impl Abort, alloc: Global)
    requires { 1 ≤ P.WIDTH }
{
    let t = F::from_usize(1728404513);
    let scaled = ScaledDitButterfly::new(t, F::from_usize(1006632961));
    packs_agree::<F, P, DitButterfly<F>>(rt, alloc, DitButterfly(t), 1000003);
    packs_agree::<F, P, DifButterfly<F>>(rt, alloc, DifButterfly(t), 1000003);
    packs_agree::<F, P, DifButterflyZeros<F>>(rt, alloc, DifButterflyZeros(t), 0);
    packs_agree::<F, P, ScaledDitButterfly<F>>(rt, alloc, scaled, 1000003);
    packs_agree::<F, P, TwiddleFreeButterfly>(rt, alloc, TwiddleFreeButterfly, 1000003);
}

fn packs_of_width<const N: usize>(rt: &impl Abort, alloc: Global)
    requires some { 1 ≤ N }
    requires few { N ≤ 8 }
{
    packs_of::<BabyBear, Lanes<BabyBear, N>>(rt, alloc);
}

// Over a field whose packs go all at once: over `Goldilocks`, whose lanes go one after another, no pack is loaded.
#[test]
fn packs_of_each_width_agree(rt: HostRuntime) {
    packs_of_width::<1>(&rt, rt.alloc());
    packs_of_width::<3>(&rt, rt.alloc());
    packs_of_width::<4>(&rt, rt.alloc());
    packs_of_width::<8>(&rt, rt.alloc());
}

// Stops the test where decimation in time makes another pair of an element of each row.
fn turned_by_place<F: CanonicalField>(
    rt: &impl Abort,
    twiddles: &Vec<F>,
    rows: (&Vec<F>, &Vec<F>),
    results: (&Vec<F>, &Vec<F>),
) {
    let size = twiddles.len();
    assert!(rt; rows.0.len() == size && rows.1.len() == size);
    assert!(rt; results.0.len() == size && results.1.len() == size);
    for i in 0..size {
        let pair = (rows.0[i], rows.1[i]);
        let wanted = (results.0[i], results.1[i]);
        place_agrees(rt, DitButterfly(twiddles[i]), pair, wanted);
    }
}

// Rows with a twiddle for each place, of so many elements.
fn row_by_place<F: CanonicalField>(rt: &impl Abort, alloc: Global, size: usize) {
    let twiddles: Vec<F> = row(rt, alloc, size, 2013265919, 271828);
    let (first, second) = rows_of(rt, alloc, size, 1000003);
    let (mut row_1, mut row_2) = rows_of(rt, alloc, size, 1000003);
    apply_dit_by_place(
        twiddles.as_slice(),
        row_1.as_mut_slice(),
        row_2.as_mut_slice(),
        &mut Products::new(),
    );
    turned_by_place(rt, &twiddles, (&first, &second), (&row_1, &row_2));
}

pub(crate) fn rows_by_place<F: CanonicalField>(rt: &impl Abort, alloc: Global) {
    for size in 0..34usize {
        row_by_place::<F>(rt, alloc, size);
    }
}

#[test]
fn twiddles_by_place_agree_with_single_ones(rt: HostRuntime) {
    for field in FIELDS_BY_PACKS {
        over(&rt, rt.alloc(), field, Topic::TwiddlesByPlace);
    }
}

// A row of one pack of sixteen lanes, or of two of eight, and three more entries, whose sums and differences wrap
// around the modulus.
pub(crate) fn wraps<F: CanonicalField>(rt: &impl Abort, alloc: Global) {
    let mut row_1: Vec<F> = row(rt, alloc, 19, 2013265920, 0);
    let mut row_2: Vec<F> = row(rt, alloc, 19, 1, 0);
    TwiddleFreeButterfly.apply_to_rows(
        row_1.as_mut_slice(),
        row_2.as_mut_slice(),
        &mut Products::new(),
    );
    same_rows(rt, &row_1, &row(rt, alloc, 19, 0, 0));
    same_rows(rt, &row_2, &row(rt, alloc, 19, 2013265919, 0));
}

#[test]
fn wraps_in_each_lane(rt: HostRuntime) {
    for field in [FieldName::BabyBear, FieldName::WideBabyBear] {
        over(&rt, rt.alloc(), field, Topic::Wraps);
    }
}

// On rows of nineteen a butterfly with a twiddle counts nineteen products, in place.
fn counts_nineteen<F: CanonicalField>(row_1: &mut [F], row_2: &mut [F], products: &mut Products)
    requires first { length row_1.old ≡ 19 }
    requires second { length row_2.old ≡ 19 }
    ensures { products.new ≡ products.old + 19 }
{
    DitButterfly(F::from_u8(3)).apply_to_rows(row_1, row_2, products);
}

// With a scale too it counts twice as many.
fn counts_thirty_eight<F: CanonicalField>(row_1: &mut [F], row_2: &mut [F], products: &mut Products)
    requires first { length row_1.old ≡ 19 }
    requires second { length row_2.old ≡ 19 }
    ensures { products.new ≡ products.old + 38 }
{
    let butterfly = ScaledDitButterfly::new(F::from_u8(3), F::TWO);
    butterfly.apply_to_rows(row_1, row_2, products);
}

// One after the other, of minus one and one: two and minus four first, then minus twenty and 28.
pub(crate) fn counts<F: CanonicalField>(rt: &impl Abort, alloc: Global) {
    let mut products = Products::new();
    let mut row_1: Vec<F> = row(rt, alloc, 19, 2013265920, 0);
    let mut row_2: Vec<F> = row(rt, alloc, 19, 1, 0);
    counts_nineteen(row_1.as_mut_slice(), row_2.as_mut_slice(), &mut products);
    same_rows(rt, &row_1, &row(rt, alloc, 19, 2, 0));
    same_rows(rt, &row_2, &row(rt, alloc, 19, 2013265917, 0));
    counts_thirty_eight(row_1.as_mut_slice(), row_2.as_mut_slice(), &mut products);
    same_rows(rt, &row_1, &row(rt, alloc, 19, 2013265901, 0));
    same_rows(rt, &row_2, &row(rt, alloc, 19, 28, 0));
}

#[test]
fn products_of_rows_are_counted(rt: HostRuntime) {
    for field in [FieldName::BabyBear, FieldName::WideBabyBear] {
        over(&rt, rt.alloc(), field, Topic::CountedRows);
    }
}

// One through a matrix and two through views, with factors whose product is five.
pub(crate) fn scales<F: CanonicalField>(rt: &impl Abort, alloc: Global) {
    let mut products = Products::new();
    let mut matrix: RowMajorMatrix<F> = RowMajorMatrix::new(row(rt, alloc, 6, 1, 2), 3);
    let half = F::from_usize(1006632961);
    matrix.scale(F::TWO, &mut products);
    matrix.as_view_mut().scale(half, &mut products);
    matrix.as_view_mut().scale(F::from_u8(5), &mut products);
    assert!(rt; matrix == RowMajorMatrix::new(row(rt, alloc, 6, 5, 10), 3));
}

#[test]
fn scales_matrices(rt: HostRuntime) {
    over(&rt, rt.alloc(), FieldName::BabyBear, Topic::ScaledMatrices);
}
