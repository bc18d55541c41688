// Numbers that were computed elsewhere, and each public function once, generic ones at each field through their bounds.

ghost use Rattle.std.specs.Prelude.{◌≡◌, ◌*◌, ◌<◌, ◌≤◌, length};

use super::{FieldName, Topic, is, over, row, vectors};
use p3_field::{
    BabyBear, CanonicalField, Field, Goldilocks, Lanes, Packable, PackedField, Products,
    TwoAdicField, scaled,
};
use std::alloc::Global;
use std::mem::size_of;
use std::process::Abort;

// What a program elsewhere computed of a field.
#[derive(Drop)]
pub(crate) struct Table<'a> {
    modulus: u64,
    generator: u64,
    two_adicity: usize,
    operations: &'a [(usize, usize, u64, u64, u64)],
    inverses: &'a [(usize, u64)],
    roots: &'a [(usize, u64)],
    powers: (u64, u64, u64),
    half: (u8, u64),
}

// Stops the test where an element has another number.
fn has_number<F: CanonicalField>(rt: &impl Abort, x: F, number: u64) {
    is(rt, x.as_canonical_u64(), number);
}

fn operations_agree<F: CanonicalField>(rt: &impl Abort, table: &[(usize, usize, u64, u64, u64)]) {
    for (a, b, sum, difference, product) in table {
        let x = F::from_usize(*a);
        let y = F::from_usize(*b);
        has_number(rt, x + y, *sum);
        has_number(rt, x - y, *difference);
        has_number(rt, -y + x, *difference);
        has_number(rt, x * y, *product);
    }
}

fn inverses_agree<F: CanonicalField>(rt: &impl Abort, table: &[(usize, u64)]) {
    assert!(rt; F::ZERO.try_inverse().is_none());
    for (a, inverse) in table {
        let found = F::from_usize(*a).try_inverse();
        is(rt, found.map(|x| x.as_canonical_u64()), Some(*inverse));
    }
}

fn constants_agree<F: CanonicalField>(rt: &impl Abort, modulus: u64, generator: u64) {
    is(rt, F::ORDER_U64, modulus);
    has_number(rt, F::GENERATOR, generator);
    has_number(rt, F::GENERATOR * F::GENERATOR.inverse(), 1);
    has_number(rt, F::TWO, 2);
    has_number(rt, F::NEG_ONE + F::ONE, 0);
    has_number(rt, F::two_adic_generator(0), 1);
}

// An element has a number below the modulus.
fn ends_agree<F: CanonicalField>(rt: &impl Abort, modulus: u64) {
    assert!(rt; F::new(modulus).is_none());
    assert!(rt; F::new(modulus.wrapping_sub(1)) == Some(F::NEG_ONE));
}

fn roots_agree<F: CanonicalField>(rt: &impl Abort, two_adicity: usize, table: &[(usize, u64)]) {
    is(rt, F::TWO_ADICITY, two_adicity);
    for (bits, root) in table {
        if *bits <= F::TWO_ADICITY {
            has_number(rt, F::two_adic_generator(*bits), *root);
        }
    }
}

fn powers_agree<F: CanonicalField>(rt: &impl Abort, powers: (u64, u64, u64)) {
    let (hundredth, after_ten_squarings, halved) = powers;
    has_number(rt, F::GENERATOR.exp_u64(100), hundredth);
    has_number(rt, F::GENERATOR.exp_power_of_2(10), after_ten_squarings);
    has_number(rt, F::ONE.div_2exp_u64(70), halved);
}

fn halves_agree<F: CanonicalField>(rt: &impl Abort, (number, half): (u8, u64)) {
    let x = F::from_u8(number);
    has_number(rt, x.halve(), half);
    assert!(rt; x.halve().double() == x);
    is(rt, (F::ZERO.is_zero(), x.is_zero()), (true, false));
}

pub(crate) fn agrees<F: CanonicalField>(rt: &impl Abort, table: &Table) {
    operations_agree::<F>(rt, table.operations);
    inverses_agree::<F>(rt, table.inverses);
    constants_agree::<F>(rt, table.modulus, table.generator);
    ends_agree::<F>(rt, table.modulus);
    roots_agree::<F>(rt, table.two_adicity, table.roots);
    powers_agree::<F>(rt, table.powers);
    halves_agree::<F>(rt, table.half);
}

#[test]
fn baby_bear_computes_the_worked_numbers(rt: HostRuntime) {
    let table = Table {
        modulus: 2013265921,
        generator: 31,
        two_adicity: 27,
        operations: &vectors::BABY_BEAR,
        inverses: &vectors::BABY_BEAR_INVERSES,
        roots: &vectors::BABY_BEAR_ROOTS,
        powers: vectors::BABY_BEAR_POWERS,
        half: (5, 1006632963),
    };
    over(&rt, rt.alloc(), FieldName::BabyBear, Topic::Numbers(&table));
}

#[test]
fn koala_bear_computes_the_worked_numbers(rt: HostRuntime) {
    let table = Table {
        modulus: 2130706433,
        generator: 3,
        two_adicity: 24,
        operations: &vectors::KOALA_BEAR,
        inverses: &vectors::KOALA_BEAR_INVERSES,
        roots: &vectors::KOALA_BEAR_ROOTS,
        powers: vectors::KOALA_BEAR_POWERS,
        half: (5, 1065353219),
    };
    over(
        &rt,
        rt.alloc(),
        FieldName::KoalaBear,
        Topic::Numbers(&table),
    );
}

#[test]
fn goldilocks_computes_the_worked_numbers(rt: HostRuntime) {
    let table = Table {
        modulus: 18446744069414584321,
        generator: 7,
        two_adicity: 32,
        operations: &vectors::GOLDILOCKS,
        inverses: &vectors::GOLDILOCKS_INVERSES,
        roots: &vectors::GOLDILOCKS_ROOTS,
        powers: vectors::GOLDILOCKS_POWERS,
        half: (7, 9223372034707292164),
    };
    for field in [FieldName::Goldilocks, FieldName::WideGoldilocks] {
        over(&rt, rt.alloc(), field, Topic::Numbers(&table));
    }
}

// Twice the sum and once the difference of a lane and two.
fn by_lanes<F: Packable>(lane: &[F], sum: &mut [F], difference: &mut [F], products: &mut Products)
    requires lane { length lane.now ≡ 1 }
    requires sum { length sum.old ≡ 1 }
    requires difference { length difference.old ≡ 1 }
    ensures sum { length sum.new ≡ 1 }
    ensures difference { length difference.new ≡ 1 }
{
    let x = F::load(lane);
    let two = F::broadcast(F::TWO);
    PackedField::scaled(PackedField::add(x, two), F::TWO, products).store(sum);
    PackedField::sub(x, two).store(difference);
}

// At a pack that is one element.
pub(crate) fn one_lane<F: CanonicalField>(rt: &impl Abort, alloc: Global) {
    let mut products = Products::new();
    let mut more = Products::new();
    let lane: Vec<F> = row(rt, alloc, 1, 5, 0);
    let mut sum: Vec<F> = row(rt, alloc, 1, 0, 0);
    let mut difference: Vec<F> = row(rt, alloc, 1, 0, 0);
    by_lanes(
        lane.as_slice(),
        sum.as_mut_slice(),
        difference.as_mut_slice(),
        &mut products,
    );
    has_number(rt, sum[0], 14);
    has_number(rt, difference[0], 3);
    has_number(rt, scaled(F::TWO, F::TWO, &mut more), 4);
    products.add(more);
}

#[test]
fn a_field_is_a_pack_of_one_lane(rt: HostRuntime) {
    for field in [FieldName::BabyBear, FieldName::Goldilocks] {
        over(&rt, rt.alloc(), field, Topic::OneLane);
    }
    assert!(rt; size_of::<Products>() == 0);
}

// The two elements of each pair change places.
fn exchange<F: Field, P: PackedField<Scalar = F>>(pairs: &mut [F])
    requires { length pairs.old ≡ 2 * P.WIDTH }
    ensures { length pairs.new ≡ length pairs.old }
{
    let (first, second) = P::load_pairs(pairs);
    second.store_pairs(first, pairs);
}

// Of the pairs of 1 and 2, of 3 and 4, and so on.
fn exchanges<F: CanonicalField, P: PackedField<Scalar = F>>(
    rt: &impl Abort,
    alloc: Global,
    size: usize,
)
    requires { size ≡ 2 * P.WIDTH }
{
    let mut pairs: Vec<F> = row(rt, alloc, size, 1, 1);
    exchange::<F, P>(pairs.as_mut_slice());
    for i in 0..size {
        let number = if i % 2 == 0 { i + 2 } else { i };
        has_number(rt, pairs[i], number as u64);
    }
}

// In packs of the field's own and of one.
pub(crate) fn pairs_in_packs<F: CanonicalField>(rt: &impl Abort, alloc: Global) {
    let width = F::Packing::WIDTH;
    assert!(rt; width <= 16);
    exchanges::<F, F::Packing>(rt, alloc, 2 * width);
    exchanges::<F, F>(rt, alloc, 2);
}

#[test]
fn pairs_are_loaded_and_stored(rt: HostRuntime) {
    for field in [
        FieldName::BabyBear,
        FieldName::Goldilocks,
        FieldName::WideBabyBear,
        FieldName::WideGoldilocks,
    ] {
        over(&rt, rt.alloc(), field, Topic::PairsInPacks);
    }
    exchanges::<BabyBear, Lanes<BabyBear, 3>>(&rt, rt.alloc(), 6);
    exchanges::<Goldilocks, Lanes<Goldilocks, 3>>(&rt, rt.alloc(), 6);
}

// What stands in one lane, and in the lane beside it.
fn at_lanes<F: CanonicalField, P: PackedField<Scalar = F>>(
    rt: &impl Abort,
    alloc: Global,
    x: P,
    lane: usize,
) -> (F, F)
    requires width { P.WIDTH ≤ 16 }
    requires lane { lane < P.WIDTH }
{
    let mut lanes: Vec<F> = row(rt, alloc, P::WIDTH, 0, 0);
    x.store(lanes.as_mut_slice());
    (lanes[lane], lanes[(lane + 1) % P::WIDTH])
}

// Lanes of one element, but for one lane.
fn lanes_of<F: CanonicalField, P: PackedField<Scalar = F>>(
    rt: &impl Abort,
    alloc: Global,
    x: F,
    lane: usize,
    other: F,
) -> P
    requires width { P.WIDTH ≤ 16 }
    requires lane { lane < P.WIDTH }
{
    let mut lanes = vec![in alloc; other; P::WIDTH].expect(rt, "memory");
    lanes[lane] = x;
    P::load(lanes.as_slice())
}

// Stops the test where one lane has another number, or the lane beside it is another element.
fn lane_is<F: CanonicalField, P: PackedField<Scalar = F>>(
    rt: &impl Abort,
    alloc: Global,
    x: P,
    lane: usize,
    number: u64,
    beside: F,
)
    requires width { P.WIDTH ≤ 16 }
    requires lane { lane < P.WIDTH }
{
    let (found, other) = at_lanes::<F, P>(rt, alloc, x, lane);
    has_number(rt, found, number);
    has_number(rt, other, beside.as_canonical_u64());
}

// Each operation in one lane, beside others that have answers of their own.
fn lane_agrees<F: CanonicalField, P: PackedField<Scalar = F>>(
    rt: &impl Abort,
    alloc: Global,
    lane: usize,
    row: &(usize, usize, u64, u64, u64),
    products: &mut Products,
)
    requires width { P.WIDTH ≤ 16 }
    requires lane { lane < P.WIDTH }
{
    let (a, b, sum, difference, product) = *row;
    let t = F::from_usize(b);
    let beside = F::NEG_ONE - F::TWO;
    let x = lanes_of::<F, P>(rt, alloc, F::from_usize(a), lane, F::NEG_ONE);
    let y = lanes_of::<F, P>(rt, alloc, t, lane, F::TWO);
    lane_is(rt, alloc, x.add(y), lane, sum, F::ONE);
    lane_is(rt, alloc, x.sub(y), lane, difference, beside);
    let by_one = x.sub_scaled(y, F::ONE, products);
    lane_is(rt, alloc, by_one, lane, difference, beside);
    lane_is(rt, alloc, x.scaled(t, products), lane, product, -t);
    let by_lanes = x.multiplied(y, products);
    lane_is(rt, alloc, by_lanes, lane, product, -F::TWO);
    let all = P::broadcast(t);
    lane_is(rt, alloc, all, lane, t.as_canonical_u64(), t);
}

fn lanes_agree<F: CanonicalField, P: PackedField<Scalar = F>>(
    rt: &impl Abort,
    alloc: Global,
    table: &[(usize, usize, u64, u64, u64)],
)
    requires { P.WIDTH ≤ 16 }
{
    let mut products = Products::new();
    for row in table {
        for lane in 0..P::WIDTH {
            lane_agrees::<F, P>(rt, alloc, lane, row, &mut products);
        }
    }
}

// In the field's own packs.
pub(crate) fn lanes<F: CanonicalField>(
    rt: &impl Abort,
    alloc: Global,
    table: &[(usize, usize, u64, u64, u64)],
) {
    assert!(rt; F::Packing::WIDTH <= 16);
    lanes_agree::<F, F::Packing>(rt, alloc, table);
}

#[test]
fn lanes_compute_as_single_elements(rt: HostRuntime) {
    let alloc = rt.alloc();
    for field in [FieldName::BabyBear, FieldName::WideBabyBear] {
        over(&rt, alloc, field, Topic::Lanes(&vectors::BABY_BEAR));
    }
    for field in [FieldName::KoalaBear, FieldName::WideKoalaBear] {
        over(&rt, alloc, field, Topic::Lanes(&vectors::KOALA_BEAR));
    }
    for field in [FieldName::Goldilocks, FieldName::WideGoldilocks] {
        over(&rt, alloc, field, Topic::Lanes(&vectors::GOLDILOCKS));
    }
}
