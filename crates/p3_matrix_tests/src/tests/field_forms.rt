// Operators in place, sums, products, powers, numbers and printed elements: each at every field through its
// bound, with values worked out by hand.

use super::{FieldName, Topic, is, over, row};
use p3_field::{BabyBear, CanonicalField, Field, FieldOps, Goldilocks};
use std::alloc::Global;
use std::process::Abort;

// Stops the test where an element has another number.
fn has_number<F: CanonicalField>(rt: &impl Abort, x: F, number: u64) {
    is(rt, x.as_canonical_u64(), number);
}

fn changed_in_place<F: CanonicalField + FieldOps>(rt: &impl Abort) {
    let mut x = F::from_u8(7);
    x += F::from_u8(5);
    x *= F::from_u8(3);
    x -= F::from_u8(6);
    has_number(rt, x, 30);
    has_number(rt, x.square(), 900);
}

fn totals<F: CanonicalField + FieldOps>(rt: &impl Abort, alloc: Global) {
    let elements: Vec<F> = row(rt, alloc, 3, 2, 1);
    has_number(rt, elements.iter().copied().sum::<F>(), 9);
    has_number(rt, elements.iter().copied().product::<F>(), 24);
    let none: Vec<F> = row(rt, alloc, 0, 2, 1);
    has_number(rt, none.iter().copied().sum::<F>(), 0);
    has_number(rt, none.iter().copied().product::<F>(), 1);
}

// The first powers of three, and five times them.
fn powers<F: CanonicalField + FieldOps>(rt: &impl Abort, alloc: Global) {
    let three = F::from_u8(3);
    let powers = three.powers().collect_n(alloc, 5).expect(rt, "memory");
    let wanted = [1u8, 3, 9, 27, 81].map(|n| F::from_u8(n));
    is(rt, powers.as_slice(), wanted.as_slice());
    let mut shifted = [F::ZERO; 3];
    three.shifted_powers(F::from_u8(5)).fill(&mut shifted);
    is(rt, shifted, [5u8, 15, 45].map(|n| F::from_u8(n)));
    has_number(rt, three.powers().take(4).sum::<F>(), 40);
}

// `2^16 - 1`, `2^32 - 1` and `2^32`.
fn numbers<F: CanonicalField + FieldOps>(rt: &impl Abort, below: u64, above: u64) {
    has_number(rt, F::from_u16(65535), 65535);
    has_number(rt, F::from_u32(4294967295), below);
    has_number(rt, F::from_u64(4294967296), above);
    is(rt, F::invertible_generator(), F::GENERATOR);
}

// In a list, alone, and in three places.
fn printed<F: CanonicalField + FieldOps>(rt: &impl Abort, alloc: Global, last: &str) {
    let elements: Vec<F> = row(rt, alloc, 2, 9, 5);
    let listed = elements.as_slice();
    let text = format!(in alloc; "{listed:?}").expect(rt, "memory");
    is(rt, text.as_str(), "[9, 14]");
    let minus_one = F::NEG_ONE;
    let text = format!(in alloc; "{minus_one}").expect(rt, "memory");
    is(rt, text.as_str(), last);
    let five = F::from_u8(5);
    let text = format!(in alloc; "{five:>3}").expect(rt, "memory");
    is(rt, text.as_str(), "  5");
}

pub(crate) fn agrees<F: CanonicalField + FieldOps>(
    rt: &impl Abort,
    alloc: Global,
    below: u64,
    above: u64,
    last: &str,
) {
    changed_in_place::<F>(rt);
    totals::<F>(rt, alloc);
    powers::<F>(rt, alloc);
    numbers::<F>(rt, below, above);
    printed::<F>(rt, alloc, last);
}

#[test]
fn baby_bear_has_the_forms_of_numbers(rt: HostRuntime) {
    let forms = Topic::Forms(268435453, 268435454, "2013265920");
    over(&rt, rt.alloc(), FieldName::BabyBear, forms);
    let sum = BabyBear::from(7u8) + BabyBear::from(300u16);
    is(&rt, sum.as_canonical_u64(), 307);
}

#[test]
fn koala_bear_has_the_forms_of_numbers(rt: HostRuntime) {
    let forms = Topic::Forms(33554429, 33554430, "2130706432");
    over(&rt, rt.alloc(), FieldName::KoalaBear, forms);
}

#[test]
fn goldilocks_has_the_forms_of_numbers(rt: HostRuntime) {
    let forms = Topic::Forms(4294967295, 4294967296, "18446744069414584320");
    over(&rt, rt.alloc(), FieldName::Goldilocks, forms);
    let sum = Goldilocks::from(7u8) + Goldilocks::from(300u16) + Goldilocks::from(4294967295u32);
    is(&rt, sum.as_canonical_u64(), 4294967602);
}
