// Fields: the members of each trait, and the numbers of the two that are named.

ghost use Rattle.std.specs.Prelude.{◌≤◌};
ghost use Rattle.p3_field.specs.Ring.{IsInvertible};

use super::{are, is, list};
use p3_dft::{BabyBear, CanonicalField, Field, Goldilocks, TwoAdicField};
use std::alloc::Global;
use std::process::Abort;

fn constants<F: Field>() -> (F, F, F, F, F) {
    (F::ZERO, F::ONE, F::TWO, F::NEG_ONE, F::GENERATOR)
}

fn operators<F: Field>(x: F, y: F) -> (F, F, F, F) {
    (x + y, x - y, x * y, -x)
}

fn ones<F: Field>(byte: u8, n: usize) -> (F, F) {
    (F::from_u8(byte), F::from_usize(n))
}

fn twice_and_half<F: Field>(x: F) -> (F, F) {
    (x.double(), x.halve())
}

fn powers<F: Field>(x: F, n: u64, squarings: usize) -> (F, F, F) {
    (x.div_2exp_u64(n), x.exp_u64(n), x.exp_power_of_2(squarings))
}

fn is_zero<F: Field>(x: &F) -> bool {
    x.is_zero()
}

fn try_inverse<F: Field>(x: &F) -> Option<F> {
    x.try_inverse()
}

fn inverse<F: Field>(x: &F) -> F
    requires { IsInvertible F.ring (F.value x.now) }
{
    x.inverse()
}

fn two_adicity<F: TwoAdicField>() -> usize {
    F::TWO_ADICITY
}

fn two_adic_generator<F: TwoAdicField>(bits: usize) -> F
    requires { bits ≤ F.TWO_ADICITY }
{
    F::two_adic_generator(bits)
}

fn order<F: CanonicalField>() -> u64 {
    F::ORDER_U64
}

fn new<F: CanonicalField>(number: u64) -> Option<F> {
    F::new(number)
}

fn as_canonical_u64<F: CanonicalField>(x: &F) -> u64 {
    x.as_canonical_u64()
}

// Elements of any field are ordered and sorted, and stand in a user's own keys.

fn least<F: Field>(x: F, y: F) -> F {
    if x < y { x } else { x.min(y) }
}

fn sorted<F: Field>(elements: &mut [F]) {
    elements.sort_unstable();
}

#[derive(Clone, Copy, PartialEq, Eq, PartialOrd, Ord)]
struct Claim<F: Field> {
    point: F,
    value: F,
}

fn later<F: Field>(one: Claim<F>, other: Claim<F>) -> Claim<F> {
    one.max(other)
}

// What is known of a field by numbers.
#[derive(Clone, Copy)]
struct Table {
    order: u64,
    minus_one: u64,
    two_adicity: usize,
    generator: u64,
    of_most_bits: u64,
    of_two_bits: u64,
    half: u64,
}

fn has_constants<F: CanonicalField>(rt: &impl Abort, table: Table) {
    let (zero, one, two, minus_one, generator) = constants::<F>();
    is(rt, zero, 0);
    is(rt, one, 1);
    is(rt, two, 2);
    is(rt, minus_one, table.minus_one);
    is(rt, generator, table.generator);
}

fn computes<F: CanonicalField>(rt: &impl Abort, table: Table) {
    let (three, five) = ones::<F>(3, 5);
    let (sum, difference, product, negative) = operators(F::ONE, F::TWO);
    is(rt, sum, 3);
    is(rt, difference, table.minus_one);
    is(rt, product, 2);
    is(rt, negative, table.minus_one);
    let (twice, half) = twice_and_half(five - three - F::ONE);
    is(rt, twice, 2);
    is(rt, half, table.half);
}

fn has_powers<F: CanonicalField>(rt: &impl Abort) {
    let (quotient, cube, fourth) = powers(F::from_u8(8), 3, 2);
    is(rt, quotient, 1);
    is(rt, cube, 512);
    is(rt, fourth, 4096);
}

fn inverts<F: CanonicalField>(rt: &impl Abort, table: Table) {
    assert!(rt; is_zero(&F::ZERO) && !is_zero(&F::ONE));
    assert!(rt; try_inverse(&F::ZERO).is_none());
    let two = F::TWO;
    assert!(rt; two.try_inverse().is_some());
    is(rt, inverse(&two), table.half);
}

fn has_roots<F: CanonicalField>(rt: &impl Abort, table: Table) {
    assert!(rt; two_adicity::<F>() == table.two_adicity && F::TWO_ADICITY >= 2);
    is(rt, two_adic_generator::<F>(0), 1);
    is(rt, two_adic_generator::<F>(1), table.minus_one);
    is(rt, two_adic_generator::<F>(2), table.of_two_bits);
    is(
        rt,
        two_adic_generator::<F>(F::TWO_ADICITY),
        table.of_most_bits,
    );
}

fn has_numbers<F: CanonicalField>(rt: &impl Abort, table: Table) {
    assert!(rt; order::<F>() == table.order);
    assert!(rt; new::<F>(table.order).is_none());
    assert!(rt; new(table.minus_one) == Some(F::NEG_ONE));
    assert!(rt; as_canonical_u64(&F::NEG_ONE) == table.minus_one);
}

fn orders<F: CanonicalField>(rt: &impl Abort, alloc: Global) {
    let mut elements: Vec<F> = list(rt, alloc, &[5, 2, 9, 0]);
    sorted(elements.as_mut_slice());
    are(rt, alloc, elements.as_slice(), &[0, 2, 5, 9]);
    is(rt, least(F::TWO, F::ONE), 1);
    let claim = Claim {
        point: F::ONE,
        value: F::TWO,
    };
    let other = Claim {
        point: F::ONE,
        value: F::ONE,
    };
    is(rt, later(other, claim).value, 2);
}

fn is_as_in<F: CanonicalField>(rt: &impl Abort, alloc: Global, table: Table) {
    has_constants::<F>(rt, table);
    computes::<F>(rt, table);
    has_powers::<F>(rt);
    inverts::<F>(rt, table);
    has_roots::<F>(rt, table);
    has_numbers::<F>(rt, table);
    orders::<F>(rt, alloc);
}

#[test]
fn baby_bear_has_its_numbers(rt: HostRuntime) {
    let table = Table {
        order: 2013265921,
        minus_one: 2013265920,
        two_adicity: 27,
        generator: 31,
        of_most_bits: 440564289,
        of_two_bits: 1728404513,
        half: 1006632961,
    };
    is_as_in::<BabyBear>(&rt, rt.alloc(), table);
}

#[test]
fn goldilocks_has_its_numbers(rt: HostRuntime) {
    let table = Table {
        order: 18446744069414584321,
        minus_one: 18446744069414584320,
        two_adicity: 32,
        generator: 7,
        of_most_bits: 1753635133440165772,
        of_two_bits: 281474976710656,
        half: 9223372034707292161,
    };
    is_as_in::<Goldilocks>(&rt, rt.alloc(), table);
}
