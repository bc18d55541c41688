// The product of two polynomials against numbers made elsewhere.

use super::helpers::matrices::elements;
use super::{FieldName, Topic, over};
use examples::product::product;
use p3_dft::{CanonicalField, NaiveDft, Radix2Bowers, Radix2Dit, TwoAdicSubgroupDft, fits_dft};
use std::alloc::Global;
use std::process::Abort;

// The polynomials whose coefficients have the first numbers have a product with the last ones.
fn multiplies<F: CanonicalField, D: TwoAdicSubgroupDft<F>>(
    rt: &impl Abort,
    alloc: Global,
    engine: &mut D,
    a: &[u64],
    b: &[u64],
    expected: &[u64],
) {
    let a: Vec<F> = elements(rt, alloc, a);
    let b: Vec<F> = elements(rt, alloc, b);
    let size = expected.len();
    assert!(rt; fits_dft::<F>(size, 1));
    assert!(rt; a.len() <= size);
    assert!(rt; b.len() <= size);
    assert!(rt; b.len().saturating_sub(1) <= size - a.len());
    assert!(rt; product(engine, a, b, size).expect(rt, "memory") == elements(rt, alloc, expected));
}

// A product that fills its coefficients, one with room, and one with nothing.
fn small_products<F: CanonicalField, D: TwoAdicSubgroupDft<F>>(rt: &impl Abort, alloc: Global) {
    let mut engine = D::default();
    let full = [5, 16, 34, 60, 70, 70, 59, 36];
    multiplies(
        rt,
        alloc,
        &mut engine,
        &[1, 2, 3, 4],
        &[5, 6, 7, 8, 9],
        &full,
    );
    let (a, b) = ([3, 2013265920, 4, 5], [2, 7, 1, 8, 2000000000]);
    let roomy = [
        6, 19, 4, 61, 1973468189, 13265958, 1960202277, 1946936316, 0, 0, 0, 0, 0, 0, 0, 0,
    ];
    multiplies(rt, alloc, &mut engine, &a, &b, &roomy);
    multiplies(rt, alloc, &mut engine, &[], &[5, 6], &[0, 0]);
}

// By a fast network.
pub(crate) fn small_products_of<F: CanonicalField>(rt: &impl Abort, alloc: Global) {
    small_products::<F, Radix2Dit<F>>(rt, alloc);
}

#[test]
fn polynomials_multiply_over_baby_bear(rt: HostRuntime) {
    over(&rt, rt.alloc(), FieldName::BabyBear, Topic::SmallProducts);
}

fn large_product<F: CanonicalField, D: TwoAdicSubgroupDft<F>>(rt: &impl Abort, alloc: Global) {
    let a = [3, 18446744069414584320, 4, 5];
    let b = [2, 7, 1, 8, 18000000000000000000];
    let expected = [
        6,
        19,
        4,
        61,
        17106511861170831389,
        446744069414584358,
        16659767791756247077,
        16213023722341662716,
    ];
    multiplies(rt, alloc, &mut D::default(), &a, &b, &expected);
}

// By another, and by the definition.
pub(crate) fn large_products<F: CanonicalField>(rt: &impl Abort, alloc: Global) {
    large_product::<F, Radix2Bowers>(rt, alloc);
    large_product::<F, NaiveDft>(rt, alloc);
}

#[test]
fn polynomials_multiply_over_goldilocks(rt: HostRuntime) {
    over(&rt, rt.alloc(), FieldName::Goldilocks, Topic::LargeProducts);
}
