// Extensions by transforms that depend on whole rows, against numbers made elsewhere.

use super::helpers::matrices::{assert_rows, matrix};
use super::{FieldName, Topic, over};
use examples::whole_rows::{
    counted_transform, extension_in_whole_rows, extension_of_opposite_entries,
};
use p3_dft::{CanonicalField, Field, NaiveDft, Radix2Dit, RowMajorMatrix, fits_dft, fits_lde};
use std::alloc::Global;
use std::process::Abort;

fn transforms_two_rows<F: CanonicalField>(rt: &impl Abort, alloc: Global) {
    let values: RowMajorMatrix<F> = matrix(rt, alloc, &[9, 1], 1);
    assert!(rt; fits_dft::<F>(values.height(), values.width()));
    let there = counted_transform(&mut NaiveDft::default(), values).expect(rt, "memory");
    assert_rows(rt, &there, &[10, 8], 1);
}

fn extends_two_rows<F: CanonicalField>(rt: &impl Abort, alloc: Global) {
    let values: RowMajorMatrix<F> = matrix(rt, alloc, &[5, 4], 1);
    assert!(rt; fits_lde::<F>(values.height(), values.width(), 1));
    let extended = extension_in_whole_rows(&mut NaiveDft::default(), values, 1, F::ONE);
    let numbers = [5, 864202261, 4, 1149063669];
    assert_rows(rt, &extended.expect(rt, "memory"), &numbers, 1);
}

// The columns are values of (9 + x) / 2 and of 5 + 4x, so that the extended ones are those of 4 + 5x and
// of (1 + 9x) / 2.
fn extends_in_opposite_order<F: CanonicalField>(rt: &impl Abort, alloc: Global) {
    let values: RowMajorMatrix<F> = matrix(rt, alloc, &[5, 9, 4, 1], 2);
    assert!(rt; values.width() == 2);
    assert!(rt; fits_lde::<F>(values.height(), values.width(), 1));
    let mut engine: Radix2Dit<F> = Radix2Dit::default();
    let extended = extension_of_opposite_entries(&mut engine, values, 1, F::TWO);
    let numbers = [
        14, 1006632970, 1177917766, 456146210, 2013265915, 1006632952, 835348163, 1557119712,
    ];
    assert!(rt; extended.expect(rt, "memory") == matrix(rt, alloc, &numbers, 2));
}

pub(crate) fn each_client<F: CanonicalField>(rt: &impl Abort, alloc: Global) {
    transforms_two_rows::<F>(rt, alloc);
    extends_two_rows::<F>(rt, alloc);
    extends_in_opposite_order::<F>(rt, alloc);
}

#[test]
fn a_transform_is_told_whole_rows(rt: HostRuntime) {
    over(&rt, rt.alloc(), FieldName::BabyBear, Topic::WholeRows);
}
