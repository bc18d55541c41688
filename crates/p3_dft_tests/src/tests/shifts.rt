// Rows times the powers of a shift, of a height that no transform has.

use super::helpers::matrices::{assert_elements, elements};
use super::{FieldName, Topic, over};
use p3_dft::{CanonicalField, Field, Products};
use p3_networks::shifts::{copy_shifted, shift_values};
use std::alloc::Global;
use std::process::Abort;

// Three rows of two entries, in place.
fn shifts_in_place<F: CanonicalField>(rt: &impl Abort, alloc: Global, shift: F, numbers: &[u64]) {
    let mut values: Vec<F> = elements(rt, alloc, &[1, 2, 3, 4, 5, 6]);
    assert!(rt; values.len() == 6);
    let mut products = Products::new();
    shift_values(values.as_mut_slice(), 2, 3, shift, &mut products);
    assert_elements(rt, values, numbers);
}

// Three rows of two entries, out of place.
fn copies_shifted<F: CanonicalField>(rt: &impl Abort, alloc: Global, shift: F, numbers: &[u64]) {
    let rows: Vec<F> = elements(rt, alloc, &[1, 2, 3, 4, 5, 6]);
    let mut values: Vec<F> = elements(rt, alloc, &[9; 6]);
    assert!(rt; rows.len() == 6 && values.len() == 6);
    let mut products = Products::new();
    copy_shifted(
        rows.as_slice(),
        values.as_mut_slice(),
        2,
        3,
        shift,
        &mut products,
    );
    assert_elements(rt, values, numbers);
}

pub(crate) fn shifts<F: CanonicalField>(rt: &impl Abort, alloc: Global) {
    for (shift, numbers) in [
        (2u8, [1, 2, 6, 8, 20, 24]),
        (1, [1, 2, 3, 4, 5, 6]),
        (0, [1, 2, 0, 0, 0, 0]),
    ] {
        shifts_in_place(rt, alloc, F::from_u8(shift), &numbers);
        copies_shifted(rt, alloc, F::from_u8(shift), &numbers);
    }
}

#[test]
fn rows_are_multiplied_by_powers_of_the_shift(rt: HostRuntime) {
    over(&rt, rt.alloc(), FieldName::BabyBear, Topic::Shifts);
    over(&rt, rt.alloc(), FieldName::Goldilocks, Topic::Shifts);
}
