// Shapes at their limits, and the division by the height.

use super::helpers::matrices::matrix;
use super::{FieldName, Topic, over};
use p3_dft::{
    CanonicalField, Products, RowMajorMatrix, TwoAdicField, divide_by_height, fits_dft, fits_lde,
    log_height,
};
use std::alloc::Global;
use std::process::Abort;

// Which columns fit a transform over a field of this two-adicity.
fn shapes_that_fit<F: TwoAdicField>(rt: &impl Abort) {
    assert!(rt; F::TWO_ADICITY == 27);
    assert!(rt; !fits_dft::<F>(0, 1));
    assert!(rt; !fits_dft::<F>(3, 1));
    assert!(rt; !fits_dft::<F>(1 << 28, 1));
    assert!(rt; fits_dft::<F>(1 << 27, 1));
    assert!(rt; !fits_dft::<F>(1, 0));
    assert!(rt; !fits_dft::<F>(2, usize::MAX));
}

// Shapes that `fits_lde` accepts, and the first that it refuses.
fn shapes_that_can_be_extended<F: TwoAdicField>(rt: &impl Abort) {
    assert!(rt; fits_lde::<F>(2, 1, 26));
    assert!(rt; !fits_lde::<F>(2, 1, 27));
    assert!(rt; !fits_lde::<F>(2, 1, 64));
}

// What is divided by the height: the rows of four entries in one, two and four rows, with the logarithm of the height.
fn divides_by_heights<F: CanonicalField>(rt: &impl Abort, alloc: Global) {
    for (width, log_h, numbers, divided) in [
        (4usize, 0usize, [10, 20, 30, 40], [10, 20, 30, 40]),
        (2, 1, [2, 4, 6, 8], [1, 2, 3, 4]),
        (1, 2, [4, 8, 12, 16], [1, 2, 3, 4]),
    ] {
        let mut mat: RowMajorMatrix<F> = matrix(rt, alloc, &numbers, width);
        assert!(rt; fits_dft::<F>(mat.height(), mat.width()));
        assert_eq!(rt; log_height(&mat), log_h);
        divide_by_height(&mut mat.as_view_mut(), &mut Products::new());
        assert!(rt; mat == matrix(rt, alloc, &divided, width));
    }
}

pub(crate) fn shapes_and_heights<F: CanonicalField>(rt: &impl Abort, alloc: Global) {
    shapes_that_fit::<F>(rt);
    shapes_that_can_be_extended::<F>(rt);
    divides_by_heights::<F>(rt, alloc);
}

#[test]
fn shapes_fit_up_to_their_limits(rt: HostRuntime) {
    over(&rt, rt.alloc(), FieldName::BabyBear, Topic::Shapes);
}
