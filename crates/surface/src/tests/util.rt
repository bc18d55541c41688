// The tests of shapes, and the division by the height.

ghost use Rattle.std.specs.Prelude.{◌≡◌, ◌^◌, ℕ};
ghost use Rattle.p3_matrix.specs.RowMajor.{height};

use super::{are, matrix};
use p3_dft::{
    BabyBear, CanonicalField, Packable, Products, RowMajorMatrix, RowMajorMatrixViewMut,
    TwoAdicField, divide_by_height, fits_dft, fits_lde,
};
use std::alloc::Global;
use std::process::Abort;

fn divided<F: Packable>(view: &mut RowMajorMatrixViewMut<'_, F>, products: &mut Products)
    requires { (k : ℕ) × (height view.old.matrix.now ≡ 2 ^ k) }
{
    divide_by_height(view, products);
}

fn fits_transform<F: TwoAdicField>(height: usize, width: usize) -> bool {
    fits_dft::<F>(height, width)
}

fn fits_extension<F: TwoAdicField>(height: usize, width: usize, added_bits: usize) -> bool {
    fits_lde::<F>(height, width, added_bits)
}

fn divides<F: CanonicalField>(rt: &impl Abort, alloc: Global) {
    let mut mat: RowMajorMatrix<F> = matrix(rt, alloc, &[2, 4, 6, 8], 2);
    assert!(rt; fits_dft::<F>(mat.height(), mat.width()));
    divided(&mut mat.as_view_mut(), &mut Products::new());
    are(rt, alloc, mat.values(), &[1, 2, 3, 4]);
    let mut row: RowMajorMatrix<F> = matrix(rt, alloc, &[10, 20, 30, 40], 4);
    assert!(rt; fits_dft::<F>(row.height(), row.width()));
    divided(&mut row.as_view_mut(), &mut Products::new());
    are(rt, alloc, row.values(), &[10, 20, 30, 40]);
}

// Shapes at the limits of a field of so many bits.
fn limits<F: TwoAdicField>(rt: &impl Abort, most: usize) {
    assert!(rt; F::TWO_ADICITY == most && 1 < most && most < 63);
    let shapes = [
        (0, 1),
        (3, 1),
        (1usize << (most + 1), 1),
        (1, 0),
        (2, usize::MAX),
    ];
    assert!(rt;
        shapes
            .iter()
            .all(|shape| !fits_transform::<F>(shape.0, shape.1))
    );
    assert!(rt; fits_transform::<F>(1 << most, 1));
    assert!(rt; fits_extension::<F>(2, 1, most - 1));
    let bits = [most, 64, usize::MAX];
    assert!(rt; bits.iter().all(|bits| !fits_extension::<F>(2, 1, *bits)));
    assert!(rt; !fits_extension::<F>(3, 1, 1));
}

fn of_any_field<F: CanonicalField>(rt: &impl Abort, alloc: Global, most: usize) {
    limits::<F>(rt, most);
    divides::<F>(rt, alloc);
}

#[test]
fn shapes_fit_up_to_their_limits(rt: HostRuntime) {
    of_any_field::<BabyBear>(&rt, rt.alloc(), 27);
}
