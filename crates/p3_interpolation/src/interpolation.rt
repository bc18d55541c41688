//! The values of the columns' polynomials at a point.

ghost use Rattle.std.specs.Prelude.{◌≡◌, ◌+◌, ◌*◌, IfErr, IfOk, OnOk, max};
ghost use Rattle.std.specs.Mem.{type_size};
ghost use Rattle.p3_field.specs.Ring.{IsInvertible};
ghost use Rattle.p3_matrix.specs.Room.{IsWithin};
ghost use Rattle.p3_matrix.specs.RowMajor.{height};
ghost use Rattle.p3_dft.specs.Shapes.{FitsDft};
ghost use Rattle.p3_interpolation.specs.Interpolations.{AreValuesAt, IsOffCoset};

use crate::barycentric::barycentric_weights;
use crate::rows::weighted_rows;
use p3_dft::log_height;
use p3_field::{Products, TwoAdicField};
use p3_matrix::{DftError, RowMajorMatrix};

/// The values at `point` of the polynomials whose values on the subgroup H are the columns of `mat`, which has as many
/// rows as H has elements: `interpolate_coset` with the shift one.
pub fn interpolate_subgroup<F: TwoAdicField>(
    mat: &RowMajorMatrix<F>,
    point: F,
    products: &mut Products,
) -> Result<Vec<F>, DftError>
    requires fits { FitsDft F.TWO_ADICITY (height mat.now) mat.now.width }
    requires off_subgroup { IsOffCoset F.ring (height mat.now) F.ring.one (F.value point) }
    ensures values { IfOk result (λ v. AreValuesAt F.Valued.own F.generator mat.now F.ring.one (F.value point)
        v.items) }
    ensures count { OnOk result (products.new ≡ products.old + height mat.now * mat.now.width) }
    ensures room { IfErr result (IsWithin (type_size F.row) (max (height mat.now) mat.now.width)) }
{
    interpolate_coset(mat, F::ONE, point, products)
}

/// The values at `point` of the polynomials whose values on `shift * H` are the columns of `mat`, which has as many
/// rows as H has elements: entry j is that of the only polynomial of so many coefficients with the values in column j.
/// The point lies off the coset (`is_off_coset` tells). An error is out of memory.
///
/// It makes the weights of the rows (`barycentric_weights`) and then one product an entry, which `products` counts.
pub fn interpolate_coset<F: TwoAdicField>(
    mat: &RowMajorMatrix<F>,
    shift: F,
    point: F,
    products: &mut Products,
) -> Result<Vec<F>, DftError>
    requires fits { FitsDft F.TWO_ADICITY (height mat.now) mat.now.width }
    requires shift { IsInvertible F.ring (F.value shift) }
    requires off_coset { IsOffCoset F.ring (height mat.now) (F.value shift) (F.value point) }
    ensures values { IfOk result (λ v. AreValuesAt F.Valued.own F.generator mat.now (F.value shift) (F.value point)
        v.items) }
    ensures count { OnOk result (products.new ≡ products.old + height mat.now * mat.now.width) }
    ensures room { IfErr result (IsWithin (type_size F.row) (max (height mat.now) mat.now.width)) }
{
    let log_height = log_height(mat);
    let weights = barycentric_weights(*mat.allocator(), log_height, shift, point)?;
    let sums = weighted_rows(mat, &RowMajorMatrix::new_col(weights), products)?;
    Ok(sums.into_values())
}
