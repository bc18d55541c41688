//! Transforms of matrices whose columns lie on cosets of their own.

ghost use Rattle.std.specs.Prelude.{◌≡◌, ◌+◌, ◌*◌, ◌<◌, ℕ, IfOk, IsOk};
ghost use Rattle.std.specs.Mem.{type_size};
ghost use Rattle.p3_field.specs.Ring.{IsInverse, IsInvertible};
ghost use Rattle.p3_matrix.specs.Cosets.{values_of};
ghost use Rattle.p3_matrix.specs.Matrix.{Same};
ghost use Rattle.p3_matrix.specs.RowMajor.{IsRowMajor, height};
ghost use Rattle.p3_dft.specs.ColumnCosets.{IsInterpolationByColumns, IsTransformByColumns};
ghost use Rattle.p3_dft.specs.ColumnCosets.{column_shift, columns_shifted};
ghost use Rattle.p3_dft.specs.Engines.{AfterDft, AtLog};
ghost use Rattle.p3_dft.specs.Shapes.{FitsDft};

use crate::traits::TwoAdicSubgroupDft;
use p3_field::{Field, Products, TwoAdicField};
use p3_matrix::{DftError, Evaluations, RowMajorMatrix};
use p3_networks::shifts::shift_columns;

/// The values of the polynomials whose coefficients are the columns, those of column j on the coset
/// `shift * step^j * H`. H is the subgroup whose order is the height, so row i of column j belongs to the point
/// `shift * step^j * g^i`, where `g = F::two_adic_generator(log2(height))`. The shift and the step may be zero. The
/// shape is one that `fits_dft` accepts. At most one product an entry comes to those of `dft_batch`.
///
/// With `step` one this is `coset_dft_batch`. With a step that generates a larger subgroup it is the second half of a
/// transform of one column in two halves.
pub fn coset_dft_columns<F: TwoAdicField, D: TwoAdicSubgroupDft<F>>(
    engine: &mut D,
    mut mat: RowMajorMatrix<F>,
    shift: F,
    step: F,
) -> Result<RowMajorMatrix<F>, DftError>
    requires fits { FitsDft F.TWO_ADICITY (height mat) mat.width }
    ensures values { IfOk result (IsTransformByColumns F.Valued.own F.generator mat
        (column_shift F.ring (F.value shift) (F.value step))) }
    ensures succeeds { AtLog (height mat) (λ k. D.facts.Succeeds engine.old k → IsOk result) }
    ensures engine { AfterDft D.facts (type_size F.row) engine.old engine.new result mat 1 }
{
    let mut products = Products::new();
    shift_each_column(&mut mat, shift, step, &mut products);
    engine.add_products(products);
    let values = engine.dft_batch(mat)?;
    Ok(values.to_row_major_matrix())
}

/// The coefficients of the polynomials whose values are the columns, those of column j on the coset
/// `shift * step^j * H`. No other matrix of coefficients has these values. The shape is one that `fits_dft` accepts,
/// and the shift of each column has an inverse: `shift`, and `step` where there are several columns. At most two
/// products an entry come to those of `dft_batch`.
pub fn coset_idft_columns<F: TwoAdicField, D: TwoAdicSubgroupDft<F>>(
    engine: &mut D,
    mat: RowMajorMatrix<F>,
    shift: F,
    step: F,
) -> Result<RowMajorMatrix<F>, DftError>
    requires fits { FitsDft F.TWO_ADICITY (height mat) mat.width }
    requires invertible { (j : ℕ) → j < mat.width
        → IsInvertible F.ring (column_shift F.ring (F.value shift) (F.value step) j) }
    ensures coefficients { IfOk result (IsInterpolationByColumns F.Valued.own F.generator mat
        (column_shift F.ring (F.value shift) (F.value step))) }
    ensures succeeds { AtLog (height mat) (λ k. D.facts.Succeeds engine.old k → IsOk result) }
    ensures engine { AfterDft D.facts (type_size F.row) engine.old engine.new result mat 2 }
{
    let mut coefficients = engine.idft_batch(mat)?;
    let mut products = Products::new();
    shift_each_column(
        &mut coefficients,
        inverse_or_one(shift),
        inverse_or_one(step),
        &mut products,
    );
    engine.add_products(products);
    Ok(coefficients)
}

// The inverse, or one where there is none, as the step of a single column need not have one.
fn inverse_or_one<F: Field>(x: F) -> F
    ensures { IsInvertible F.ring (F.value x) → IsInverse F.ring (F.value x) (F.value result) }
{
    match x.try_inverse() {
        Some(inverse) => inverse,
        None => F::ONE,
    }
}

// Multiplies the entry in row i and column j by the i-th power of `shift * step^j`, with one product an entry.
fn shift_each_column<F: TwoAdicField>(
    mat: &mut RowMajorMatrix<F>,
    shift: F,
    step: F,
    products: &mut Products,
)
    ensures shifted { Same (values_of F.Valued.own mat.new) (columns_shifted F.ring
        (column_shift F.ring (F.value shift) (F.value step)) (values_of F.Valued.own mat.old)) }
    ensures whole { IsRowMajor mat.old }
    ensures count { products.new ≡ products.old + height mat.old * mat.old.width }
{
    let width = mat.width();
    let height = mat.height();
    shift_columns(mat.values_mut(), width, height, shift, step, products);
}
