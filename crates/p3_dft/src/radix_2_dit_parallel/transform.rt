// The network on the subgroup and on a coset, by the tables that the engine keeps.

ghost use Rattle.std.specs.Prelude.{◌≡◌, ℕ, ◌+◌, ◌*◌, ◌/◌, ◌^◌, ◌<◌, ◌≤◌, length};
ghost use Rattle.p3_field.specs.Ring.{power};
ghost use Rattle.p3_matrix.specs.BitOrder.{rev, bit_reversal, reversed_rows};
ghost use Rattle.p3_matrix.specs.RowMajor.{HasShapeOf, height};
ghost use Rattle.p3_matrix.specs.Cosets.{AreCoefficients, IsValues, values_of};
ghost use Rattle.p3_matrix.specs.Polynomials.{poly};
ghost use Rattle.p3_networks.specs.Twiddles.{factor, root_of, scale_cost};
ghost use Rattle.p3_dft.specs.Transforms.{IsInterpolation, IsTransform};
ghost use Rattle.p3_dft.specs.Stored.{HasEntriesOf, HasTwoPowerRows};

use crate::prepared::MatrixWork;
use crate::radix_2_dit_parallel::network::network_to_reversed;
use p3_field::{Field, Products, TwoAdicField};
use p3_matrix::{RowMajorMatrix, reverse_rows};
use p3_networks::layouts::{ByLayer, FromStart};
use p3_networks::radix_2_dit_parallel::coset_tables::CosetTable;
use p3_networks::radix_2_dit_parallel::tables::Tables;

// From coefficients in natural order, their values at the powers of the generator, or of its inverse, in
// bit reversed order. With a scale, the values are multiplied by it.
pub(crate) fn transform_to_reversed<F: TwoAdicField>(
    tables: &Tables<F>,
    inverse: bool,
    scale: Option<F>,
    mat: &mut RowMajorMatrix<F>,
    log_h: usize,
    products: &mut Products,
)
    requires rows { HasTwoPowerRows mat.old log_h }
    requires in_table { log_h ≤ tables.now }
    ensures same { HasEntriesOf mat.new mat.old }
    ensures values { (r j : ℕ) → r < 2 ^ log_h → j < mat.old.width → (values_of F.Valued.own mat.new).entry r j
        ≡ poly F.ring (2 ^ log_h) (λ q. F.ring.mul ((values_of F.Valued.own mat.old).entry q j)
        (factor F.Valued.own scale))
        (power F.ring (root_of F.Valued.own F.generator inverse log_h) (rev log_h r)) }
    ensures grows { products.old ≤ products.new }
    ensures cost { products.new ≤ products.old + mat.old.width * (log_h * 2 ^ log_h / 2)
        + scale_cost scale * (2 ^ log_h * mat.old.width) }
{
    let mid = (log_h + 1) / 2;
    let low = ByLayer {
        twiddles: tables.low(inverse),
    };
    let high = FromStart {
        twiddles: tables.high(inverse),
    };
    network_to_reversed(low, high, scale, mat, mid, log_h - mid, products);
}

// From coefficients to values on the subgroup, whose rows are left in bit reversed order.
#[derive(Drop)]
pub(crate) struct Evaluation;

impl<F: TwoAdicField> MatrixWork<F, Tables<F>> for Evaluation {
    ghost takes = { λ work mat out. HasShapeOf out mat × ((bits : ℕ) → height out ≡ 2 ^ bits
        → IsTransform F.Valued.own F.generator mat F.ring.one (reversed_rows bits out)) };

    ghost more = { λ work. 0 };

    fn on_matrix(
        &self,
        tables: &Tables<F>,
        mat: &mut RowMajorMatrix<F>,
        log_h: usize,
        products: &mut Products,
    ) {
        transform_to_reversed(tables, false, None, mat, log_h, products);
    }
}

// From values on the subgroup to coefficients.
#[derive(Drop)]
pub(crate) struct Interpolation;

impl<F: TwoAdicField> MatrixWork<F, Tables<F>> for Interpolation {
    ghost takes = { λ work mat out. IsInterpolation F.Valued.own F.generator mat F.ring.one out };

    ghost more = { λ work. 1 };

    fn on_matrix(
        &self,
        tables: &Tables<F>,
        mat: &mut RowMajorMatrix<F>,
        log_h: usize,
        products: &mut Products,
    ) {
        interpolate_to_reversed(tables, mat, log_h, products);
        reverse_rows(mat);
    }
}

// From values on the subgroup in natural order, the coefficients, in bit reversed order.
pub(crate) fn interpolate_to_reversed<F: TwoAdicField>(
    tables: &Tables<F>,
    mat: &mut RowMajorMatrix<F>,
    log_h: usize,
    products: &mut Products,
)
    requires rows { HasTwoPowerRows mat.old log_h }
    requires in_table { log_h ≤ tables.now }
    requires within { log_h ≤ F.TWO_ADICITY }
    ensures same { HasEntriesOf mat.new mat.old }
    ensures coefficients { AreCoefficients F.ring
        (λ n. F.value (F.generator n)) (values_of F.Valued.own mat.old) log_h F.ring.one
        (bit_reversal log_h (values_of F.Valued.own mat.new)) }
    ensures grows { products.old ≤ products.new }
    ensures cost { products.new ≤ products.old + mat.old.width * (log_h * 2 ^ log_h / 2) + 2 ^ log_h * mat.old.width }
{
    let scale = F::ONE.div_2exp_u64(log_h as u64);
    transform_to_reversed(tables, true, Some(scale), mat, log_h, products);
}

// From coefficients in natural order, their values on the coset that a table is of, in bit reversed
// order.
pub(crate) fn evaluate_on_coset_to_reversed<F: TwoAdicField>(
    table: &CosetTable<F>,
    mat: &mut RowMajorMatrix<F>,
    log_h: usize,
    products: &mut Products,
)
    requires rows { HasTwoPowerRows mat.old log_h }
    requires table { table.now.log_h ≡ log_h }
    ensures same { HasEntriesOf mat.new mat.old }
    ensures values { IsValues F.ring
        (λ n. F.value (F.generator n)) (values_of F.Valued.own mat.old) log_h (F.value table.now.shift)
        (bit_reversal log_h (values_of F.Valued.own mat.new)) }
    ensures grows { products.old ≤ products.new }
    ensures cost { products.new ≤ products.old + mat.old.width * (log_h * 2 ^ log_h / 2) }
{
    let mid = (log_h + 1) / 2;
    let twiddles = ByLayer {
        twiddles: table.twiddles(),
    };
    network_to_reversed(twiddles, twiddles, None, mat, mid, log_h - mid, products);
}
