// An engine that owns only what an engine must: all else of it is a default body of the trait. It has coefficients and
// values in the orders that `NaiveDft` does not have.

ghost use Rattle.std.specs.Prelude.{◌≡◌, ℕ, ◌*◌, ◌^◌};

use p3_dft::{
    BitReversedMatrixView, DftError, Evaluations, IntoRowMajorMatrix, Layout, NaiveDft, Products,
    RowMajorMatrix, TwoAdicField, TwoAdicSubgroupDft, growth,
};
use std::alloc::AllocError;

// Has both in bit reversed order, and makes so many transforms: memory for a later one is refused.
#[derive(Drop)]
pub(crate) struct LimitedDft {
    left: usize,
    sums: NaiveDft,
}

impl LimitedDft {
    pub(crate) fn new(left: usize) -> Self
        ensures { result.sums ≡ 0 }
    {
        LimitedDft {
            left,
            sums: NaiveDft::default(),
        }
    }
}

impl Default for LimitedDft {
    ghost use Rattle.std.specs.Prelude.{◌≡◌};

    ghost is_default = { λ e. e.sums ≡ 0 };

    fn default() -> Self {
        Self::new(usize::MAX)
    }
}

impl Clone for LimitedDft {
    ghost use Rattle.std.specs.Prelude.{◌≡◌, ⊤};

    ghost is_clone = { λ _ e. e.sums ≡ 0 };

    ghost is_infallible = { λ _. ⊤ };

    fn clone(&self) -> Result<Self, AllocError> {
        Ok(Self::new(self.left))
    }
}

impl<F: TwoAdicField> TwoAdicSubgroupDft<F> for LimitedDft {
    ghost use Rattle.std.specs.Prelude.{⊤, ℕ, ◌+◌, ◌*◌, ◌^◌};
    ghost use Rattle.std.proofs.Common.{refl, rules};
    ghost use Rattle.std.specs.Mem.{type_size};
    ghost use Rattle.p3_dft.specs.Engines.{plain_facts};
    ghost use Rattle.p3_dft.specs.declared.traits.Layout.TheVariants.{BitReversed};

    type Evaluations = BitReversedMatrixView<RowMajorMatrix<F>>;

    const LAYOUT: Layout = Layout::BitReversed;

    ghost LAYOUT = { BitReversed };

    // It keeps no tables, and asks for more elements than memory holds: the list that it names is of these.
    ghost facts = { record (plain_facts (λ _ _. ⊥) (λ _ _ _. ⊤) (λ _ _. ⊤) (λ k w. 2 ^ k * 2 ^ k * w) (λ e. e.sums)) {
      tables = λ e. 2 ^ 64;
      table_bytes = type_size F.row;
    } };

    ghost laws = { record {
      power_of_two = λ k a. (k + a, Prim.search (rules), refl);
      new_made_none = λ e none. none;
      clone_made_none = λ e copy none. none;
      clones = λ e. tt;
    } };

    fn dft_batch<N: IntoRowMajorMatrix<F>>(
        &mut self,
        mat: N,
    ) -> Result<BitReversedMatrixView<RowMajorMatrix<F>>, DftError> {
        let mat = mat.into_row_major_matrix();
        if self.left == 0 {
            // No process has room for so many elements.
            let _none: Vec<F> = growth::with_capacity(*mat.allocator(), usize::MAX)?;
        }
        self.left = self.left.saturating_sub(1);
        let values: RowMajorMatrix<F> = self.sums.dft_batch(mat)?;
        Ok(values.into_bit_reversed())
    }

    fn add_products(&mut self, products: Products) {
        TwoAdicSubgroupDft::<F>::add_products(&mut self.sums, products);
    }

    fn block_height(&self, log_h: usize, added_bits: usize) -> usize {
        1 << (log_h + added_bits)
    }

    fn coset_lde_batch_with_transform<
        N: IntoRowMajorMatrix<F>,
        T: FnOnce(RowMajorMatrix<F>, Layout) -> RowMajorMatrix<F> + Drop,
    >(
        &mut self,
        mat: N,
        added_bits: usize,
        shift: F,
        transform: T,
    ) -> Result<BitReversedMatrixView<RowMajorMatrix<F>>, DftError> {
        self.coset_lde_batch_by_parts(mat, added_bits, shift, transform)
    }
}
