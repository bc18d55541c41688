//! An engine of one's own, whole: what an engine owes, in the order in which one writes it. All other calls
//! of the trait, extensions and published blocks among them, come with their proofs as default bodies.
//!
//! Proved, with no proof file: it meets every clause of the trait, as the engines of the library do. Of every
//! engine there is another, without an error and with no products made (`another`), by what `laws` says of clones.
//!
//! A new engine and a clone have made no products (`is_default`, `is_clone`), and a clone takes no memory
//! (`is_infallible`), which `laws` asks for. `facts` tells contracts, one after another: at which heights a
//! transform is promised to succeed (none here), with which shifts besides, what is known of a height that was
//! transformed (nothing), how many products a transform of `2^k` rows of w entries makes at most, and the
//! engine's counter.

ghost use Rattle.std.specs.Prelude.{◌≡◌, ◌*◌, ◌^◌};

use p3_dft::{
    BitReversedMatrixView, DftError, Evaluations, IntoRowMajorMatrix, Layout, NaiveDft, Products,
    RowMajorMatrix, TwoAdicField, TwoAdicSubgroupDft,
};
use std::alloc::AllocError;

/// Transforms by the definition, as `NaiveDft` makes them, whose values lie in bit reversed order.
#[derive(Drop)]
pub struct NaturalToReversed {
    // Makes the values, and counts the products.
    sums: NaiveDft,
}

impl Default for NaturalToReversed {
    ghost use Rattle.std.specs.Prelude.{◌≡◌};

    ghost is_default = { λ e. e.sums ≡ 0 };

    fn default() -> Self {
        NaturalToReversed {
            sums: NaiveDft::default(),
        }
    }
}

impl Clone for NaturalToReversed {
    ghost use Rattle.std.specs.Prelude.{◌≡◌, ⊤};

    ghost is_clone = { λ _ e. e.sums ≡ 0 };

    ghost is_infallible = { λ _. ⊤ };

    fn clone(&self) -> Result<Self, AllocError> {
        Ok(Self::default())
    }
}

impl<F: TwoAdicField> TwoAdicSubgroupDft<F> for NaturalToReversed {
    ghost use Rattle.std.specs.Prelude.{⊤, ◌+◌, ◌*◌, ◌^◌};
    ghost use Rattle.std.proofs.Common.{refl, rules};
    ghost use Rattle.p3_dft.specs.Engines.{plain_facts};
    ghost use Rattle.p3_dft.specs.declared.traits.Layout.TheVariants.{Natural};

    type Evaluations = BitReversedMatrixView<RowMajorMatrix<F>>;

    const LAYOUT: Layout = Layout::Natural;

    ghost LAYOUT = { Natural };

    ghost facts = { plain_facts (λ _ _. ⊥) (λ _ _ _. ⊤) (λ _ _. ⊤) (λ k w. 2 ^ k * 2 ^ k * w) (λ e. e.sums) };

    ghost laws = { record {
      power_of_two = λ k a. (k + a, Prim.search (rules), refl);
      new_made_none = λ e none. none;
      clone_made_none = λ e copy none. none;
      clones = λ e. tt;
    } };

    fn dft_batch<N: IntoRowMajorMatrix<F>>(
        &mut self,
        mat: N,
    ) -> Result<BitReversedMatrixView<RowMajorMatrix<F>>, DftError> {
        let values: RowMajorMatrix<F> = self.sums.dft_batch(mat)?;
        Ok(values.into_bit_reversed())
    }

    fn add_products(&mut self, products: Products) {
        TwoAdicSubgroupDft::<F>::add_products(&mut self.sums, products);
    }

    fn block_height(&self, log_h: usize, added_bits: usize) -> usize {
        1 << (log_h + added_bits)
    }

    fn coset_lde_batch_with_transform<
        N: IntoRowMajorMatrix<F>,
        T: FnOnce(RowMajorMatrix<F>, Layout) -> RowMajorMatrix<F> + Drop,
    >(
        &mut self,
        mat: N,
        added_bits: usize,
        shift: F,
        transform: T,
    ) -> Result<BitReversedMatrixView<RowMajorMatrix<F>>, DftError> {
        self.coset_lde_batch_by_parts(mat, added_bits, shift, transform)
    }
}

/// Another engine of the type, whatever it is, for work that does not wait for the first: a clone takes no
/// memory, and has made no products.
pub fn another<F: TwoAdicField, D: TwoAdicSubgroupDft<F>>(engine: &D) -> D
    ensures { D.facts.products_made result ≡ 0 }
{
    match engine.clone() {
        Ok(copy) => copy,
        Err(_) => unreachable!(),
    }
}
