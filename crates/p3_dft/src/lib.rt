//! Discrete Fourier transforms over two-adic subgroups of finite fields and their cosets.
//!
//! A matrix holds one polynomial in each column. `TwoAdicSubgroupDft` is the trait of the engines
//! that transform all columns at once; this crate gives the public names of `p3_field` and
//! `p3_matrix` that a user needs again, so that a user names one crate.
#![tactic(auto)]

mod algebra;
pub mod blocks;
pub mod columns;
pub mod jobs;
pub mod naive;
pub mod points;
mod prepared;
pub mod radix_2_bowers;
pub mod radix_2_dit;
pub mod radix_2_dit_parallel;
pub mod radix_2_small_batch;
pub mod reed_solomon;
pub mod traits;
pub mod util;

pub use blocks::{BlocksStopped, Unpublished};
pub use columns::{coset_dft_columns, coset_idft_columns};
pub use growth;
pub use growth::Refused;
pub use jobs::{Job, JobsStopped, run_jobs};
pub use naive::NaiveDft;
pub use p3_field::power_iterator::Powers;
pub use p3_field::{
    BabyBear, BabyBearX8, BasedVectorSpace, CanonicalField, Coordinates, Field, FieldOps,
    Goldilocks, GoldilocksX8, KoalaBear, KoalaBearX8, Lanes, Packable, PackedField, Products,
    TwoAdicField, Valued, WideBabyBear, WideGoldilocks, WideKoalaBear,
    batch_multiplicative_inverse, batch_multiplicative_inverse_to, first_without_inverse, scaled,
};
pub use p3_matrix::{
    BitReversedMatrixView, BlockConsumer, BlockLimit, BlockRefused, Butterfly, DftError,
    DifButterfly, DifButterflyZeros, DitButterfly, Evaluations, IntoRowMajorMatrix, Recorder,
    RowMajorMatrix, RowMajorMatrixView, RowMajorMatrixViewMut, ScaledDitButterfly,
    TwiddleFreeButterfly, apply_dit_by_place, has_degree_below, log2_strict_usize,
    reverse_bits_len, reverse_matrix_index_bits, reverse_rows, reverse_slice_index_bits,
    scale_slice_in_place, split_rows_mut, swap_rows,
};
pub use points::{invertible_root, invertible_square};
pub use radix_2_bowers::Radix2Bowers;
pub use radix_2_dit::Radix2Dit;
pub use radix_2_dit_parallel::Radix2DitParallel;
pub use radix_2_small_batch::Radix2DFTSmallBatch;
pub use reed_solomon::{ReedSolomon, fits_code};
pub use traits::{Layout, TwoAdicSubgroupDft};
pub use util::{
    divide_by_height, extend_by_zeros, extended_height, fits_dft, fits_lde, log_height,
};
