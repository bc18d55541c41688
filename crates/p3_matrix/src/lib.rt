//! Matrices of rows of one width, and views of them.
#![tactic(auto)]

pub mod bitrev;
pub mod blocks;
pub mod butterflies;
pub mod dense;
pub mod error;
pub mod evaluations;
pub mod packs;
pub mod scale;
pub mod util;
pub mod views;

pub use bitrev::{
    BitReversedMatrixView, reverse_bits_len, reverse_matrix_index_bits, reverse_rows,
    reverse_slice_index_bits,
};
pub use blocks::{BlockConsumer, BlockLimit, BlockRefused, Recorder, publish};
pub use butterflies::{
    Butterfly, DifButterfly, DifButterflyZeros, DitButterfly, ScaledDitButterfly,
    TwiddleFreeButterfly, apply_dit_by_place,
};
pub use dense::RowMajorMatrix;
pub use error::DftError;
pub use evaluations::{Evaluations, IntoRowMajorMatrix};
pub use scale::{scale_slice_in_place, scale_slice_oop};
pub use util::{has_degree_below, log2_strict_usize, swap_rows};
pub use views::{RowMajorMatrixView, RowMajorMatrixViewMut, split_rows_mut};
