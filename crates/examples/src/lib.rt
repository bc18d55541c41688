//! Clients of `p3_dft`, as a user writes them, one to a file: each file says at its top what is proved of it.
//!
//! All are generic over the field and the engine, but where they show a named one. They name `p3_dft`, and `opening`
//! also `p3_interpolation`; what their contracts speak of is brought in by `ghost use`.
#![tactic(auto)]

pub mod agreement;
pub mod by_parts;
pub mod closures;
pub mod extended;
pub mod extension;
pub mod extension_folding;
pub mod field_forms;
pub mod folding;
pub mod fri;
pub mod inverses;
pub mod jobs;
pub mod known;
pub mod linearity;
pub mod low_degree;
pub mod merkle_paths;
pub mod merkle_root;
pub mod opening;
pub mod own_engine;
pub mod product;
pub mod promises;
pub mod published;
pub mod published_degree;
pub mod quadratic;
pub mod sizes;
pub mod there_and_back;
pub mod views;
pub mod whole_rows;
