//! All of the program `dft` but for its `main`: the words of a command line in, a text and a status out.
//!
//! It is a crate of its own so that its tests, in `dft_tests`, do not prove it once more.
#![tactic(auto)]

mod account;
pub mod arguments;
pub mod counted;
pub mod environment;
pub mod fault;
pub mod matrices;
pub mod names;
pub mod number;
pub mod program;
pub mod sink;
pub mod words;

pub use counted::Counted;
pub use program::run;
pub use sink::Sink;
