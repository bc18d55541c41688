//! The slots of the engine's extensions.

pub mod slots;
