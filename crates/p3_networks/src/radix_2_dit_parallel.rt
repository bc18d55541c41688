//! The tables of the engine, and the slots of its extension.

pub mod coset_tables;
pub mod published_slots;
pub mod tables;
