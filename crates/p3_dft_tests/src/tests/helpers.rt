// What tests share.

pub(crate) mod counting_field;
pub(crate) mod engines;
pub(crate) mod fitting;
pub(crate) mod matrices;
pub(crate) mod own_engines;
pub(crate) mod texts;
