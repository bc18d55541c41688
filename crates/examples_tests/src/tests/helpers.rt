// What tests share.

pub(crate) mod matrices;
