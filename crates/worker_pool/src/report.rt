//! A run that is reported: what its lanes end with is joined at its end.

pub(crate) mod conclude;
mod feed;
pub(crate) mod lanes;
