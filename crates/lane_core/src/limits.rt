//! The limit of a lane.

/// The most that the callbacks of a lane weigh, where its entries are kept.
pub const WEIGHT: u64 = 134_217_728;
