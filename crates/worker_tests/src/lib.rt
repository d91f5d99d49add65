//! Tests of lanes, rings and workers, by public calls alone: a lane under packets and commands (`lanes`, `idle`, `trees`), and
//! one for which memory is refused (`failing`), rings and the resequencer (`rings`), a worker (`workers`), what lanes end with
//! (`merging`), and whole captures on several lanes, whose ends are the same whatever the number of lanes (`several`).
//!
//! Crates tested: `lane_core`, `lane_rings`, `lane_worker`, `lane_join`, `worker_pool`.
//! Begin with `lanes`; `frames` and `plain` are what the others are given.
#![tactic(auto)]

#[cfg(test)]
mod counting;
#[cfg(test)]
mod failing;
#[cfg(test)]
mod frames;
#[cfg(test)]
mod idle;
#[cfg(test)]
mod lanes;
#[cfg(test)]
mod merging;
#[cfg(test)]
mod plain;
#[cfg(test)]
mod rings;
#[cfg(test)]
mod several;
#[cfg(test)]
mod trees;
#[cfg(test)]
mod workers;
