//! Tests of events and connections under control, by public calls alone: stores of trees (`stores`, `sharing`), user-defined
//! events (`definitions`), trees and walks (`trees`, `forests`, `walks`, `natives`), scripts and versions (`scripts`,
//! `versions`, `masters`), connections (`connections`), and the small applications (`traffic`, `firewall`).
//!
//! Crates tested: `shared_forest`, `event_trees`, `forest_versions`, `control_script`, `connection_core`, `app_traffic`,
//! `app_firewall`.
//! Begin with the table of rows in the module of the subject. `random` compares a walk with a check of each registration alone,
//! and `edit` with `build`.
#![tactic(auto)]

#[cfg(test)]
mod connections;
#[cfg(test)]
mod definitions;
#[cfg(test)]
mod firewall;
#[cfg(test)]
mod forests;
#[cfg(test)]
mod masters;
#[cfg(test)]
mod natives;
#[cfg(test)]
mod random;
#[cfg(test)]
mod scripts;
#[cfg(test)]
mod sharing;
#[cfg(test)]
mod stores;
#[cfg(test)]
mod traffic;
#[cfg(test)]
mod trees;
#[cfg(test)]
mod versions;
#[cfg(test)]
mod walks;
