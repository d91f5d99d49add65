//! Event trees, each as two flat lists, and stores that keep each different tree once where they can: `Table`, of one owner,
//! over `indexmap`, and `ForestStore`, which threads share through a `StoreUser` each, over the rows of `boxcar` and an index
//! under a lock.
//!
//! Contract: a place that a store answered holds its tree for good, and equal row numbers mean equal trees. Looking at a tree
//! never waits.
//! Begin with `specs/Listing.antt` and `specs/Layout.antt`, then `src/tree.rt` and `src/store.rt`; for threads with
//! `specs/Using.antt`, `src/forest_store.rt` and `src/store_user.rt`.
//! Tests: `event_tests` (stores, sharing).
#![tactic(auto)]

mod forest_store;
mod heard;
mod hints;
mod key;
mod node;
mod store;
mod store_user;
mod table;
mod tree;

pub use forest_store::ForestStore;
pub use node::{Node, Slot};
pub use store::{ForestView, Forests, Shared};
pub use store_user::StoreUser;
pub use table::Table;
pub use tree::Tree;
