//! Which types threads may share, and which they may hand over.

use app_firewall::FirewallApp;
use app_traffic::{AcctApp, RexmitApp};
use control_script::Script;
use event_trees::{Defs, EventDef};
use forest_versions::{Command, Master, Stamp};
use shared_forest::{ForestStore, Shared, StoreUser, Table, Tree};
use std::alloc::Global;
use std::sync::{Arc, Wait};

// Asks that threads may share a type, and hand it over.
fn is_shared<T: Send + Sync>() -> bool {
    true
}

// Asks that threads may hand over a type.
fn is_handed_over<T: Send>() -> bool {
    true
}

// A user whose handle may be handed to a thread may be handed itself.
fn user_is_handed_over<R: Wait + Send + Sync + Drop>(_: R) -> bool {
    is_handed_over::<StoreUser<R>>()
}

// What is in force may be handed to a thread.
fn master_is_handed_over() -> bool {
    is_handed_over::<Master>()
}

#[test]
fn threads_share_and_hand_over(rt: HostRuntime) {
    let rows = [
        ("Tree", is_shared::<Tree>()),
        ("Table", is_shared::<Table>()),
        ("Shared", is_shared::<Shared>()),
        ("ForestStore", is_shared::<Arc<ForestStore, Global>>()),
        ("StoreUser", user_is_handed_over(rt)),
        ("EventDef", is_shared::<EventDef>()),
        ("Defs", is_shared::<Defs>()),
        ("Command", is_shared::<Command>()),
        ("Stamp", is_shared::<Stamp>()),
        ("Master", master_is_handed_over()),
        ("Script", is_shared::<Script>()),
        ("AcctApp", is_shared::<AcctApp>()),
        ("RexmitApp", is_shared::<RexmitApp>()),
        ("FirewallApp", is_shared::<FirewallApp>()),
    ];
    for (name, holds) in rows {
        assert!(rt; holds, "{name}");
    }
}
