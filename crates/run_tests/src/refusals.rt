//! The line that tells a refusal, and what is left where it can't be told.

use crate::runs::sink;
use mos_run::{RunError, ScriptFault, refuse};
use std::process::Abort;

// The refusal, its text, and the call of err that fails: the status, and what err got.
const TOLD: &[(&str, RunError, &str, u64, u8, &str)] = &[
    (
        "a refusal that is half told",
        RunError::Script(ScriptFault::TooDeep, 7),
        "script: line 7: TooDeep",
        0,
        2,
        "mos: script: l",
    ),
    (
        "a refusal that is told",
        RunError::TooMany(7),
        "too many packets at 7",
        9,
        7,
        "mos: too many packets at 7\n",
    ),
];

// A fault of err changes no status.
fn tells<R: AllocGlobal + Abort>(
    rt: &R,
    error: RunError,
    text: &str,
    fails: u64,
    status: u8,
    told: &str,
) -> bool {
    let mut err = sink(rt, 64, fails);
    let printed = format!(in rt.alloc(); "{error}").expect(rt, "memory");
    let ended = refuse(rt.alloc(), &mut err, error);
    ended.status == status && err.bytes() == told.as_bytes() && printed.as_str() == text
}

#[test]
fn refusals_that_are_told(rt: HostRuntime) {
    for &(name, error, text, fails, status, told) in TOLD {
        assert!(rt; tells(&rt, error, text, fails, status, told), "{name}");
    }
}
