//! That the numbers and bytes of values lie in the ranges of their types. Contracts speak of all numbers, and a proof knows the
//! range of a number once it is read. So these calls read, and do nothing.

ghost use Rattle.std.specs.Prelude.{IsTrue};
ghost use Rattle.std.specs.List.{list_all};
ghost use Rattle.callback_log.specs.Walk.{entry_lent};
ghost use Rattle.report_text.specs.Ranges.{are_bytes, drop_fits, endpoint_fits, entry_fits, field_fits, kind_fits, piece_fits, reason_fits, seen_fits, totals_fit};

use crate::record::{RecordKind, Totals};
use app_api::{Bytes, Reason, Seen};
use callback_log::Callback;
use flow_table::Endpoint;

#[inline(always)]
fn endpoint_fits(of: &Endpoint)
    ensures { IsTrue (endpoint_fits of.now) }
{
    match of {
        Endpoint::V4 { addr, port } => {
            let _ = (*addr, *port);
        }
        Endpoint::V6 { addr, port } => {
            let _ = (*addr, *port);
        }
    }
}

#[inline(always)]
pub(crate) fn kind_fits(of: &RecordKind)
    ensures { IsTrue (kind_fits of.now) }
{
    if let RecordKind::Conn { client, server } = of {
        endpoint_fits(client);
        endpoint_fits(server);
    }
}

#[inline(always)]
fn bytes_fit(bytes: &[u8])
    ensures { IsTrue (are_bytes bytes.now) }
{}

#[inline(always)]
fn pieces_fit(pieces: &[(u64, Bytes)])
    ensures { IsTrue (list_all piece_fits pieces.now) }
{
    for (at, bytes) in pieces {
        let _at = *at;
        bytes_fit(bytes.as_slice());
    }
}

#[inline(always)]
fn seen_fits(of: &Seen)
    ensures { IsTrue (seen_fits of.now) }
{
    match of {
        Seen::Nothing => {}
        Seen::Next { at, missed, bytes } => {
            let _ = (*at, *missed);
            bytes_fit(bytes.as_slice());
        }
        Seen::At { off, pieces } => {
            let _off = *off;
            pieces_fit(pieces.as_slice());
        }
    }
}

#[inline(always)]
pub(crate) fn callback_fits(of: &Callback<'_>)
    ensures { IsTrue (entry_fits (entry_lent of.now)) }
{
    let Callback {
        index: _index,
        event: _event,
        reg: _reg,
        seen,
        ..
    } = *of;
    if let Some(seen) = seen {
        seen_fits(seen);
    }
}

#[inline(always)]
pub(crate) fn field_fits(name: &str, value: u64)
    ensures { IsTrue (field_fits (name.now, value)) }
{
    bytes_fit(name.as_bytes());
}

#[inline(always)]
fn reason_fits(of: &Reason)
    ensures { IsTrue (reason_fits of.now) }
{
    match of {
        Reason::Reg(n) | Reason::Rule(n) => {
            let _n = *n;
        }
    }
}

#[inline(always)]
pub(crate) fn drops_fit(drops: &[(u64, Reason)])
    ensures { IsTrue (list_all drop_fits drops.now) }
{
    for (index, reason) in drops {
        let _index = *index;
        reason_fits(reason);
    }
}

#[inline(always)]
pub(crate) fn totals_fit(of: &Totals)
    ensures { IsTrue (totals_fit of.now) }
{
    let Totals {
        packets: _packets,
        records: _records,
        callbacks: _callbacks,
        drops: _drops,
        tail: _tail,
    } = *of;
}
