//! Which records a report may have.

ghost use Rattle.std.specs.Prelude.{◌≡◌, map, nat_le};
ghost use Rattle.std.specs.List.{list_all};
ghost use Rattle.app_api.specs.App.{is_name_byte, is_field_name};
ghost use Rattle.app_api.specs.Numbers.{rise_from};
ghost use Rattle.report_text.specs.Tidy.{has_byte, is_event, least_after, is_tidy_seen, is_tidy_entry, are_named, may_have, is_tidy_record, tidy};

use crate::record::{Record, RecordKind};
use app_api::{Bytes, Entry, Reason, Seen, event_name};

// A user-defined event is 1 to 255, and the built-in ones are those with a name.
fn is_event(event: u16) -> bool
    ensures { result ≡ is_event event }
{
    (event >= 1 && event <= 255) || event_name(event).is_some()
}

fn have_bytes(pieces: &[(u64, Bytes)]) -> bool
    ensures { result ≡ list_all has_byte pieces.now }
{
    for (_, bytes) in pieces {
        if bytes.as_slice().is_empty() {
            return false;
        }
    }
    true
}

fn is_tidy_seen(seen: &Seen) -> bool
    ensures { result ≡ is_tidy_seen seen.now }
{
    match seen {
        Seen::Nothing => true,
        Seen::Next { .. } => true,
        Seen::At { pieces, .. } => have_bytes(pieces.as_slice()),
    }
}

/// Whether its event is one that a record may show, and each of its pieces has a byte.
pub(crate) fn is_tidy_entry(entry: &Entry) -> bool
    ensures { result ≡ is_tidy_entry entry.now }
{
    is_event(entry.event) && is_tidy_seen(&entry.seen)
}

fn are_tidy_entries(entries: &[Entry]) -> bool
    ensures { result ≡ list_all is_tidy_entry entries.now }
{
    for entry in entries {
        if !is_tidy_entry(entry) {
            return false;
        }
    }
    true
}

/// Whether a number is above the last one, where there was one.
pub(crate) fn rises(last: Option<u64>, number: u64) -> bool
    ensures { result ≡ nat_le (least_after last) number }
{
    match last {
        Some(last) => last < number,
        None => true,
    }
}

fn drops_rise(drops: &[(u64, Reason)]) -> bool
    ensures { result ≡ rise_from 0 (map (λ d. d.0) drops.now) }
{
    let mut last = None;
    for (index, _) in drops {
        if !rises(last, *index) {
            return false;
        }
        last = Some(*index);
    }
    true
}

fn is_name_byte(byte: u8) -> bool
    ensures { result ≡ is_name_byte byte }
{
    byte.is_ascii_lowercase() || byte.is_ascii_digit() || byte == b'_'
}

/// Whether a field may have the name: one byte or more, each a to z, a digit or `_`.
pub(crate) fn is_field_name(name: &[u8]) -> bool
    ensures { result ≡ is_field_name name.now }
{
    for byte in name {
        if !is_name_byte(*byte) {
            return false;
        }
    }
    !name.is_empty()
}

fn are_named(fields: &[(Bytes, u64)]) -> bool
    ensures { result ≡ are_named fields.now }
{
    for (name, _) in fields {
        if !is_field_name(name.as_slice()) {
            return false;
        }
    }
    true
}

fn may_have(kind: &RecordKind, fields: &[(Bytes, u64)]) -> bool
    ensures { result ≡ may_have kind.now fields.now }
{
    match kind {
        RecordKind::Conn { .. } => true,
        RecordKind::Orphan { .. } => fields.is_empty(),
    }
}

fn is_tidy_record(of: &Record) -> bool
    ensures { result ≡ is_tidy_record of.now }
{
    let entries = are_tidy_entries(of.entries.as_slice());
    let drops = drops_rise(of.drops.as_slice());
    let fields = of.fields.as_slice();
    entries && drops && are_named(fields) && may_have(&of.kind, fields)
}

fn are_tidy_records(records: &[Record]) -> bool
    ensures { result ≡ list_all is_tidy_record records.now }
{
    for of in records {
        if !is_tidy_record(of) {
            return false;
        }
    }
    true
}

fn names_rise(records: &[Record]) -> bool
    ensures { result ≡ rise_from 0 (map (λ r. r.name) records.now) }
{
    let mut last = None;
    for of in records {
        if !rises(last, of.name) {
            return false;
        }
        last = Some(of.name);
    }
    true
}

/// Whether a report may have the records: names and the places of dropped packets rise, events are those that there are,
/// pieces of peeked bytes have a byte, names of fields are of a to z, digits and `_`, and orphans have no fields.
#[tactic(auto, unfolding(crate::specs::Tidy::tidy))]
pub fn is_tidy(records: &[Record]) -> bool
    ensures { result ≡ tidy records.now }
{
    names_rise(records) && are_tidy_records(records)
}
