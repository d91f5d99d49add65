//! The built-in events: one table of their names, of the hooks at which they are raised and of what raises them, in order of
//! their numbers.

ghost use Rattle.std.specs.Prelude.{◌≡◌, ◌≤◌, ◌<◌, [], List, length, map, slice_get, get_or, IfSome};
ghost use Rattle.std.specs.Option.{option_copied};
ghost use Rattle.app_api.specs.Events.{START as FIRST, LAST, EventRow, is_built_in, place_of, raised_at, raised_by_packets, allows_hook, is_of_packets};
ghost use Rattle.app_api.specs.Names.{IsLabel, event_names, event_name, event_named};

use native_filters::Hook;

/// A connection's first packet, at its sender.
pub const START: u16 = 256;
/// A packet, at both sides.
pub const PKT_IN: u16 = START + 1;
/// Payload bytes that the receiver had accepted before.
pub const REXMIT: u16 = START + 2;
/// The stream's next position rose.
pub const NEW_DATA: u16 = START + 3;
/// A segment past the window, an RST outside it, or a refused FIN.
pub const ERROR: u16 = START + 4;
/// The stepped end changed its state, at both sides.
pub const STATE: u16 = START + 5;
/// The connection is over.
pub const END: u16 = START + 6;
/// A packet that belongs to no connection.
pub const ORPHAN: u16 = START + 7;
/// A connection ended by idleness.
pub const TIMER: u16 = START + 8;

/// The last of the built-in events. Each number from [`START`] on is one.
pub const LAST_EVENT: u16 = TIMER;

/// How many built-in events there are.
pub const EVENTS: usize = 9;

// A row of the table: an event's name, whether it is raised at the sender and at the receiver, and whether packets of a connection
// raise it.
macro_rules! row {
    ($name:literal, $at_sender:literal, $at_receiver:literal, $by_packets:literal) => {
        (
            $name,
            $at_sender,
            $at_receiver,
            concat!($name, "                "),
            $by_packets,
        )
    };
}

// In order of their numbers. Behind each name, which has at most ten bytes, and the two sides stands the name again with sixteen
// blanks behind it.
static TABLE: [(&str, bool, bool, &str, bool); EVENTS] = [
    row!("start", true, false, true),
    row!("pkt_in", true, true, true),
    row!("rexmit", false, true, true),
    row!("new_data", false, true, true),
    row!("error", false, true, true),
    row!("state", true, true, true),
    row!("end", false, true, true),
    row!("orphan", true, false, false),
    row!("timer", false, true, false),
];

/// Whether a number is a built-in event.
pub fn is_built_in(event: u16) -> bool
    ensures { result ≡ is_built_in event }
{
    (START..=LAST_EVENT).contains(&event)
}

/// Where a built-in event stands among them, from 0. Any other number gives a place behind them all.
#[inline(always)]
pub(crate) fn place_of(event: u16) -> usize
    ensures { result ≡ place_of event }
{
    if event < START {
        return EVENTS;
    }
    usize::from(event - START)
}

// Whether the row at a place of a table says that its event is raised at a side.
fn says(rows: &[(&str, bool, bool, &str, bool)], place: usize, hook: Hook) -> bool
    ensures { (table : List EventRow) → map (λ r. r.1) rows.now ≡ map (λ r. r.at_sender) table
        → map (λ r. r.2) rows.now ≡ map (λ r. r.at_receiver) table
        → result ≡ raised_at (slice_get table place) hook }
{
    if place >= rows.len() {
        return false;
    }
    match hook {
        Hook::Snd => rows[place].1,
        Hook::Rcv => rows[place].2,
    }
}

/// Whether a built-in event is raised at a side. No other number is.
#[tactic(auto, unfolding(crate::specs::Events::allows_hook))]
pub fn allows_hook(event: u16, hook: Hook) -> bool
    ensures { result ≡ allows_hook event hook }
{
    says(&TABLE, place_of(event), hook)
}

// Whether the row at a place of a table says that packets of a connection raise its event.
fn says_of_packets(rows: &[(&str, bool, bool, &str, bool)], place: usize) -> bool
    ensures { (table : List EventRow) → map (λ r. r.4) rows.now ≡ map (λ r. r.by_packets) table
        → result ≡ raised_by_packets (slice_get table place) }
{
    if place >= rows.len() {
        return false;
    }
    rows[place].4
}

/// Whether packets of a connection may raise an event. No number but that of a built-in event is raised.
pub(crate) fn is_of_packets(event: u16) -> bool
    ensures { result ≡ is_of_packets event }
{
    says_of_packets(&TABLE, place_of(event))
}

/// The name of a built-in event. No other number has one.
pub fn event_name(event: u16) -> Option<&'static str>
    ensures name { option_copied result ≡ event_name event }
{
    let place = usize::from(event.checked_sub(START)?);
    (place < TABLE.len()).then(|| TABLE[place].0)
}

/// The name of a built-in event with sixteen blanks behind it, and how many bytes the name has. No other number has one.
#[inline(always)]
pub fn event_label(event: u16) -> Option<(&'static str, usize)>
    ensures { IfSome result (λ label. IsLabel label.0.now label.1 event) }
{
    if event < START || event > LAST_EVENT {
        return None;
    }
    let place = usize::from(event - START);
    Some((TABLE[place].3, TABLE[place].0.len()))
}

// The name in a row of the table.
fn name_at(place: usize) -> &'static str
    requires row { place < length event_names }
    ensures { result.now ≡ get_or event_names place [] }
{
    TABLE[place].0
}

/// The built-in event of a name.
pub fn event_named(name: &[u8]) -> Option<u16>
    ensures event { result ≡ event_named name.now }
    ensures low { IfSome result (λ e. FIRST ≤ e) }
    ensures high { IfSome result (λ e. e ≤ LAST) }
    ensures some { IfSome result (λ e. 0 < length name.now) }
{
    for place in 0..TABLE.len() {
        if name == name_at(place).as_bytes() {
            return Some(START + place as u16);
        }
    }
    None
}
