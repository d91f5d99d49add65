//! The ranges of a command's numbers.

ghost use Rattle.std.specs.Prelude.{◌≡◌};
ghost use Rattle.std.specs.List.{list_all};
ghost use Rattle.app_api.specs.Reg.{peek_fits};
ghost use Rattle.forest_versions.specs.Lawful.{is_within, is_reg_within, is_rule_within, may_be_event, may_be_number};

use crate::command::Command;
use app_api::{Change1, LAST_EVENT, PeekSpec, Reg, Rule};

/// The least number of a registration of a script; those below are presets.
const FIRST_OWN: u8 = 16;

/// The greatest receive buffer, in bytes.
const MOST_BUFFER: u32 = 1_048_576;

/// The longest peek, in bytes.
const LONGEST_PEEK: u16 = 256;

/// The first offset that a peek may not name.
const PAST_OFFSET: u64 = 1 << 40;

/// Whether the numbers of a command are in their ranges.
#[tactic(auto, unfolding(crate::specs::Lawful::is_within))]
pub(crate) fn is_within(c: &Command) -> bool
    ensures { result ≡ is_within c.now }
{
    match c {
        Command::Event(d) => d.number >= 1 && d.number <= 255 && may_be_event(d.parent),
        Command::Register(r) => is_reg_within(r),
        Command::Unregister(number) => may_be_number(*number),
        Command::Buffer(bytes) => *bytes >= 1 && *bytes <= MOST_BUFFER,
        Command::Overlap(_) => true,
        Command::AddRule(rule) => is_rule_within(rule),
        Command::RemoveRule(number) => may_be_number(*number),
        Command::Idle(seconds) => *seconds >= 1,
    }
}

// Whether a number may name an event.
fn may_be_event(event: u16) -> bool
    ensures { result ≡ may_be_event event }
{
    event >= 1 && event <= LAST_EVENT
}

// Whether a number may name a registration or a rule.
fn may_be_number(number: u8) -> bool
    ensures { result ≡ may_be_number number }
{
    number >= 1
}

// Whether the numbers of a registration of a script are in their ranges.
fn is_reg_within(r: &Reg) -> bool
    ensures { result ≡ is_reg_within r.now }
{
    r.number >= FIRST_OWN
        && may_be_event(r.event)
        && peek_fits(r.peek)
        && are_changes_within(r.action.changes.as_slice())
}

// Whether the numbers of a peek are in their ranges.
fn peek_fits(peek: PeekSpec) -> bool
    ensures { result ≡ peek_fits peek }
{
    match peek {
        PeekSpec::Nothing => true,
        PeekSpec::Next { len } => len >= 1 && len <= LONGEST_PEEK,
        PeekSpec::At { off, len } => off < PAST_OFFSET && len >= 1 && len <= LONGEST_PEEK,
    }
}

// Whether each change names a registration.
fn are_changes_within(changes: &[Change1]) -> bool
    ensures { result ≡ list_all (λ c. may_be_number c.reg) changes.now }
{
    changes.iter().all(|c| may_be_number(c.reg))
}

// Whether the numbers of a rule are in their ranges.
fn is_rule_within(rule: &Rule) -> bool
    ensures { result ≡ is_rule_within rule.now }
{
    may_be_number(rule.number) && rule.src_len <= 32 && rule.dst_len <= 32 && rule.low <= rule.high
}
