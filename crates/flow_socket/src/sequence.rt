//! Sequence and acknowledgement numbers, which count modulo 2^32 (RFC 9293, section 3.4), and the
//! positions that they stand for.

ghost use Rattle.std.specs.Prelude.{◌≡◌, ◌+◌, ◌^◌, ◌≤◌, ◌≤ℤ◌, ◌<ℤ◌, ◌-ℤ◌, pos};
ghost use Rattle.reassembly.specs.Position.{distance_of, position_of};
ghost use Rattle.flow_socket.specs.Direction.{first_number, origin_from, acks_syn_at, acks_fin_at, is_past_fin};

use crate::answers::Origin;
use packet_views::Head;

/// How many sequence numbers there are.
const NUMBERS: u64 = 1 << 32;

/// How far a sequence number lies above that of position `next`, as a signed 32-bit difference.
pub(crate) fn distance(next: u64, irs: u32, number: u32) -> i64
    ensures is { result ≡ distance_of next irs number }
    ensures low { (pos 0 -ℤ pos (2 ^ 31)) ≤ℤ result }
    ensures high { result <ℤ pos (2 ^ 31) }
{
    let above = (u64::from(number) + 2 * NUMBERS - (u64::from(irs) + 1 + next % NUMBERS)) % NUMBERS;
    if above < NUMBERS / 2 {
        above as i64
    } else {
        above as i64 - NUMBERS as i64
    }
}

/// The position of a sequence number, as near to `next` as it can be; it may lie below 0.
pub(crate) fn position(next: u64, irs: u32, number: u32) -> i64
    requires { next ≤ 2 ^ 62 + 2 ^ 20 }
    ensures { result ≡ position_of next irs number }
{
    next as i64 + distance(next, irs, number)
}

/// The sequence number of the first payload byte: a SYN takes one before it.
pub(crate) fn first_number(h: &Head) -> u32
    ensures { result ≡ first_number h.now }
{
    if h.has_syn() {
        h.seq.wrapping_add(1)
    } else {
        h.seq
    }
}

/// The origin that the first packet of a direction sets.
pub(crate) fn origin_from(h: &Head) -> Origin
    ensures { result ≡ origin_from h.now }
{
    let knows_syn = h.has_syn();
    Origin {
        irs: if knows_syn {
            h.seq
        } else {
            h.seq.wrapping_sub(1)
        },
        knows_syn,
    }
}

/// Which of an end's SYN and FIN an acknowledgement number covers.
#[derive(Clone, Copy)]
pub(crate) struct Acks {
    pub(crate) syn: bool,
    pub(crate) fin: bool,
}

/// Judges an acknowledgement number in the direction of the end that it acknowledges.
pub(crate) fn acks_of(ack: u32, next: u64, origin: Option<Origin>, fin: Option<u64>) -> Acks
    requires { next ≤ 2 ^ 62 }
    ensures syn { result.syn ≡ acks_syn_at ack next origin }
    ensures fin { result.fin ≡ acks_fin_at ack next origin fin }
{
    let Some(origin) = origin else {
        return Acks {
            syn: false,
            fin: false,
        };
    };
    let position = position(next, origin.irs, ack);
    Acks {
        syn: origin.knows_syn && position >= 0,
        fin: is_past(position, fin),
    }
}

// Whether a position lies above that of a noted FIN.
fn is_past(position: i64, fin: Option<u64>) -> bool
    ensures { result ≡ is_past_fin position fin }
{
    match (u64::try_from(position), fin) {
        (Ok(position), Some(fin)) => fin < position,
        _ => false,
    }
}
