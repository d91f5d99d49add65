//! A segment at a stream: its payload, and then its FIN.

ghost use Rattle.std.specs.Prelude.{◌≡◌, ◌+◌, ◌-◌, ◌^◌, ◌≤◌, ◌≤ℤ◌, ◌<ℤ◌, ◌-ℤ◌, ◌+ℤ◌, pos, length, OnOk, IfOk, false, if◌then◌else◌};
ghost use Rattle.packet_views.specs.Flags.{has_fin, has_rst};
ghost use Rattle.reassembly.specs.View.{ForWide, StandsAfterWide};
ghost use Rattle.flow_socket.specs.Segment.{CanTake, RisesByBuffer, with_segment, placed_at, nothing_placed, is_refused, is_refusal};

use packet_views::Head;
use reassembly::{FinNote, Placed, Policy, Stream};
use std::alloc::AllocError;

/// How the payload and the FIN of a segment were judged.
#[derive(Clone, Copy)]
pub(crate) struct Judged {
    pub(crate) placed: Placed,
    pub(crate) fin_refused: bool,
}

/// Places the payload, and then notes the FIN. The receive window is `wide` positions wide, from
/// before the segment for both. Nothing changes where memory is refused.
#[inline(always)]
#[tactic(auto, unfolding(crate::specs::Segment::with_payload, crate::specs::Segment::placed_at, crate::specs::Segment::note_at, crate::specs::Segment::with_fin))]
pub(crate) fn take_segment(
    stream: &mut Stream,
    distance: i64,
    payload: &[u8],
    has_fin: bool,
    wide: u32,
    policy: Policy,
) -> Result<Judged, AllocError>
    requires { CanTake stream.old distance payload.now wide }
    ensures stream { RisesByBuffer stream.old stream.new result }
    ensures stands { OnOk result (StandsAfterWide stream.old wide stream.new
        (with_segment stream.old.rbuf policy has_fin distance payload.now)) }
    ensures placed { IfOk result (λ judged. ForWide stream.old wide
        (λ r. judged.placed ≡ placed_at stream.old.rbuf distance payload.now r)) }
    ensures refused { IfOk result (λ judged. ForWide stream.old wide
        (λ r. judged.fin_refused ≡ is_refused stream.old.rbuf policy has_fin distance payload.now r)) }
{
    let next = stream.next();
    let placed = stream.place(distance, payload, policy, wide)?;
    if !has_fin {
        return Ok(Judged {
            placed,
            fin_refused: false,
        });
    }
    let end = end_position(next, distance, payload.len());
    let note = stream.note_fin(end, next + u64::from(wide));
    Ok(Judged {
        placed,
        fin_refused: is_refusal(note),
    })
}

/// Takes the segment of a packet. Neither payload nor FIN of one with RST is read.
#[inline(always)]
pub(crate) fn take_unless_reset(
    stream: &mut Stream,
    h: &Head,
    distance: i64,
    payload: &[u8],
    wide: u32,
    policy: Policy,
) -> Result<Judged, AllocError>
    requires { CanTake stream.old distance payload.now wide }
    ensures stream { RisesByBuffer stream.old stream.new result }
    ensures stands { OnOk result (StandsAfterWide stream.old wide stream.new
        (λ r. if has_rst h.now then r else with_segment stream.old.rbuf policy (has_fin h.now) distance payload.now r)) }
    ensures placed { IfOk result (λ judged. ForWide stream.old wide (λ r. judged.placed
        ≡ (if has_rst h.now then nothing_placed else placed_at stream.old.rbuf distance payload.now r))) }
    ensures refused { IfOk result (λ judged. ForWide stream.old wide (λ r. judged.fin_refused
        ≡ (if has_rst h.now then false else is_refused stream.old.rbuf policy (has_fin h.now) distance payload.now r))) }
{
    if h.has_rst() {
        return Ok(NOTHING);
    }
    take_segment(stream, distance, payload, h.has_fin(), wide, policy)
}

/// What isn't read isn't judged.
const NOTHING: Judged = Judged {
    placed: Placed {
        new: 0,
        old: 0,
        differ: 0,
        over: 0,
    },
    fin_refused: false,
};

// The position after `len` bytes that begin at a distance from `next`.
fn end_position(next: u64, distance: i64, len: usize) -> i64
    requires next { next ≤ 2 ^ 62 }
    requires low { (pos 0 -ℤ pos (2 ^ 31)) ≤ℤ distance }
    requires high { distance <ℤ pos (2 ^ 31) }
    requires len { len ≤ 65535 }
    ensures { result ≡ pos next +ℤ distance +ℤ pos len }
{
    next as i64 + distance + len as i64
}

fn is_refusal(note: FinNote) -> bool
    ensures { result ≡ is_refusal note }
{
    matches!(note, FinNote::Refused)
}
