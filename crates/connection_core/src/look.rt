//! Peeks at the stream of a packet's sender.

ghost use Rattle.std.specs.Prelude.{◌≡◌, ◌≤◌, ◌+◌, ◌++◌, ◌∷◌, [], length, true, IsTrue, if◌then◌else◌, OnOk, IfOk};
ghost use Rattle.reassembly.specs.Receiver.{Receiver, kept};
ghost use Rattle.reassembly.specs.Kept.{bytes_from};
ghost use Rattle.reassembly.specs.View.{StandsFor};
ghost use Rattle.app_api.specs.Reg.{peek_fits};
ghost use Rattle.app_api.specs.declared.registration.PeekSpec.TheVariants.{Next, At};
ghost use Rattle.connection_core.specs.Standing.{kept_with, Sees, SeesSoMany, PeeksOn};

use app_api::{Bytes, PeekSpec, PieceList, Seen};
use flow_socket::FlowSocket;
use reassembly::Stream;
use std::alloc::{AllocError, Global};
use tcp_emulation::Side;

/// The most bytes that one peek sees.
const LONGEST: usize = 256;

/// What a callback saw.
#[derive(Drop)]
pub(crate) struct Looked {
    /// How many bytes.
    pub(crate) got: u32,
    /// Without its bytes where no entries are kept.
    pub(crate) seen: Seen,
    ghost few: { got ≤ 256 },
}

/// Peeks. Bytes are copied only where they are to be kept.
#[inline(always)]
pub(crate) fn look(
    alloc: Global,
    keep: bool,
    socket: &mut FlowSocket,
    from: Side,
    peek: &PeekSpec,
) -> Result<Looked, AllocError>
    requires { IsTrue (peek_fits peek.now) }
    ensures seen { IfOk result (λ look. keep ≡ true → Sees socket.old from peek.now look.seen) }
    ensures got { IfOk result (λ look. SeesSoMany socket.old from peek.now look.got) }
    ensures stands { PeeksOn socket.old from peek.now socket.new }
{
    match *peek {
        PeekSpec::Nothing => Ok(Looked {
            got: 0,
            seen: Seen::Nothing,
        }),
        PeekSpec::Next { len } => look_next(alloc, keep, socket, from, len),
        PeekSpec::At { off, len } => look_at(alloc, keep, socket, from, off, len),
    }
}

// Reads on from the mark.
#[inline(never)]
fn look_next(
    alloc: Global,
    keep: bool,
    socket: &mut FlowSocket,
    from: Side,
    len: u16,
) -> Result<Looked, AllocError>
    requires { len ≤ 256 }
    ensures seen { IfOk result (λ look. keep ≡ true → Sees socket.old from (Next len) look.seen) }
    ensures got { IfOk result (λ look. SeesSoMany socket.old from (Next len) look.got) }
    ensures stands { PeeksOn socket.old from (Next len) socket.new }
{
    let mut room = [0; LONGEST];
    look_into(alloc, keep, socket, from, &mut room[..usize::from(len)])
}

// Reads on from the mark into a buffer.
fn look_into(
    alloc: Global,
    keep: bool,
    socket: &mut FlowSocket,
    from: Side,
    buf: &mut [u8],
) -> Result<Looked, AllocError>
    requires { length buf.old ≤ 256 }
    ensures seen { IfOk result (λ look. keep ≡ true → Sees socket.old from (Next (length buf.old)) look.seen) }
    ensures got { IfOk result (λ look. SeesSoMany socket.old from (Next (length buf.old)) look.got) }
    ensures stands { PeeksOn socket.old from (Next (length buf.old)) socket.new }
{
    let peeked = socket.peek(from, buf);
    let bytes = kept_bytes(alloc, keep, &buf[..peeked.len as usize])?;
    Ok(Looked {
        got: peeked.len,
        seen: Seen::Next {
            at: peeked.at,
            missed: peeked.missed,
            bytes,
        },
    })
}

// The bytes where they are to be kept, and else none.
fn kept_bytes(alloc: Global, keep: bool, bytes: &[u8]) -> Result<Bytes, AllocError>
    ensures { IfOk result (λ kept. kept ≡ (if keep then bytes.now else [])) }
{
    if keep {
        return Ok(Bytes {
            items: bytes.to_vec(alloc)?,
        });
    }
    Ok(Bytes {
        items: Vec::new(alloc),
    })
}

// Reads what is kept in a range.
#[inline(never)]
fn look_at(
    alloc: Global,
    keep: bool,
    socket: &FlowSocket,
    from: Side,
    off: u64,
    len: u16,
) -> Result<Looked, AllocError>
    requires { len ≤ 256 }
    ensures seen { IfOk result (λ look. keep ≡ true → Sees socket.now from (At off len) look.seen) }
    ensures got { IfOk result (λ look. SeesSoMany socket.now from (At off len) look.got) }
{
    let mut pieces = PieceList {
        items: Vec::new(alloc),
    };
    let mut got = 0;
    let stream = socket.stream(from);
    for (place, run) in socket.ppeek(from, off, u32::from(len)) {
        got += run;
        note_piece(alloc, keep, stream, place, run, &mut pieces)?;
    }
    Ok(Looked {
        got,
        seen: Seen::At { off, pieces },
    })
}

// Notes one run, which is kept whole, where bytes are to be kept.
fn note_piece(
    alloc: Global,
    keep: bool,
    stream: &Stream,
    place: u64,
    run: u32,
    pieces: &mut PieceList,
) -> Result<(), AllocError>
    requires { run ≤ 256 }
    ensures { OnOk result ((r : Receiver) → StandsFor stream.now r
        → length (bytes_from (kept r.cells stream.now.rbuf) place run) ≡ run
        → pieces.new ≡ kept_with keep pieces.old (place, bytes_from (kept r.cells stream.now.rbuf) place run)) }
{
    if !keep {
        return Ok(());
    }
    let mut room = [0; LONGEST];
    let buf = &mut room[..run as usize];
    let _all = stream.read_at(place, buf);
    let bytes = Bytes {
        items: buf.to_vec(alloc)?,
    };
    pieces.items.push((place, bytes))?;
    Ok(())
}
