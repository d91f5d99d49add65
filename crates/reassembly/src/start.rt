//! Where a segment begins, and where what is accepted ends.

ghost use Rattle.std.specs.Prelude.{◌≡◌, ◌+◌, ◌<◌, ◌≤◌, ◌^◌, pos, ◌+ℤ◌};
ghost use Rattle.reassembly.specs.Position.{IsNear};
ghost use Rattle.reassembly.specs.Receiver.{limit_of};
ghost use Rattle.reassembly.specs.Segment.{from_zero, below_zero};

/// Where a segment begins: its first position at or above 0, and how many positions it has below 0.
#[derive(Clone, Copy)]
pub struct Start {
    pub position: u64,
    pub below: u64,
}

/// The start of a segment whose first byte stands `d` above `next`.
pub fn start_of(next: u64, d: i64) -> Start
    requires next { next ≤ 2 ^ 62 }
    requires near { IsNear d }
    ensures position { result.position ≡ from_zero (pos next +ℤ d) }
    ensures below { result.below ≡ below_zero (pos next +ℤ d) }
    ensures reach { result.position < 2 ^ 62 + 2 ^ 31 }
{
    let start = next as i64 + d;
    if start < 0 {
        return Start {
            position: 0,
            below: start.unsigned_abs(),
        };
    }
    Start {
        position: start as u64,
        below: 0,
    }
}

/// The first position from which on none is accepted anew: the end of the receive window, or a FIN below it.
pub fn limit(next: u64, fin: Option<u64>, wide: u32) -> u64
    requires { next + wide < 2 ^ 63 }
    ensures { result ≡ limit_of next fin wide }
{
    let end = next + u64::from(wide);
    match fin {
        Some(fin) => fin.min(end),
        None => end,
    }
}
