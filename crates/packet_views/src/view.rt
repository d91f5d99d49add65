//! The views: a frame seen as a TCP segment, or the class of what it is instead.

ghost use Rattle.std.specs.Prelude.{◌≡◌, ◌≤◌, length};
ghost use Rattle.packet_views.specs.Frame.{tcp_start};
ghost use Rattle.packet_views.specs.Options.{scale_at};
ghost use Rattle.packet_views.specs.View.{IsScale};

use crate::fields::u32_at;
use crate::layout::Layout;
use crate::packet::{Class, Head};
use std::marker::Model;

/// A frame that holds a whole TCP segment. Contracts see it as the frame's bytes.
#[derive(Drop)]
pub struct TcpView<'a> {
    frame: &'a [u8],
    layout: Layout,
}

impl<'a> Model for TcpView<'a> {
    ghost use Rattle.std.specs.Prelude.{ℕ, List};
    ghost use Rattle.packet_views.specs.Layout.{IsTcpLayout};

    ghost Value = { List ℕ };

    ghost view = { λ v. v.frame.now };

    ghost invariant = { λ v. IsTcpLayout v.frame.now v.layout };
}

impl<'a> TcpView<'a> {
    ghost use Rattle.packet_views.specs.Packet.{class_of, head_of, payload_of};
    ghost use Rattle.packet_views.specs.Layout.{IsTcpLayout};

    pub(crate) fn new(frame: &'a [u8], layout: Layout) -> TcpView<'a>
        requires { IsTcpLayout frame.now layout }
        ensures { result ≡ frame.now }
    {
        TcpView { frame, layout }
    }

    /// The header fields.
    #[tactic(auto, unfolding(crate::specs::Packet::head_of))]
    pub fn head(&self) -> Head
        ensures fields { result ≡ head_of self.now }
        ensures len { result.len ≡ length (payload_of self.now) }
        ensures bound { result.len ≤ 65535 }
        ensures class { class_of self.now ≡ Class.Tcp }
    {
        let ip = self.layout.ip;
        let frame = self.frame;
        self.layout.head(
            frame,
            u32_at(frame, ip + 12),
            u32_at(frame, ip + 16),
            frame[ip + 8],
        )
    }

    /// The bytes between the TCP header and the end of the IPv4 packet, at most 65,535, borrowed
    /// from the frame: they may outlive the view. Padding of the frame is no part of them.
    pub fn payload(&self) -> &'a [u8]
        ensures bytes { result.now ≡ payload_of self.now }
        ensures bound { length result.now ≤ 65535 }
    {
        self.layout.payload(self.frame)
    }
}

/// The shift of the first window scale option of the segment, at most 14.
pub fn window_scale(segment: &TcpView<'_>) -> Option<u8>
    ensures { IsScale (scale_at (tcp_start segment.now) segment.now) result }
{
    segment.layout.scale(segment.frame)
}

/// What a frame is.
#[derive(Drop)]
pub enum View<'a> {
    /// A whole TCP segment.
    Tcp(TcpView<'a>),
    /// No whole TCP segment, and why.
    Other(Class),
}
