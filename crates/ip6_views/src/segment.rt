//! The TCP segment of a frame, over IPv4 and over IPv6.

ghost use Rattle.std.specs.Prelude.{◌≡◌};
ghost use Rattle.packet_views.specs.Layout.{IsLayoutOf};
ghost use Rattle.ip6_views.specs.Frame.{ip6_end};
ghost use Rattle.ip6_views.specs.Sight.{segment_of, segment6_of};
ghost use Rattle.ip6_views.specs.Seen.{seen};

use crate::fields::u128_at;
use crate::sight::SightTcp;
use flow_table::Endpoint;
use packet_views::{Layout, TcpView, window_scale};

/// What a view of a frame over IPv4 shows.
pub(crate) fn segment4<'a>(view: &TcpView<'a>) -> SightTcp<'a>
    ensures { seen result ≡ segment_of view.now }
{
    let head = view.head();
    SightTcp {
        head,
        from: Endpoint::source_of(&head),
        to: Endpoint::destination_of(&head),
        scale: window_scale(view),
        payload: view.payload(),
    }
}

/// What a frame with a layout over IPv6 shows.
pub(crate) fn segment6<'a>(frame: &'a [u8], layout: Layout) -> SightTcp<'a>
    requires layout { IsLayoutOf frame.now layout }
    requires end { layout.end ≡ ip6_end frame.now }
    ensures { seen result ≡ segment6_of layout.tcp frame.now }
{
    let ip = layout.ip;
    let head = layout.head(frame, 0, 0, frame[ip + 7]);
    SightTcp {
        head,
        from: Endpoint::V6 {
            addr: u128_at(frame, ip + 8),
            port: head.sport,
        },
        to: Endpoint::V6 {
            addr: u128_at(frame, ip + 24),
            port: head.dport,
        },
        scale: layout.scale(frame),
        payload: layout.payload(frame),
    }
}
