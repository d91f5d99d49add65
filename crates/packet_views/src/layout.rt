//! Where the parts of a TCP segment lie in a frame, and what they say, over either version of IP.

ghost use Rattle.std.specs.Prelude.{◌≡◌, ◌+◌, ◌<◌, ◌≤◌, ◌^◌, IfSome, IsNone, length, true, false};
ghost use Rattle.packet_views.specs.Frame.{field, ip_start};
ghost use Rattle.packet_views.specs.Layout.{IsLayoutOf};
ghost use Rattle.packet_views.specs.Options.{scale_at};
ghost use Rattle.packet_views.specs.Tcp.{head_at, is_tcp_bad, payload_at};
ghost use Rattle.packet_views.specs.View.{IsScale};

use crate::fields::{u16_at, u32_at};
use crate::options::scale_in;
use crate::packet::Head;

/// Where the parts of a frame lie that holds a whole TCP segment: offsets from the frame's start.
#[derive(Clone, Copy)]
pub struct Layout {
    /// The IP header.
    pub ip: usize,
    /// The TCP header.
    pub tcp: usize,
    /// The payload, behind the TCP header and its options.
    pub payload: usize,
    /// The end of the IP packet. What the frame holds behind it is padding.
    pub end: usize,
}

impl Layout {
    /// The layout of the segment whose TCP header begins at `tcp`, in a packet from `ip` to `end`, unless the fields of
    /// that header contradict each other.
    #[tactic(auto, unfolding(crate::specs::Tcp::is_tcp_bad))]
    pub fn of(frame: &[u8], ip: usize, tcp: usize, end: usize) -> Option<Layout>
        requires start { ip ≡ ip_start frame.now }
        requires header { ip + 20 ≤ tcp }
        requires room { tcp ≤ end }
        requires captured { end ≤ length frame.now }
        requires packet { end < tcp + 2 ^ 16 }
        ensures layout { IfSome result (λ layout. IsLayoutOf frame.now layout) }
        ensures tcp { IfSome result (λ layout. layout.tcp ≡ tcp) }
        ensures end { IfSome result (λ layout. layout.end ≡ end) }
        ensures good { IfSome result (λ _. is_tcp_bad tcp end frame.now ≡ false) }
        ensures bad { IsNone result → is_tcp_bad tcp end frame.now ≡ true }
    {
        let segment = end - tcp;
        if segment < 20 {
            return None;
        }
        let words = frame[tcp + 12] >> 4;
        let header = 4 * usize::from(words);
        if words < 5 || segment < header {
            return None;
        }
        Some(Layout {
            ip,
            tcp,
            payload: tcp + header,
            end,
        })
    }

    /// The header fields, with addresses and a time to live that the IP header tells.
    #[inline(always)]
    #[tactic(auto, unfolding(crate::specs::Tcp::head_at))]
    pub fn head(self, frame: &[u8], src: u32, dst: u32, ttl: u8) -> Head
        requires layout { IsLayoutOf frame.now self }
        ensures fields { result ≡ head_at self.tcp self.end src dst ttl frame.now }
        ensures sport { result.sport ≡ field self.tcp 2 frame.now }
        ensures dport { result.dport ≡ field (self.tcp + 2) 2 frame.now }
        ensures len { result.len ≡ length (payload_at self.tcp self.end frame.now) }
        ensures bound { result.len ≤ 65535 }
    {
        let tcp = self.tcp;
        Head {
            src,
            dst,
            sport: u16_at(frame, tcp),
            dport: u16_at(frame, tcp + 2),
            seq: u32_at(frame, tcp + 4),
            ack: u32_at(frame, tcp + 8),
            flags: frame[tcp + 13],
            win: u16_at(frame, tcp + 14),
            len: self.payload(frame).len() as u32,
            ttl,
        }
    }

    /// The bytes between the TCP header and the end of the packet, at most 65,535.
    #[inline(always)]
    pub fn payload<'a>(self, frame: &'a [u8]) -> &'a [u8]
        requires layout { IsLayoutOf frame.now self }
        ensures bytes { result.now ≡ payload_at self.tcp self.end frame.now }
        ensures bound { length result.now ≤ 65535 }
    {
        &frame[self.payload..self.end]
    }

    /// The shift of the first window scale option, at most 14. Without options there is none.
    #[inline(always)]
    pub fn scale(self, frame: &[u8]) -> Option<u8>
        requires layout { IsLayoutOf frame.now self }
        ensures shift { IsScale (scale_at self.tcp frame.now) result }
    {
        if self.payload == self.tcp + 20 {
            return None;
        }
        scale_in(&frame[self.tcp + 20..self.payload])
    }
}
