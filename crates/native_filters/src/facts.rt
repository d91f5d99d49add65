//! The facts of one raise, and the side at which it is raised.

ghost use Rattle.std.specs.Prelude.{◌≡◌, ◌<◌};

/// The side at which an event is raised.
#[derive(Clone, Copy, Debug, PartialEq, Eq)]
pub enum Hook {
    /// At the packet's sender, before its receiver is looked at.
    Snd,
    /// At the packet's receiver.
    Rcv,
}

/// The facts of one raise, in the order of their places.
///
/// "Sender" and "receiver" are those of the packet. A fact that a raise does not have is 0.
#[derive(Clone, Copy, Debug, PartialEq, Eq)]
pub struct Facts {
    /// 0 from the client, 1 from the server.
    pub dir: u64,
    /// The packet's place in its connection, from 0.
    pub nth: u64,
    /// The source address of the IPv4 header as a number (RFC 791, 3.1).
    pub src: u64,
    /// The destination address of the IPv4 header as a number.
    pub dst: u64,
    /// The source port of the TCP header (RFC 9293, 3.1).
    pub sport: u64,
    /// The destination port of the TCP header.
    pub dport: u64,
    /// The sequence number of the TCP header.
    pub seq: u64,
    /// The acknowledgment number of the TCP header.
    pub ack: u64,
    /// The whole byte of control bits in the TCP header.
    pub flags: u64,
    /// The window field of the TCP header, unscaled.
    pub win: u64,
    /// The payload's length in bytes.
    pub len: u64,
    /// The time to live of the IPv4 header.
    pub ttl: u64,
    /// The number of the stepped end's state before its step.
    pub old: u64,
    /// The number of the stepped end's state after its step.
    pub new: u64,
    /// How many payload bytes the receiver accepted for the first time.
    pub fresh: u64,
    /// How many payload bytes the receiver had accepted before.
    pub rexlen: u64,
    /// How many of these differ from the byte that is kept.
    pub rexdiff: u64,
    /// 1 for bytes outside the window, plus 2 for an RST outside it, plus 4 for a refused FIN.
    pub fault: u64,
    /// The stream's least position that is not accepted.
    pub next: u64,
    /// The class of an orphan: tcp 0, other 1, fragment 2, cut 3, bad 4.
    pub class: u64,
}

impl Facts {
    ghost use Rattle.native_filters.specs.Facts.{fact, no_facts};

    /// The facts of nothing: each is 0.
    #[tactic(auto, unfolding(crate::specs::Facts::no_facts))]
    pub fn none() -> Facts
        ensures { result ≡ no_facts }
    {
        Facts {
            dir: 0,
            nth: 0,
            src: 0,
            dst: 0,
            sport: 0,
            dport: 0,
            seq: 0,
            ack: 0,
            flags: 0,
            win: 0,
            len: 0,
            ttl: 0,
            old: 0,
            new: 0,
            fresh: 0,
            rexlen: 0,
            rexdiff: 0,
            fault: 0,
            next: 0,
            class: 0,
        }
    }

    /// The fact at a place, in the order of the fields from 0.
    #[tactic(auto, unfolding(crate::specs::Facts::fact))]
    pub fn get(&self, place: u8) -> u64
        requires { place < 20 }
        ensures { result ≡ fact place self.now }
    {
        match place {
            0 => self.dir,
            1 => self.nth,
            2 => self.src,
            3 => self.dst,
            4 => self.sport,
            5 => self.dport,
            6 => self.seq,
            7 => self.ack,
            8 => self.flags,
            9 => self.win,
            10 => self.len,
            11 => self.ttl,
            12 => self.old,
            13 => self.new,
            14 => self.fresh,
            15 => self.rexlen,
            16 => self.rexdiff,
            17 => self.fault,
            18 => self.next,
            19 => self.class,
            _ => unreachable!(),
        }
    }
}
