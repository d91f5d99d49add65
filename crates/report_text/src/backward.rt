//! The other lines of a record, put together in an array from their ends: so no digits of a number are counted before they are
//! written, and no line takes memory. Each part is put before those that follow it.

ghost use Rattle.std.specs.Prelude.{◌≡◌, ◌+◌, ◌<◌, ◌≤◌, ◌++◌, ◌∷◌, true, false, [], length, codes};
ghost use Rattle.std.specs.Fmt.{decimal, digits, digit_glyph};
ghost use Rattle.std.specs.Net.Text.{ipv4_text};
ghost use Rattle.flow_table.specs.declared.endpoint.Endpoint.TheVariants.{V4};
ghost use Rattle.report_text.specs.Lines.{head_line, drop_line, field_line};
ghost use Rattle.report_text.specs.Words.{groups_text, v6_text, endpoint_text, reason_text};

use crate::record::RecordKind;
use crate::words::{class_name, groups};
use app_api::Reason;
use flow_table::Endpoint;
use itoa::write_digits;
use packet_views::Class;
use std::net::Ipv4Addr;

// Room for the longest of these lines: the first one of a connection over IPv6.
const ROOM: usize = 160;

// The longest name of a field that is put here.
const NAME: usize = 64;

/// One line, in an array.
#[derive(Drop)]
pub(crate) struct BackwardLine {
    bytes: [u8; 160],
    // Where what is put so far begins.
    start: usize,
    ghost within: { start ≤ 160 },
}

impl BackwardLine {
    ghost use Rattle.report_text.specs.Backward.{text_in, room_in};

    /// An empty line.
    pub(crate) fn new() -> BackwardLine {
        BackwardLine {
            bytes: [0; ROOM],
            start: ROOM,
        }
    }

    #[inline(always)]
    fn clear(&mut self)
        ensures text { text_in self.new ≡ [] }
        ensures room { room_in self.new ≡ 160 }
    {
        self.start = ROOM;
    }

    // Puts a word before the rest.
    #[inline(always)]
    fn put_word(&mut self, word: &[u8])
        requires { length word.now ≤ room_in self.old }
        ensures text { text_in self.new ≡ word.now ++ text_in self.old }
        ensures room { room_in self.new + length word.now ≡ room_in self.old }
    {
        let start = self.start - word.len();
        self.bytes[start..self.start].copy_from_slice(word);
        self.start = start;
    }

    // Puts a number before the rest.
    #[inline(always)]
    fn put_number(&mut self, n: u64)
        requires { 20 ≤ room_in self.old }
        ensures text { text_in self.new ≡ decimal n ++ text_in self.old }
        ensures room { room_in self.old ≤ room_in self.new + 20 }
    {
        self.start = write_digits(n, &mut self.bytes, self.start);
    }

    // Puts a number of at most five digits before the rest.
    #[inline(always)]
    fn put_small(&mut self, n: u16)
        requires { 5 ≤ room_in self.old }
        ensures text { text_in self.new ≡ decimal n ++ text_in self.old }
        ensures room { room_in self.old ≤ room_in self.new + 5 }
    {
        self.start = write_digits(u64::from(n), &mut self.bytes, self.start);
    }

    // Puts an IPv4 address as four numbers with dots before the rest.
    #[inline(always)]
    fn put_octets(&mut self, octets: [u8; 4])
        requires { 23 ≤ room_in self.old }
        ensures text { text_in self.new ≡ ipv4_text octets ++ text_in self.old }
        ensures room { room_in self.old ≤ room_in self.new + 23 }
    {
        let [a, b, c, d] = octets;
        self.put_small(u16::from(d));
        self.put_word(b".");
        self.put_small(u16::from(c));
        self.put_word(b".");
        self.put_small(u16::from(b));
        self.put_word(b".");
        self.put_small(u16::from(a));
    }

    // Puts an IPv4 address and a port before the rest.
    #[tactic(auto, unfolding(crate::specs::Words::endpoint_text, std::specs::Net::Addr::IsIpv4OfBits))]
    fn put_v4(&mut self, addr: u32, port: u16)
        requires { 29 ≤ room_in self.old }
        ensures text { text_in self.new ≡ endpoint_text (V4 addr port) ++ text_in self.old }
        ensures room { room_in self.old ≤ room_in self.new + 29 }
    {
        self.put_small(port);
        self.put_word(b":");
        self.put_octets(Ipv4Addr::from_bits(addr).octets());
    }

    // Puts a hexadecimal digit before the rest.
    #[inline(always)]
    fn put_digit(&mut self, n: u16)
        requires { (n < 16) × (1 ≤ room_in self.old) }
        ensures text { text_in self.new ≡ digit_glyph false n ∷ text_in self.old }
        ensures room { room_in self.new + 1 ≡ room_in self.old }
    {
        let first = if n < 10 { b'0' } else { b'a' - 10 };
        self.put_word(&[first + n as u8]);
    }

    // Puts one or two hexadecimal digits before the rest.
    #[tactic(auto, using(std::proofs::lemmas::Fmt::hex_one_digit))]
    #[inline(always)]
    fn put_short(&mut self, n: u16)
        requires { (n < 256) × (2 ≤ room_in self.old) }
        ensures text { text_in self.new ≡ digits 16 false n ++ text_in self.old }
        ensures room { room_in self.old ≤ room_in self.new + 2 }
    {
        if n < 16 {
            return self.put_digit(n);
        }
        self.put_digit(n % 16);
        self.put_digit(n / 16);
    }

    // Puts a number in hexadecimal, of one to four digits, before the rest.
    fn put_group(&mut self, group: u16)
        requires { 4 ≤ room_in self.old }
        ensures text { text_in self.new ≡ digits 16 false group ++ text_in self.old }
        ensures room { room_in self.old ≤ room_in self.new + 4 }
    {
        if group < 256 {
            return self.put_short(group);
        }
        self.put_digit(group % 16);
        self.put_digit(group / 16 % 16);
        self.put_short(group / 256);
    }

    // Puts groups, each behind a colon, before the rest.
    fn put_groups(&mut self, groups: &[u16])
        requires { (length groups.now ≤ 7) × (35 ≤ room_in self.old) }
        ensures text { text_in self.new ≡ groups_text groups.now ++ text_in self.old }
        ensures room { room_in self.old ≤ room_in self.new + 35 }
    {
        let mut left = groups.len();
        while left > 0 {
            left -= 1;
            self.put_group(groups[left]);
            self.put_word(b":");
        }
    }

    // Puts an IPv6 address and a port before the rest.
    #[tactic(auto, unfolding(crate::specs::Words::v6_text))]
    fn put_v6(&mut self, addr: u128, port: u16)
        requires { 47 ≤ room_in self.old }
        ensures text { text_in self.new ≡ v6_text addr port ++ text_in self.old }
        ensures room { room_in self.old ≤ room_in self.new + 47 }
    {
        let groups = groups(addr);
        self.put_small(port);
        self.put_word(b"]:");
        self.put_groups(&groups[1..]);
        self.put_group(groups[0]);
        self.put_word(b"[");
    }

    // Puts an address and a port before the rest.
    #[tactic(auto, unfolding(crate::specs::Words::endpoint_text))]
    fn put_endpoint(&mut self, endpoint: &Endpoint)
        requires { 47 ≤ room_in self.old }
        ensures text { text_in self.new ≡ endpoint_text endpoint.now ++ text_in self.old }
        ensures room { room_in self.old ≤ room_in self.new + 47 }
    {
        match *endpoint {
            Endpoint::V4 { addr, port } => self.put_v4(addr, port),
            Endpoint::V6 { addr, port } => self.put_v6(addr, port),
        }
    }

    // Puts how the first line of a record ends.
    #[inline(always)]
    fn put_version(&mut self, version: u32)
        ensures text { text_in self.new ≡ codes " v " ++ (decimal version ++ codes "\n") }
        ensures room { 136 ≤ room_in self.new }
    {
        self.clear();
        self.put_word(b"\n");
        self.put_number(u64::from(version));
        self.put_word(b" v ");
    }

    // Puts a record's name before the rest.
    #[inline(always)]
    fn put_name(&mut self, label: &[u8], name: u64)
        requires { length label.now + 21 ≤ room_in self.old }
        ensures text { text_in self.new ≡ label.now ++ (decimal name ++ (codes " " ++ text_in self.old)) }
    {
        self.put_word(b" ");
        self.put_number(name);
        self.put_word(label);
    }

    fn put_conn(&mut self, name: u64, client: &Endpoint, server: &Endpoint, version: u32)
        ensures { text_in self.new ≡ head_line name (RecordKind.Conn client.now server.now) version }
    {
        self.put_version(version);
        self.put_endpoint(server);
        self.put_word(b" > ");
        self.put_endpoint(client);
        self.put_name(b"conn ", name);
    }

    fn put_orphan(&mut self, name: u64, class: Class, version: u32)
        ensures { text_in self.new ≡ head_line name (RecordKind.Orphan class) version }
    {
        self.put_version(version);
        self.put_word(class_name(class).as_bytes());
        self.put_name(b"orphan ", name);
    }

    /// Puts the first line of a record of this name, kind and version.
    pub(crate) fn put_head(&mut self, name: u64, kind: &RecordKind, version: u32)
        ensures { text_in self.new ≡ head_line name kind.now version }
    {
        match kind {
            RecordKind::Conn { client, server } => self.put_conn(name, client, server, version),
            RecordKind::Orphan { class } => self.put_orphan(name, *class, version),
        }
    }

    // Puts who asked for a drop before the rest.
    fn put_reason(&mut self, reason: Reason)
        requires { 32 ≤ room_in self.old }
        ensures text { text_in self.new ≡ reason_text reason ++ text_in self.old }
        ensures room { room_in self.old ≤ room_in self.new + 32 }
    {
        match reason {
            Reason::Reg(number) => {
                self.put_number(u64::from(number));
                self.put_word(b"reg ");
            }
            Reason::Rule(number) => {
                self.put_number(u64::from(number));
                self.put_word(b"rule ");
            }
        }
    }

    /// Puts the line of a dropped packet.
    #[tactic(auto, unfolding(crate::specs::Lines::drop_line))]
    pub(crate) fn put_drop(&mut self, index: u64, reason: Reason)
        ensures { text_in self.new ≡ drop_line (index, reason) }
    {
        self.clear();
        self.put_word(b"\n");
        self.put_reason(reason);
        self.put_name(b"drop ", index);
    }

    /// Puts the line of a field, where its name isn't long; else the answer is `false`.
    #[tactic(auto, unfolding(crate::specs::Lines::field_line))]
    pub(crate) fn put_field(&mut self, name: &[u8], value: u64) -> bool
        ensures { result ≡ true → text_in self.new ≡ field_line (name.now, value) }
    {
        if name.len() > NAME {
            return false;
        }
        self.clear();
        self.put_word(b"\n");
        self.put_number(value);
        self.put_word(b" ");
        self.put_word(name);
        self.put_word(b"field ");
        true
    }

    /// The line.
    #[inline(always)]
    pub(crate) fn text(&self) -> &[u8]
        ensures { result.now ≡ text_in self.now }
    {
        &self.bytes[self.start..]
    }
}
