//! The rules that a script hands to its application.

/// A rule on IPv4 addresses and the server's port.
#[derive(Clone, Copy, Debug, PartialEq, Eq)]
pub struct Rule {
    /// Its number, 1 to 255.
    pub number: u8,
    /// Whether what matches may pass.
    pub allow: bool,
    /// The client's net, of which the first `src_len` bits count.
    pub src: u32,
    /// 0 to 32.
    pub src_len: u8,
    /// The server's net, of which the first `dst_len` bits count.
    pub dst: u32,
    /// 0 to 32.
    pub dst_len: u8,
    /// The server's least port.
    pub low: u16,
    /// The server's greatest port.
    pub high: u16,
}
