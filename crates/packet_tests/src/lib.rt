//! Tests of packets and connections, by public calls alone: frames over IPv4 and IPv6 and their classes (`frames`, `ip6`),
//! keys, lanes and the table (`connections`), states of both ends (`ends`), streams (`streams`), sockets (`sockets`), built-in
//! events (`events`), native filters (`filters`), the log application (`applications`), and idle connections (`idle`).
//!
//! Crates tested: `packet_views`, `ip6_views`, `flow_table`, `tcp_emulation`, `reassembly`, `flow_socket`, `builtin_events`,
//! `native_filters`, `app_api`, `flow_timers`.
//! Begin with the table of rows in the module of the subject. `streams` also compares random segments with `PlainReceiver`.
#![tactic(auto)]

#[cfg(test)]
mod applications;
#[cfg(test)]
mod connections;
#[cfg(test)]
mod ends;
#[cfg(test)]
mod events;
#[cfg(test)]
mod filters;
#[cfg(test)]
mod frames;
#[cfg(test)]
mod idle;
#[cfg(test)]
mod ip6;
#[cfg(test)]
mod sockets;
#[cfg(test)]
mod streams;
