//! Tests of bytes and texts, by public calls alone: sources, sinks and shelves (`memory`, `adapters`, `files`, `gathering`,
//! `plain`), captures (`captures`, `made`, `pcapng`, `pcapng_at_hand`, `pcapng_refusals`), filters (`filters`), reports
//! (`records`, `reports`, `refusals`), the words of the command line (`settings`), and types that threads hand over or share
//! (`threads`).
//!
//! Crates tested: `mos_bytes`, `pcap_source`, `pcapng_source`, `capture_maker`, `filter_lang`, `report_text`, `words`.
//! Begin with the table of rows in the module of the subject.
#![tactic(auto)]

#[cfg(test)]
mod adapters;
#[cfg(test)]
mod captures;
#[cfg(test)]
mod files;
#[cfg(test)]
mod filters;
#[cfg(test)]
mod gathering;
#[cfg(test)]
mod made;
#[cfg(test)]
mod memory;
#[cfg(test)]
mod pcapng;
#[cfg(test)]
mod pcapng_at_hand;
#[cfg(test)]
mod pcapng_refusals;
#[cfg(test)]
mod plain;
#[cfg(test)]
mod records;
#[cfg(test)]
mod refusals;
#[cfg(test)]
mod reports;
#[cfg(test)]
mod settings;
#[cfg(test)]
mod threads;
