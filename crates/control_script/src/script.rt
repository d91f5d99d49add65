//! Scripts: commands with their stamps, in order.

ghost use Rattle.std.specs.Prelude.{◌≡◌, ◌<◌, length, nat_le, Some, None};
ghost use Rattle.std.specs.Option.{unwrap_or};
ghost use Rattle.forest_versions.specs.declared.command.Stamp.{Stamp};
ghost use Rattle.control_script.specs.Rows.{last_latest, last_forced, latest_with, forced_with};

use crate::stamped::Stamped;
use forest_versions::{Command, Stamp};
use std::alloc::{AllocError, Global};
use std::marker::Model;

/// A command, with what a script asks of it and those before it.
#[derive(Drop)]
struct Row {
    stamped: Stamped,
    /// The greatest number of an `at` up to it, if there is one.
    latest: Option<u64>,
    /// One more than the place of the last `at` up to it, or 0.
    forced: u32,
}

/// The commands of a script in order, each with its stamp: at most 4,096, and no `at k` behind an `at` with a
/// greater k. Contracts see the list of them.
///
/// Floors and ceilings are found in time by the logarithm of the number of commands.
#[derive(Drop)]
pub struct Script {
    rows: Vec<Row>,
}

impl Model for Script {
    ghost use Rattle.std.specs.Prelude.{List};
    ghost use Rattle.std.specs.Coded.{coded_list};
    ghost use Rattle.control_script.specs.declared.stamped.Stamped.{Stamped};
    ghost use Rattle.control_script.specs.contracts.stamped.Stamped as stamped;
    ghost use Rattle.control_script.specs.Rows.{stamped_of, AreRows};

    ghost Value = { List Stamped };

    ghost coded = { coded_list stamped.the_row.coded };

    ghost view = { λ s. stamped_of s.rows.items };

    ghost invariant = { λ s. AreRows s.rows.items };
}

impl Script {
    ghost use Rattle.std.specs.Prelude.{◌≡◌, ◌+◌, ◌<◌, ◌≤◌, [], ◌∷◌, ◌++◌, length, map, not, true, false, IsTrue, OnOk, OnErr, slice_get};
    ghost use Rattle.std.specs.Option.{option_copied};
    ghost use Rattle.std.specs.List.{list_any, list_all};
    ghost use Rattle.control_script.specs.Order.{commands_of, is_later, are_in_order};
    ghost use Rattle.control_script.specs.Versions.{floor, ceil, is_live};

    /// No commands.
    pub(crate) fn new(alloc: Global) -> Script
        ensures { result ≡ [] }
    {
        Script {
            rows: Vec::new(alloc),
        }
    }

    /// The number of commands, at most 4,096.
    pub fn len(&self) -> u32
        ensures len { result ≡ length self.now }
        ensures most { result ≤ 4096 }
        ensures order { IsTrue (are_in_order self.now) }
    {
        self.rows.len() as u32
    }

    /// The command at a place, from 0.
    pub fn command(&self, place: u32) -> Option<&Command>
        ensures { option_copied result ≡ slice_get (commands_of self.now) place }
    {
        match self.rows.get(place as usize) {
            None => None,
            Some(row) => Some(&row.stamped.command),
        }
    }

    /// The stamp of the command at a place, from 0.
    pub fn stamp(&self, place: u32) -> Option<Stamp>
        ensures { result ≡ slice_get (map (λ s. s.stamp) self.now) place }
    {
        match self.rows.get(place as usize) {
            None => None,
            Some(row) => Some(row.stamped.stamp),
        }
    }

    /// The least version of a record that begins at packet n: the commands that it has to see.
    pub fn floor(&self, n: u64) -> u32
        ensures floor { result ≡ floor self.now n }
        ensures within { result ≤ ceil self.now n }
        ensures same { IsTrue (list_all (λ s. not (is_live s.stamp)) self.now) → result ≡ ceil self.now n }
    {
        let count = self.seen(n);
        if count == 0 {
            0
        } else {
            self.rows[count - 1].forced
        }
    }

    /// The greatest version of a record that begins at packet n: the commands before the first that it may not see.
    pub fn ceil(&self, n: u64) -> u32
        ensures ceil { result ≡ ceil self.now n }
        ensures within { result ≤ length self.now }
        ensures most { result ≤ 4096 }
    {
        self.seen(n) as u32
    }

    // How many commands packet n may see.
    fn seen(&self, n: u64) -> usize
        ensures ceil { result ≡ ceil self.now n }
        ensures within { result ≤ length self.now }
        ensures most { result ≤ 4096 }
    {
        self.rows.partition_point(|row| lets_pass(row.latest, n))
    }

    /// Whether a command with this stamp may stand behind the others.
    pub(crate) fn may_follow(&self, stamp: Stamp) -> bool
        ensures { result ≡ not (list_any (λ b. is_later b.stamp stamp) self.now) }
    {
        match stamp {
            Stamp::At(k) => lets_pass(last(&self.rows).0, k),
            Stamp::Live => true,
        }
    }

    /// Adds a command at the end. An error is want of memory, and changes nothing.
    pub(crate) fn push(&mut self, stamped: Stamped) -> Result<(), AllocError>
        requires few { length self.old < 4096 }
        requires order { list_any (λ b. is_later b.stamp stamped.stamp) self.old ≡ false }
        ensures ok { OnOk result (self.new ≡ self.old ++ stamped ∷ []) }
        ensures err { OnErr result (self.new ≡ self.old) }
    {
        let row = marked(&self.rows, stamped);
        self.rows.push(row)?;
        Ok(())
    }
}

// Whether the greatest number of an `at` is no greater than a packet's, or there is none.
fn lets_pass(latest: Option<u64>, n: u64) -> bool
    ensures { result ≡ nat_le (unwrap_or latest 0) n }
{
    match latest {
        Some(k) => k <= n,
        None => true,
    }
}

// The greatest number of an `at` once there is one more.
fn latest_at(latest: Option<u64>, k: u64) -> u64
    ensures { Some result ≡ latest_with latest (Stamp.At k) }
{
    match latest {
        Some(l) => l.max(k),
        None => k,
    }
}

// What the last row has.
fn last(rows: &[Row]) -> (Option<u64>, u32)
    ensures latest { result.0 ≡ last_latest None rows.now }
    ensures forced { result.1 ≡ last_forced 0 rows.now }
{
    if rows.is_empty() {
        return (None, 0);
    }
    let row = &rows[rows.len() - 1];
    (row.latest, row.forced)
}

// The row of a command behind these.
fn marked(rows: &[Row], stamped: Stamped) -> Row
    requires few { length rows.now < 4096 }
    ensures stamped { result.stamped ≡ stamped }
    ensures latest { result.latest ≡ latest_with (last_latest None rows.now) stamped.stamp }
    ensures forced { result.forced ≡ forced_with (last_forced 0 rows.now) (length rows.now) stamped.stamp }
{
    let (latest, forced) = last(rows);
    match stamped.stamp {
        Stamp::At(k) => Row {
            stamped,
            latest: Some(latest_at(latest, k)),
            forced: rows.len() as u32 + 1,
        },
        Stamp::Live => Row {
            stamped,
            latest,
            forced,
        },
    }
}
