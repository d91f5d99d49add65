//! The callbacks of a raise, and of several raises over one tree.

ghost use Rattle.std.specs.Prelude.{◌≡◌, ◌≤◌, ◌<◌, ◌+◌, ◌*◌, ◌^◌, IsTrue, OnOk, List, ℕ, length};
ghost use Rattle.app_api.specs.Reg.{peek_fits, reg_of};
ghost use Rattle.app_api.specs.declared.registration.Reg.{Reg as RegOf};
ghost use Rattle.connection_core.specs.PacketUnderWay.{called, raised};
ghost use Rattle.connection_core.specs.Trees.{list_in_force};
ghost use Rattle.connection_core.specs.Numbers.{called_by};
ghost use Rattle.connection_core.specs.Standing.{state_of, raise_of, at_raise, in_phase};
ghost use Rattle.connection_core.specs.Calls.{running, HasRoom, MayCall, CallsAtMost, StepsInForce, CallsAt};

use crate::arrival::{Phase, RaiseAt};
use crate::hearing::hearers;
use crate::ledger::{Ledger, Notes};
use crate::look::look;
use crate::terms::Terms;
use app_api::{App, Entry, Hearers, Reg, Seen};
use event_trees::{Walk, later_events_change_nothing, slots_in_order};
use flow_socket::FlowSocket;
use shared_forest::Tree;
use std::alloc::AllocError;

/// The most changes that a raise asks: four at each of 255 registrations.
const MOST: usize = 4 * 255;

impl<A: App> Terms<'_, A> {
    // One callback: it peeks, leaves an entry where these are kept, and reacts.
    #[inline(always)]
    fn call(
        &self,
        raise_at: &RaiseAt,
        reg: &Reg,
        socket: &mut FlowSocket,
        notes: &mut Notes,
        ledger: &mut Ledger,
    ) -> Result<(), AllocError>
        requires peek { IsTrue (peek_fits reg.now.peek) }
        requires room { HasRoom (2 ^ 63) ledger.old.counts }
        ensures stands { OnOk result ((list : List RegOf) → StepsInForce (running A.meaning self.now) list
            (state_of socket.old notes.old ledger.old) (state_of socket.new notes.new ledger.new)
            (λ app s c. at_raise (called app s) raise_at.now c reg.now)) }
        ensures most { CallsAtMost 1
            (state_of socket.old notes.old ledger.old) (state_of socket.new notes.new ledger.new) }
    {
        let look = look(self.alloc, self.keep, socket, raise_at.from, &reg.peek)?;
        let reaction = self.react(raise_at, reg, look.got, &mut notes.tally);
        ledger.count(look.got);
        ledger.ask(&reaction)?;
        notes.keep_entry(self.keep, entry_of(raise_at, reg, look.seen))
    }

    // The callback of the registration with a number.
    #[inline(always)]
    fn call_number(
        &self,
        raise_at: &RaiseAt,
        number: u8,
        socket: &mut FlowSocket,
        notes: &mut Notes,
        ledger: &mut Ledger,
    ) -> Result<(), AllocError>
        requires room { HasRoom (2 ^ 63) ledger.old.counts }
        ensures stands { OnOk result ((list : List RegOf) → StepsInForce (running A.meaning self.now) list
            (state_of socket.old notes.old ledger.old) (state_of socket.new notes.new ledger.new)
            (λ app s c. at_raise (called_by app s) raise_at.now c (reg_of s.regs number))) }
        ensures most { CallsAtMost 1
            (state_of socket.old notes.old ledger.old) (state_of socket.new notes.new ledger.new) }
    {
        match self.in_force.reg_at(number) {
            Some(reg) => self.call(raise_at, reg, socket, notes, ledger),
            None => Ok(()),
        }
    }

    // Calls what fires at one raise, as a walk over the tree finds it.
    #[inline(never)]
    fn walk(
        &self,
        tree: &Tree,
        raise_at: RaiseAt,
        socket: &mut FlowSocket,
        notes: &mut Notes,
        ledger: &mut Ledger,
    ) -> Result<(), AllocError>
        requires ready { MayCall self.now.in_force (2 ^ 62) tree.now ledger.old.counts }
        ensures stands { OnOk result (CallsAt (running A.meaning self.now) tree.now raise_at.entry
            (state_of socket.old notes.old ledger.old) (state_of socket.new notes.new ledger.new)) }
        ensures most { CallsAtMost 255
            (state_of socket.old notes.old ledger.old) (state_of socket.new notes.new ledger.new) }
    {
        let defs = self.in_force.defs();
        slots_in_order(tree);
        later_events_change_nothing(defs);
        let facts = raise_at.source.facts();
        let mut walk = Walk::start(tree, raise_at.hook, raise_at.event, &facts);
        while let Some(number) = walk.next(defs, self.natives) {
            self.call_number(&raise_at, number, socket, notes, ledger)?;
        }
        Ok(())
    }

    /// Calls what fires at one raise: at most as many as a private list has. Where one registration alone hears a root's
    /// event no filter is asked on the way to it, so that it is called without a walk. Before a walk room is taken for all
    /// changes that may be asked; it is still there at the next one.
    #[inline(always)]
    pub(crate) fn call_at(
        &self,
        tree: &Tree,
        raise_at: &RaiseAt,
        socket: &mut FlowSocket,
        notes: &mut Notes,
        ledger: &mut Ledger,
    ) -> Result<(), AllocError>
        requires ready { MayCall self.now.in_force (2 ^ 62) tree.now ledger.old.counts }
        ensures stands { OnOk result (CallsAt (running A.meaning self.now) tree.now raise_at.now
            (state_of socket.old notes.old ledger.old) (state_of socket.new notes.new ledger.new)) }
        ensures most { CallsAtMost 255
            (state_of socket.old notes.old ledger.old) (state_of socket.new notes.new ledger.new) }
    {
        match hearers(&self.in_force, tree, raise_at.hook, raise_at.event) {
            Hearers::Nobody => Ok(()),
            Hearers::One(number) => { self.call_number(raise_at, number, socket, notes, ledger) }
            Hearers::More => {
                ledger.make_room(MOST)?;
                self.walk(tree, *raise_at, socket, notes, ledger)
            }
        }
    }

    /// Calls what fires at several raises, of which there are at most eight, all of one tree: the changes that are asked
    /// aren't made.
    pub(crate) fn raise_all(
        &self,
        tree: &Tree,
        phase: &Phase,
        socket: &mut FlowSocket,
        notes: &mut Notes,
        ledger: &mut Ledger,
    ) -> Result<(), AllocError>
        requires ready { MayCall self.now.in_force (2 ^ 61) tree.now ledger.old.counts }
        ensures stands { OnOk result (StepsInForce (running A.meaning self.now)
            (list_in_force self.now.in_force tree.now)
            (state_of socket.old notes.old ledger.old) (state_of socket.new notes.new ledger.new)
            (λ app s. in_phase (raised app s) phase.now)) }
        ensures most { CallsAtMost 2040
            (state_of socket.old notes.old ledger.old) (state_of socket.new notes.new ledger.new) }
    {
        for event in phase.raising.events.as_slice() {
            let raise_at = phase.raise_at(*event);
            self.call_at(tree, &raise_at, socket, notes, ledger)?;
        }
        Ok(())
    }
}

ghost use Rattle.connection_core.specs.PacketUnderWay.{entry_of};

// What the report tells of a callback.
#[inline(always)]
fn entry_of(raise_at: &RaiseAt, called: &Reg, seen: Seen) -> Entry
    ensures { result ≡ entry_of raise_at.now.number (raise_of raise_at.now) called.now seen }
{
    Entry {
        index: raise_at.number,
        hook: raise_at.hook,
        event: called.event,
        reg: called.number,
        seen,
    }
}
