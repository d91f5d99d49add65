//! An open connection: its monitoring socket, and the tree of its registrations.

ghost use Rattle.std.specs.Prelude.{◌≡◌, ◌+◌, ◌<◌, ◌^◌, [], OnOk, OnErr, IfOk};
ghost use Rattle.connection_core.specs.Trees.{list_in_force, InternsWithin};
ghost use Rattle.forest_versions.specs.State.{ControlState, active as first_active};
ghost use Rattle.connection_core.specs.InForce.{registered, IsInForce};
ghost use Rattle.connection_core.specs.Reach.{Reaches};

use crate::arrival::{Arrived, Phase, RaiseAt};
use crate::changes::change_all;
use crate::hearing::{hears_receiver, hears_sender};
use crate::in_force::InForce;
use crate::ledger::{Ledger, Notes};
use crate::rests::entry_at_rest;
use crate::terms::Terms;
use app_api::{App, PKT_IN, Reason, Verdict};
use builtin_events::{FactSource, is_alone_at_sender, raising_at_receiver, raising_at_sender};
use flow_socket::FlowSocket;
use native_filters::Hook;
use shared_forest::{Forests, Shared};
use std::alloc::{AllocError, Global};

/// What is kept of an open connection. Its private list is what the tree of its registrations names: it keeps no list
/// beside that.
#[derive(Drop)]
pub struct Flow {
    pub socket: FlowSocket,
    /// The tree of its registrations.
    pub forest: Shared,
    /// Its packets so far.
    pub count: u64,
    ghost reach: { Reaches socket count },
}

/// What a packet did to its connection.
#[derive(Clone, Copy, Debug, PartialEq, Eq)]
pub struct Step {
    /// Whether the connection is over.
    pub over: bool,
    /// What becomes of the packet.
    pub verdict: Verdict,
}

impl Flow {
    ghost use Rattle.app_api.specs.App.{Meaning};
    ghost use Rattle.shared_forest.specs.Lists.{TreeLists};
    ghost use Rattle.connection_core.specs.PacketUnderWay.{raise_done, phase as made};
    ghost use Rattle.connection_core.specs.History.{fresh};
    ghost use Rattle.connection_core.specs.Standing.{IsFlow, Reached, at_raise, in_phase};
    ghost use Rattle.connection_core.specs.Calls.{phase_sending, phase_receiving, followed_by};
    ghost use Rattle.connection_core.specs.Calls.{running, state_in, ForConnection, MakesInForce, CostsInForce};
    ghost use Rattle.connection_core.specs.Calls.{holding, IsHeld, HasRoom, IsReady, HasSent, Went, MadeCalls, StepsTo};

    /// A connection before its first packet, with the tree of the registrations that are on at its start. It takes no memory.
    pub fn new(alloc: Global, in_force: &InForce, forest: Shared) -> Flow
        ensures forest { result.forest ≡ forest }
        ensures count { result.count ≡ 0 }
        ensures opened { (s : ControlState) (tree : TreeLists) → IsInForce in_force.now s
            → list_in_force in_force.now tree ≡ first_active s
            → (app : Meaning) → IsFlow (registered in_force.now) tree result (fresh app s) }
    {
        Flow {
            socket: FlowSocket::new(alloc, in_force.rbuf(), in_force.policy()),
            forest,
            count: 0,
        }
    }

    // Makes one raise: calls what fires of the private list as it is, and then makes the changes that the callbacks
    // ask. The tree is borrowed from the store for the calls alone, so no walk sees it change.
    #[inline(always)]
    fn raise<A: App, F: Forests>(
        &mut self,
        terms: &Terms<A>,
        forests: &mut F,
        raise_at: &RaiseAt,
        notes: &mut Notes,
        ledger: &mut Ledger,
    ) -> Result<(), AllocError>
        requires ready { IsReady F.ForestView terms.now.in_force (2 ^ 62) (holding forests.old self.old ledger.old) }
        ensures made_calls { MadeCalls F.ForestView terms.now.in_force 255
            (holding forests.old self.old ledger.old) (holding forests.new self.new ledger.new) }
        ensures made { OnOk result (MakesInForce (running A.meaning terms.now)
            (state_in F.ForestView forests.old self.old notes.old ledger.old)
            (state_in F.ForestView forests.new self.new notes.new ledger.new)
            (λ app s. at_raise (raise_done app s) raise_at.now)) }
        ensures failed { OnErr result (CostsInForce (running A.meaning terms.now)
            (state_in F.ForestView forests.old self.old notes.old ledger.old) (F.interns forests.new)
            (λ app s. at_raise (raise_done app s) raise_at.now)) }
    {
        let tree = forests.tree_of(&self.forest);
        terms.call_at(tree, raise_at, &mut self.socket, notes, ledger)?;
        if ledger.asks_no_change() {
            return Ok(());
        }
        change_all(
            terms.alloc,
            &terms.in_force,
            forests,
            &mut self.forest,
            ledger.changes.as_slice(),
        )?;
        ledger.changes.clear();
        Ok(())
    }

    // Makes the raises of a phase, one after the other, each over the list that the one before it left.
    #[inline(always)]
    fn make<A: App, F: Forests>(
        &mut self,
        terms: &Terms<A>,
        forests: &mut F,
        phase: &Phase,
        notes: &mut Notes,
        ledger: &mut Ledger,
    ) -> Result<(), AllocError>
        requires ready { IsReady F.ForestView terms.now.in_force (2 ^ 61) (holding forests.old self.old ledger.old) }
        requires quiet { ledger.old.changes.items ≡ [] }
        ensures made_calls { MadeCalls F.ForestView terms.now.in_force 2040
            (holding forests.old self.old ledger.old) (holding forests.new self.new ledger.new) }
        ensures made { OnOk result (MakesInForce (running A.meaning terms.now)
            (state_in F.ForestView forests.old self.old notes.old ledger.old)
            (state_in F.ForestView forests.new self.new notes.new ledger.new)
            (λ app s. in_phase (made app s) phase.now)) }
        ensures failed { OnErr result (CostsInForce (running A.meaning terms.now)
            (state_in F.ForestView forests.old self.old notes.old ledger.old) (F.interns forests.new)
            (λ app s. in_phase (made app s) phase.now)) }
    {
        for event in phase.raising.events.as_slice() {
            let raise_at = phase.raise_at(*event);
            self.raise(terms, forests, &raise_at, notes, ledger)?;
        }
        Ok(())
    }

    // The packet's phase at its sender.
    #[inline(always)]
    fn send<A: App, F: Forests>(
        &mut self,
        terms: &Terms<A>,
        forests: &mut F,
        arrived: &Arrived,
        notes: &mut Notes,
        ledger: &mut Ledger,
    ) -> Result<(), AllocError>
        requires ready { IsReady F.ForestView terms.now.in_force (2 ^ 61) (holding forests.old self.old ledger.old) }
        ensures made_calls { MadeCalls F.ForestView terms.now.in_force 2040
            (holding forests.old self.old ledger.old) (holding forests.new self.new ledger.new) }
        ensures stands { OnOk result (ForConnection (running A.meaning terms.now)
            (state_in F.ForestView forests.old self.old notes.old ledger.old)
            (λ app s others h. Reached terms.now.keep others
            (list_in_force terms.now.in_force (F.content forests.new self.new.forest)) self.new.socket notes.new ledger.new
            (F.interns forests.old) (F.interns forests.new) h.altered (phase_sending app s arrived.now h))) }
        ensures failed { OnErr result (ForConnection (running A.meaning terms.now)
            (state_in F.ForestView forests.old self.old notes.old ledger.old)
            (λ app s others h. InternsWithin (F.interns forests.old) (F.interns forests.new)
            h.altered (phase_sending app s arrived.now h).altered)) }
        ensures asked { OnOk result (ledger.new.changes.items ≡ []) }
    {
        ledger.begin();
        let sent = self.socket.send(arrived.from, arrived.head, arrived.scale);
        let tree = forests.tree_of(&self.forest);
        if let Some(number) = terms.resting(tree, Hook::Snd) {
            ledger.count(0);
            return notes.keep_entry(terms.keep, entry_at_rest(arrived.number, Hook::Snd, number));
        }
        let first = self.count == 0;
        if is_alone_at_sender(first, &sent) {
            let raise_at = RaiseAt {
                number: arrived.number,
                from: arrived.from,
                hook: Hook::Snd,
                event: PKT_IN,
                source: FactSource::Sender {
                    head: arrived.head,
                    from: arrived.from,
                    nth: self.count,
                    sent: &sent,
                },
            };
            return self.raise(terms, forests, &raise_at, notes, ledger);
        }
        if !hears_sender(&terms.in_force, tree, first, &sent) {
            return Ok(());
        }
        let raising = raising_at_sender(arrived.head, arrived.from, self.count, first, &sent);
        let phase = Phase {
            number: arrived.number,
            from: arrived.from,
            raising,
        };
        self.make(terms, forests, &phase, notes, ledger)
    }

    // Its phase at its receiver.
    #[inline(always)]
    fn receive<A: App, F: Forests>(
        &mut self,
        terms: &Terms<A>,
        forests: &mut F,
        arrived: &Arrived,
        notes: &mut Notes,
        ledger: &mut Ledger,
    ) -> Result<(), AllocError>
        requires sent { HasSent F.ForestView terms.now.in_force (holding forests.old self.old ledger.old) }
        ensures went { Went F.ForestView terms.now.in_force 2040
            (holding forests.old self.old ledger.old) (holding forests.new self.new ledger.new) }
        ensures stands { OnOk result (MakesInForce (running A.meaning terms.now)
            (state_in F.ForestView forests.old self.old notes.old ledger.old)
            (state_in F.ForestView forests.new self.new notes.new ledger.new)
            (λ app s. phase_receiving app s arrived.now self.old.count)) }
        ensures failed { OnErr result (CostsInForce (running A.meaning terms.now)
            (state_in F.ForestView forests.old self.old notes.old ledger.old) (F.interns forests.new)
            (λ app s. phase_receiving app s arrived.now self.old.count)) }
        ensures counted { OnOk result (self.new.count ≡ self.old.count + 1) }
    {
        let nth = self.count;
        let got = self
            .socket
            .receive(arrived.from, arrived.head, arrived.payload)?;
        self.count += 1;
        let tree = forests.tree_of(&self.forest);
        if let Some(number) = terms.resting(tree, Hook::Rcv) {
            ledger.count(0);
            return notes.keep_entry(terms.keep, entry_at_rest(arrived.number, Hook::Rcv, number));
        }
        if !hears_receiver(&terms.in_force, tree, arrived.head, &got) {
            return Ok(());
        }
        let phase = Phase {
            number: arrived.number,
            from: arrived.from,
            raising: raising_at_receiver(arrived.head, arrived.from, nth, &got),
        };
        self.make(terms, forests, &phase, notes, ledger)
    }

    /// One more packet, and its callbacks. Where it was dropped at its sender it never comes to its receiver.
    #[inline(always)]
    pub fn step<A: App, F: Forests>(
        &mut self,
        terms: &Terms<A>,
        forests: &mut F,
        arrived: &Arrived,
        notes: &mut Notes,
        ledger: &mut Ledger,
    ) -> Result<Step, AllocError>
        requires count { self.old.count < 2 ^ 30 }
        requires held { IsHeld F.ForestView terms.now.in_force forests.old self.old.forest }
        requires room { HasRoom (2 ^ 60) ledger.old.counts }
        ensures went { Went F.ForestView terms.now.in_force 4080
            (holding forests.old self.old ledger.old) (holding forests.new self.new ledger.new) }
        ensures stands { IfOk result (λ step. StepsTo (running A.meaning terms.now) arrived.now
            (state_in F.ForestView forests.old self.old notes.old ledger.old)
            (state_in F.ForestView forests.new self.new notes.new ledger.new) step) }

        // Where memory is refused on the way, too, it costs at most one intern for each change that alters the private list.
        ensures failed { OnErr result (ForConnection (running A.meaning terms.now)
            (state_in F.ForestView forests.old self.old notes.old ledger.old)
            (λ app s others h. InternsWithin (F.interns forests.old) (F.interns forests.new)
            h.altered (followed_by app s arrived.now h).altered)) }
    {
        self.send(terms, forests, arrived, notes, ledger)?;
        let verdict = verdict_of(ledger.drop);
        if let Some(_) = ledger.drop {
            self.count += 1;
            return Ok(Step {
                over: self.socket.is_over(),
                verdict,
            });
        }
        self.receive(terms, forests, arrived, notes, ledger)?;
        Ok(Step {
            over: self.socket.is_over(),
            verdict,
        })
    }
}

ghost use Rattle.connection_core.specs.History.{verdict_of};

// What becomes of a packet for which a drop was asked, or none.
#[inline(always)]
pub(crate) fn verdict_of(drop: Option<Reason>) -> Verdict
    ensures { result ≡ verdict_of drop }
{
    match drop {
        Some(reason) => Verdict::Drop(reason),
        None => Verdict::Pass,
    }
}
