//! All that was found is gone through, and each edge of it shown.

ghost use Rattle.cap_audit.specs.Gains.{Gains, IsAll, IsSoFar, OfFace, OfSome};
ghost use Rattle.cap_audit.specs.Gates.{AreMet, AreReady, AreRosters, Between, Greets, MeetBy, Meets, OfCall, OfKinds, OfListening};
ghost use Rattle.cap_audit.specs.Kinds.{AreHeadRoots, IsQueued};
ghost use Rattle.cap_audit.specs.declared.gates.Place.{Place};
ghost use Rattle.cap_audit.specs.Picks.{OfDeed, OfDeeds, OfRoot, OfRoots, OwnsAll, OwnsFrom};
ghost use Rattle.cap_model.specs.Kept.{IsKept};
ghost use Rattle.cap_audit.specs.Search.{held_by};
ghost use Rattle.cap_audit.specs.Spread.{HasRoot};
ghost use Rattle.cap_audit.specs.declared.found.Pair.{Pair};
ghost use Rattle.std.specs.List.{Contains};
ghost use Rattle.std.specs.Prelude.{◌≡◌, ℕ, None, Some, IsTrue, OnOk, length};

use crate::Pair;
use crate::gates::{Company, Party, Place};
use crate::making::{Deed, Making};
use crate::picks::{Pick, Wanted};
use crate::rows::Rows;
use crate::search::thread_of;
use cam_base::Made;

/// Whether the row has the object.
fn knows(row: &[u32], object: u32) -> bool
    ensures { IsTrue result → Contains row.now object }
{
    row.contains(&object)
}

impl Making<'_> {
    /// Shows what the capability of a pair confers, where its CNode is a face.
    fn hold_pair(&mut self, pair: Pair) -> Made<()>
        requires so_far { IsSoFar self.old }
        requires held { Contains (held_by self.old.found pair.node) pair.held }
        ensures { OnOk result (Gains (OfFace self.old.spec self.old.labels self.old.found self.old.faces pair)
            self.old self.new) }
    {
        if !self.is_face(pair.node) {
            return Ok(());
        }
        match self.value(pair.held.value) {
            Some(cap) => {
                let pick = Pick {
                    number: pair.held.number,
                    cap,
                };
                self.hold(pair.node, &pick)?;
                Ok(())
            }
            None => Ok(()),
        }
    }

    /// Shows what all that was found confers.
    pub fn hold_all(&mut self) -> Made<()>
        requires so_far { IsSoFar self.old }
        requires all { IsAll self.old.spec self.old.found }
        ensures { OnOk result
            (Gains (OfSome (OfFace self.old.spec self.old.labels self.old.found self.old.faces) self.old.found.queue)
            self.old self.new) }
    {
        for place in 0..self.count() {
            self.hold_pair(self.pair(place))?;
        }
        Ok(())
    }

    /// Makes a thread take the step, from this capability to each of those.
    fn act_to_each(&mut self, deed: Deed, t: u32, from: &Pick, tos: &[Pick]) -> Made<()>
        requires so_far { IsSoFar self.old }
        requires own { OwnsFrom self.old.spec self.old.found t deed from.now tos.now }
        ensures { OnOk result (Gains (OfSome (λ to. OfDeed self.old.spec self.old.labels deed from.now.cap to.cap) tos.now)
            self.old self.new) }
    {
        for to in tos {
            self.act(deed, t, from, to)?;
        }
        Ok(())
    }

    /// The same from each of these capabilities.
    fn act_from_each(&mut self, deed: Deed, t: u32, froms: &[Pick], tos: &[Pick]) -> Made<()>
        requires so_far { IsSoFar self.old }
        requires own { OwnsAll self.old.spec self.old.found t deed froms.now tos.now }
        ensures { OnOk result
            (Gains (OfSome (λ from. OfSome (λ to. OfDeed self.old.spec self.old.labels deed from.cap to.cap) tos.now)
            froms.now) self.old self.new) }
    {
        for from in froms {
            self.act_to_each(deed, t, from, tos)?;
        }
        Ok(())
    }

    /// Makes a thread with this root take all such steps.
    fn act_at(&mut self, deed: Deed, t: u32, node: u32) -> Made<()>
        requires so_far { IsSoFar self.old }
        requires root { HasRoot self.old.spec t node }
        ensures { OnOk result (Gains (OfDeeds self.old.spec self.old.labels self.old.found deed node) self.old self.new) }
    {
        let froms = self.picks(node, deed.wanted_from())?;
        let tos = self.picks(node, deed.wanted_to())?;
        self.act_from_each(deed, t, froms.as_slice(), tos.as_slice())?;
        Ok(())
    }

    fn act_at_root(&mut self, deed: Deed, root: Option<u32>, node: u32) -> Made<()>
        requires so_far { IsSoFar self.old }
        requires root { (t : ℕ) → root ≡ Some t → HasRoot self.old.spec t node }
        ensures { OnOk result (Gains (OfRoot self.old.spec self.old.labels self.old.found deed root node)
            self.old self.new) }
    {
        match root {
            Some(t) => {
                self.act_at(deed, t, node)?;
                Ok(())
            }
            None => Ok(()),
        }
    }

    /// Makes threads take all such steps, one thread of each root.
    pub fn act_at_all(&mut self, deed: Deed, roots: &[Option<u32>]) -> Made<()>
        requires so_far { IsSoFar self.old }
        requires kept { IsKept self.old.spec }
        requires roots { AreHeadRoots self.old.spec self.old.heads roots.now }
        ensures { OnOk result (Gains (OfRoots self.old.spec self.old.labels self.old.found deed roots.now)
            self.old self.new) }
    {
        for c in 0..self.objects() {
            self.act_at_root(deed, thread_of(roots, c as u32), c as u32)?;
        }
        Ok(())
    }

    fn call_one(&mut self, t: u32, at: Place, u: u32, peer: Place) -> Made<()>
        requires so_far { IsSoFar self.old }
        requires meets { Meets self.old.spec self.old.found at peer }
        requires root { HasRoot self.old.spec t at.node }
        requires peer_root { HasRoot self.old.spec u peer.node }
        ensures { OnOk result (Gains (OfCall self.old.labels u peer.node t) self.old self.new) }
    {
        if t == u {
            return Ok(());
        }
        let caller = Party {
            thread: t,
            node: at.node,
            number: at.number,
        };
        let listener = Party {
            thread: u,
            node: peer.node,
            number: peer.number,
        };
        self.call(caller, listener)?;
        Ok(())
    }

    /// Each of these threads calls the one.
    fn call_from_each(&mut self, threads: &[u32], at: Place, u: u32, peer: Place) -> Made<()>
        requires so_far { IsSoFar self.old }
        requires meets { Meets self.old.spec self.old.found at peer }
        requires roots { (t : ℕ) → Contains threads.now t → HasRoot self.old.spec t at.node }
        requires peer_root { HasRoot self.old.spec u peer.node }
        ensures { OnOk result (Gains (OfSome (OfCall self.old.labels u peer.node) threads.now) self.old self.new) }
    {
        for t in threads {
            self.call_one(*t, at, u, peer)?;
        }
        Ok(())
    }

    /// All threads with the one root call those with the other.
    fn call_between(&mut self, rosters: &Rows<u32>, at: Place, peer: Place) -> Made<()>
        requires so_far { IsSoFar self.old }
        requires rosters { AreRosters self.old.spec rosters.now (length self.old.spec.entries) }
        requires meets { Meets self.old.spec self.old.found at peer }
        ensures { OnOk result (Gains (Between self.old.labels rosters.now at.node peer.node) self.old self.new) }
    {
        let callers = rosters.row(at.node);
        let peers = rosters.row(peer.node);
        for u in peers {
            self.call_from_each(callers, at, *u, peer)?;
        }
        Ok(())
    }

    /// All threads that may call at an endpoint call those with this root.
    fn call_from_gate(&mut self, rosters: &Rows<u32>, gate: &[Place], peer: Place) -> Made<()>
        requires so_far { IsSoFar self.old }
        requires rosters { AreRosters self.old.spec rosters.now (length self.old.spec.entries) }
        requires meet { (at : Place) → Contains gate.now at → Meets self.old.spec self.old.found at peer }
        ensures { OnOk result (Gains (OfSome (λ at. Between self.old.labels rosters.now at.node peer.node) gate.now)
            self.old self.new) }
    {
        for at in gate {
            self.call_between(rosters, *at, peer)?;
        }
        Ok(())
    }

    /// All at the first places call all at the second.
    fn call_all(&mut self, rosters: &Rows<u32>, callers: &[Place], peers: &[Place]) -> Made<()>
        requires so_far { IsSoFar self.old }
        requires rosters { AreRosters self.old.spec rosters.now (length self.old.spec.entries) }
        requires meet { (peer at : Place) → Contains peers.now peer → Contains callers.now at
            → Meets self.old.spec self.old.found at peer }
        ensures { OnOk result
            (Gains (OfSome (λ peer. OfSome (λ at. Between self.old.labels rosters.now at.node peer.node) callers.now) peers.now)
            self.old self.new) }
    {
        for peer in peers {
            self.call_from_gate(rosters, callers, *peer)?;
        }
        Ok(())
    }

    /// All for whom the CNode of the first pair stands call all for whom that of the second stands, by these values.
    fn call_kinds(&mut self, company: &Company, door: Pair, pair: Pair) -> Made<()>
        requires so_far { IsSoFar self.old }
        requires ready { AreReady self.old.spec self.old.found self.old.heads company.now.rosters
            company.now.members company.now.gates }
        requires door { IsQueued self.old.found door.node door.held.value }
        requires pair { IsQueued self.old.found pair.node pair.held.value }
        requires meet { MeetBy self.old.spec self.old.found door.held.value pair.held.value }
        ensures { OnOk result
            (Gains (OfKinds self.old.labels company.now.rosters company.now.members door.node pair.node)
            self.old self.new) }
    {
        let callers = self.places(company.members.row(door.node), door.held.value)?;
        let peers = self.places(company.members.row(pair.node), pair.held.value)?;
        self.call_all(&company.rosters, callers.as_slice(), peers.as_slice())?;
        Ok(())
    }

    /// The same, where they haven't met yet.
    fn meet(&mut self, company: &Company, met: &mut Rows<u32>, door: Pair, pair: Pair) -> Made<()>
        requires so_far { IsSoFar self.old }
        requires ready { AreReady self.old.spec self.old.found self.old.heads company.now.rosters
            company.now.members company.now.gates }
        requires are_met { AreMet self.old.labels company.now.rosters company.now.members met.old self.old.edges }
        requires door { IsQueued self.old.found door.node door.held.value }
        requires pair { IsQueued self.old.found pair.node pair.held.value }
        requires meet { MeetBy self.old.spec self.old.found door.held.value pair.held.value }
        ensures { OnOk result (Greets company.now.rosters company.now.members
            (OfKinds self.old.labels company.now.rosters company.now.members door.node pair.node)
            self.old self.new met.new) }
    {
        if knows(met.row(door.node), pair.node) {
            return Ok(());
        }
        self.call_kinds(company, door, pair)?;
        met.push(door.node, pair.node)?;
        Ok(())
    }

    /// All doors of a gate meet the pair.
    fn meet_all(
        &mut self,
        company: &Company,
        met: &mut Rows<u32>,
        gate: &[Pair],
        pair: Pair,
    ) -> Made<()>
        requires so_far { IsSoFar self.old }
        requires ready { AreReady self.old.spec self.old.found self.old.heads company.now.rosters
            company.now.members company.now.gates }
        requires are_met { AreMet self.old.labels company.now.rosters company.now.members met.old self.old.edges }
        requires doors { (door : Pair) → Contains gate.now door → IsQueued self.old.found door.node door.held.value
            × MeetBy self.old.spec self.old.found
            door.held.value pair.held.value }
        requires pair { IsQueued self.old.found pair.node pair.held.value }
        ensures { OnOk result (Greets company.now.rosters company.now.members
            (OfSome (λ door. OfKinds self.old.labels company.now.rosters company.now.members door.node
            pair.node) gate.now)
            self.old self.new met.new) }
    {
        for door in gate {
            self.meet(company, met, *door, pair)?;
        }
        Ok(())
    }

    /// Those who may call call those for whom the pair's CNode stands, where its capability listens.
    fn listen(&mut self, company: &Company, met: &mut Rows<u32>, pair: Pair) -> Made<()>
        requires so_far { IsSoFar self.old }
        requires ready { AreReady self.old.spec self.old.found self.old.heads company.now.rosters
            company.now.members company.now.gates }
        requires are_met { AreMet self.old.labels company.now.rosters company.now.members met.old self.old.edges }
        requires pair { IsQueued self.old.found pair.node pair.held.value }
        ensures { OnOk result (Greets company.now.rosters company.now.members
            (OfListening self.old.spec self.old.labels self.old.found self.old.heads company.now.rosters
            company.now.members company.now.gates pair) self.old self.new met.new) }
    {
        if !self.is_head(pair.node) {
            return Ok(());
        }
        match self.pick(Wanted::Listener, pair.held) {
            Some(pick) => {
                let gate = company.gates.row(pick.cap.object);
                self.meet_all(company, met, gate, pair)?;
                Ok(())
            }
            None => Ok(()),
        }
    }

    /// Shows all calls.
    pub fn listen_all(&mut self, company: &Company, met: &mut Rows<u32>) -> Made<()>
        requires so_far { IsSoFar self.old }
        requires ready { AreReady self.old.spec self.old.found self.old.heads company.now.rosters
            company.now.members company.now.gates }
        requires are_met { AreMet self.old.labels company.now.rosters company.now.members met.old self.old.edges }
        ensures { OnOk result (Greets company.now.rosters company.now.members
            (OfSome (OfListening self.old.spec self.old.labels self.old.found self.old.heads company.now.rosters
            company.now.members company.now.gates) self.old.found.queue) self.old self.new met.new) }
    {
        for place in 0..self.count() {
            self.listen(company, met, self.pair(place))?;
        }
        Ok(())
    }
}
