//! Whether a step is legal, and what it changes.

ghost use Rattle.cap_machine.specs.Decide.{acting, any_cap, own_cap, own_reply, owed, caller_root, peer_root, peer_cap, decide, found_cap, or_why};
ghost use Rattle.cap_machine.specs.Effects.{read_write};
ghost use Rattle.cap_machine.specs.Perform.{TakesMemory};
ghost use Rattle.cap_machine.specs.Refused.{MayTakeMemory};
ghost use Rattle.cap_model.specs.Kinds.{is_at, is_space_root};
ghost use Rattle.std.specs.Prelude.{◌≡◌, Some, None, IfOk};

use crate::change::Change;
use crate::state::State;
use crate::step::{Step, Why};
use cap_model::{Cap, Content, Kind, Mapped, Object, Pending, Rights, Spec};

/// The rights among R and W.
fn read_write(r: Rights) -> Rights
    ensures { result ≡ read_write r }
{
    Rights {
        read: r.read,
        write: r.write,
        grant: false,
        reply: false,
    }
}

/// Whether the object is of the kind.
fn is_at(spec: &Spec, kind: Kind, object: u32) -> bool
    ensures { result ≡ is_at spec.now kind object }
{
    match spec.kind(object) {
        Some(here) => here.is(kind),
        None => false,
    }
}

/// Whether the object is a space root.
fn is_space_root(spec: &Spec, object: u32) -> bool
    ensures { result ≡ is_space_root spec.now object }
{
    match spec.object(object) {
        Some(Object::Pages { level, .. }) => spec.arch.is_root(*level),
        _ => false,
    }
}

/// The capability, or the answer where there is nothing or a saved reply.
fn found_cap(content: Option<Content>, none: Why, other: Why) -> Result<Cap, Why>
    ensures { result ≡ found_cap content none other }
{
    match content {
        Some(Content::Capability(cap)) => Ok(cap),
        Some(Content::SavedReply(_)) => Err(other),
        None => Err(none),
    }
}

/// The numbers of a grant.
#[derive(Clone, Copy)]
struct Granted {
    i: u64,
    j: u64,
    k: u64,
}

impl State {
    /// The root of a thread that acts.
    fn acting(&self, t: u32) -> Result<u32, Why>
        ensures { result ≡ acting self.now.state t }
    {
        let thread = self.thread(t);
        if thread.waits {
            return Err(Why::Waiting);
        }
        thread.root.ok_or(Why::NoRoot)
    }

    /// The reply that a thread owes.
    fn owed(&self, t: u32) -> Result<Pending, Why>
        ensures { result ≡ owed self.now.state t }
    {
        self.thread(t).pending.ok_or(Why::NoPending)
    }

    /// The root of a caller, to which a copy goes.
    fn caller_root(&self, caller: u32) -> Result<u32, Why>
        ensures { result ≡ caller_root self.now.state caller }
    {
        self.thread(caller).root.ok_or(Why::PeerNoRoot)
    }

    /// The capability that a CNode has at a number.
    fn any_cap(&self, c: u32, i: u64) -> Result<Cap, Why>
        ensures { result ≡ any_cap self.now.state c i }
    {
        found_cap(self.content(c, i), Why::NoCap(i), Why::WrongKind(i))
    }

    /// The saved reply that a CNode has at a number.
    fn own_reply(&self, c: u32, i: u64) -> Result<Pending, Why>
        ensures { result ≡ own_reply self.now.state c i }
    {
        match self.content(c, i) {
            Some(Content::SavedReply(reply)) => Ok(reply),
            Some(Content::Capability(_)) => Err(Why::WrongKind(i)),
            None => Err(Why::NoCap(i)),
        }
    }

    /// The capability that a CNode has at a number, to an object of the kind.
    fn own_cap(&self, spec: &Spec, c: u32, i: u64, kind: Kind) -> Result<Cap, Why>
        ensures { result ≡ own_cap (is_at spec.now kind) self.now.state c i }
    {
        let cap = self.any_cap(c, i)?;
        if !is_at(spec, kind, cap.object) {
            return Err(Why::WrongKind(i));
        }
        Ok(cap)
    }

    /// The capability that a CNode has at a number, to a space root.
    fn own_space(&self, spec: &Spec, c: u32, i: u64) -> Result<Cap, Why>
        ensures { result ≡ own_cap (is_space_root spec.now) self.now.state c i }
    {
        let cap = self.any_cap(c, i)?;
        if !is_space_root(spec, cap.object) {
            return Err(Why::WrongKind(i));
        }
        Ok(cap)
    }

    /// The root of a peer.
    fn peer_root(&self, t: u32, u: u32) -> Result<u32, Why>
        ensures { result ≡ peer_root self.now.state t u }
    {
        if t == u {
            return Err(Why::SamePeer);
        }
        let peer = self.thread(u);
        if peer.waits {
            return Err(Why::PeerWaiting);
        }
        peer.root.ok_or(Why::PeerNoRoot)
    }

    /// What a peer listens with, at a number of its root.
    fn peer_cap(&self, spec: &Spec, d: u32, j: u64, endpoint: u32) -> Result<Cap, Why>
        ensures { result ≡ peer_cap spec.now self.now.state d j endpoint }
    {
        let cap = found_cap(self.content(d, j), Why::PeerNoCap(j), Why::PeerWrongKind(j))?;
        if !is_at(spec, Kind::Endpoint, cap.object) {
            return Err(Why::PeerWrongKind(j));
        }
        if !cap.rights.read {
            return Err(Why::PeerNoRight(j));
        }
        if cap.object != endpoint {
            return Err(Why::OtherEndpoint);
        }
        Ok(cap)
    }

    fn take(&self, spec: &Spec, t: u32, i: u64, j: u64, r: Rights) -> Result<Change, Why>
        ensures { result ≡ decide spec.now self.now.state (Step.Take t i j r) }
    {
        let c = self.acting(t)?;
        let to = self.own_cap(spec, c, i, Kind::CNode)?;
        let cap = self.any_cap(to.object, j)?;
        Ok(Change::Add {
            node: c,
            cap: cap.lessened(r),
        })
    }

    fn put(&self, spec: &Spec, t: u32, i: u64, j: u64, r: Rights) -> Result<Change, Why>
        ensures { result ≡ decide spec.now self.now.state (Step.Put t i j r) }
    {
        let c = self.acting(t)?;
        let to = self.own_cap(spec, c, i, Kind::CNode)?;
        let cap = self.any_cap(c, j)?;
        Ok(Change::Add {
            node: to.object,
            cap: cap.lessened(r),
        })
    }

    fn grant(&self, spec: &Spec, t: u32, u: u32, at: Granted, r: Rights) -> Result<Change, Why>
        ensures { result ≡ decide spec.now self.now.state (Step.Grant t at.i u at.j at.k r) }
    {
        let c = self.acting(t)?;
        let to = self.own_cap(spec, c, at.i, Kind::Endpoint)?;
        if !(to.rights.write && to.rights.grant) {
            return Err(Why::NoRight(at.i));
        }
        let cap = self.any_cap(c, at.k)?;
        let d = self.peer_root(t, u)?;
        let _from = self.peer_cap(spec, d, at.j, to.object)?;
        Ok(Change::Add {
            node: d,
            cap: cap.lessened(r),
        })
    }

    fn call(&self, spec: &Spec, t: u32, i: u64, u: u32, j: u64) -> Result<Change, Why>
        ensures step { result ≡ decide spec.now self.now.state (Step.Call t i u j) }
        ensures memory { IfOk result (λ change. TakesMemory change → ⊥) }
    {
        let c = self.acting(t)?;
        let to = self.own_cap(spec, c, i, Kind::Endpoint)?;
        if !(to.rights.write && (to.rights.grant || to.rights.reply)) {
            return Err(Why::NoRight(i));
        }
        let d = self.peer_root(t, u)?;
        let from = self.peer_cap(spec, d, j, to.object)?;
        Ok(Change::Call {
            t,
            u,
            grants: from.rights.grant,
        })
    }

    fn reply(&self, spec: &Spec, t: u32) -> Result<Change, Why>
        ensures step { result ≡ decide spec.now self.now.state (Step.Reply t None) }
        ensures memory { IfOk result (λ change. TakesMemory change → ⊥) }
    {
        let _c = self.acting(t)?;
        let pending = self.owed(t)?;
        Ok(Change::Reply {
            t,
            caller: pending.caller,
        })
    }

    fn reply_copy(&self, spec: &Spec, t: u32, k: u64, r: Rights) -> Result<Change, Why>
        ensures { result ≡ decide spec.now self.now.state (Step.Reply t (Some (k, r))) }
    {
        let c = self.acting(t)?;
        let pending = self.owed(t)?;
        if !pending.grants {
            return Err(Why::NoGrant);
        }
        let cap = self.any_cap(c, k)?;
        let d = self.caller_root(pending.caller)?;
        Ok(Change::ReplyAdd {
            t,
            caller: pending.caller,
            node: d,
            cap: cap.lessened(r),
        })
    }

    fn set_cspace(&self, spec: &Spec, t: u32, i: u64, j: u64) -> Result<Change, Why>
        ensures step { result ≡ decide spec.now self.now.state (Step.SetCspace t i j) }
        ensures memory { IfOk result (λ change. TakesMemory change → ⊥) }
    {
        let c = self.acting(t)?;
        let to = self.own_cap(spec, c, i, Kind::Thread)?;
        let cap = self.own_cap(spec, c, j, Kind::CNode)?;
        Ok(Change::Root {
            thread: to.object,
            node: cap.object,
        })
    }

    fn set_vspace(&self, spec: &Spec, t: u32, i: u64, j: u64) -> Result<Change, Why>
        ensures step { result ≡ decide spec.now self.now.state (Step.SetVspace t i j) }
        ensures memory { IfOk result (λ change. TakesMemory change → ⊥) }
    {
        let c = self.acting(t)?;
        let to = self.own_cap(spec, c, i, Kind::Thread)?;
        let cap = self.own_space(spec, c, j)?;
        Ok(Change::Space {
            thread: to.object,
            root: cap.object,
        })
    }

    fn map(&self, spec: &Spec, t: u32, i: u64, j: u64, r: Rights) -> Result<Change, Why>
        ensures { result ≡ decide spec.now self.now.state (Step.Map t i j r) }
    {
        let c = self.acting(t)?;
        let frame = self.own_cap(spec, c, i, Kind::Frame)?;
        let cap = self.own_space(spec, c, j)?;
        Ok(Change::Map {
            added: Mapped {
                space: cap.object,
                frame: frame.object,
                rights: frame.rights.both(read_write(r)),
            },
        })
    }

    fn bind(&self, spec: &Spec, t: u32, i: u64, j: u64) -> Result<Change, Why>
        ensures step { result ≡ decide spec.now self.now.state (Step.Bind t i j) }
        ensures memory { IfOk result (λ change. TakesMemory change → ⊥) }
    {
        let c = self.acting(t)?;
        let irq = self.own_cap(spec, c, i, Kind::Irq)?;
        let cap = self.own_cap(spec, c, j, Kind::Notification)?;
        if !cap.rights.write {
            return Err(Why::NoRight(j));
        }
        Ok(Change::Bind {
            irq: irq.object,
            notification: cap.object,
        })
    }

    fn drop_content(&self, spec: &Spec, t: u32, i: u64) -> Result<Change, Why>
        ensures step { result ≡ decide spec.now self.now.state (Step.Drop t i) }
        ensures memory { IfOk result (λ change. TakesMemory change → ⊥) }
    {
        let c = self.acting(t)?;
        let _content = self.content(c, i).ok_or(Why::NoCap(i))?;
        Ok(Change::Drop { node: c, number: i })
    }

    fn save(&self, spec: &Spec, t: u32) -> Result<Change, Why>
        ensures { result ≡ decide spec.now self.now.state (Step.Save t) }
    {
        let c = self.acting(t)?;
        let pending = self.owed(t)?;
        Ok(Change::Save {
            t,
            node: c,
            pending,
        })
    }

    fn reply_to(&self, spec: &Spec, t: u32, i: u64) -> Result<Change, Why>
        ensures step { result ≡ decide spec.now self.now.state (Step.ReplyTo t i None) }
        ensures memory { IfOk result (λ change. TakesMemory change → ⊥) }
    {
        let c = self.acting(t)?;
        let reply = self.own_reply(c, i)?;
        Ok(Change::Release {
            node: c,
            number: i,
            caller: reply.caller,
        })
    }

    fn reply_to_copy(&self, spec: &Spec, t: u32, i: u64, k: u64, r: Rights) -> Result<Change, Why>
        ensures { result ≡ decide spec.now self.now.state (Step.ReplyTo t i (Some (k, r))) }
    {
        let c = self.acting(t)?;
        let reply = self.own_reply(c, i)?;
        if !reply.grants {
            return Err(Why::NoGrant);
        }
        let cap = self.any_cap(c, k)?;
        let d = self.caller_root(reply.caller)?;
        Ok(Change::ReleaseAdd {
            node: c,
            number: i,
            caller: reply.caller,
            to: d,
            cap: cap.lessened(r),
        })
    }

    /// What a step changes, or the first answer of the stated order.
    pub(crate) fn decide(&self, spec: &Spec, step: &Step) -> Result<Change, Why>
        ensures step { result ≡ decide spec.now self.now.state step.now }
        ensures memory { IfOk result (λ change. TakesMemory change → MayTakeMemory step.now) }
    {
        match *step {
            Step::Take { t, i, j, r } => self.take(spec, t, i, j, r),
            Step::Put { t, i, j, r } => self.put(spec, t, i, j, r),
            Step::Grant { t, i, u, j, k, r } => self.grant(spec, t, u, Granted { i, j, k }, r),
            Step::Call { t, i, u, j } => self.call(spec, t, i, u, j),
            Step::Reply { t, copy } => match copy {
                Some((k, r)) => self.reply_copy(spec, t, k, r),
                None => self.reply(spec, t),
            },
            Step::SetCspace { t, i, j } => self.set_cspace(spec, t, i, j),
            Step::SetVspace { t, i, j } => self.set_vspace(spec, t, i, j),
            Step::Map { t, i, j, r } => self.map(spec, t, i, j, r),
            Step::Bind { t, i, j } => self.bind(spec, t, i, j),
            Step::Drop { t, i } => self.drop_content(spec, t, i),
            Step::Save { t } => self.save(spec, t),
            Step::ReplyTo { t, i, copy } => match copy {
                Some((k, r)) => self.reply_to_copy(spec, t, i, k, r),
                None => self.reply_to(spec, t, i),
            },
        }
    }
}
