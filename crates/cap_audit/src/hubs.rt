//! Where threads meet at endpoints, so that what one holds goes to the other by a grant or with a reply.

ghost use Rattle.cap_audit.specs.Covering.{AreHubs, Covers};
ghost use Rattle.cap_audit.specs.Hubs.{Allows, Attends, IsHub, IsMember, Joins, Passes, course_of, members_at, opposite, with_member};
ghost use Rattle.cap_audit.specs.Search.{HoldsAt};
ghost use Rattle.cap_audit.specs.Spread.{HasRoot};
ghost use Rattle.cap_audit.specs.Ways.{Connects, InClass, IsWeb, Widened};
ghost use Rattle.cap_audit.specs.declared.hubs.Member.{Member};
ghost use Rattle.cap_audit.specs.declared.hubs.Side.TheVariants as sides;
ghost use Rattle.cap_model.specs.Kinds.{is_at};
ghost use Rattle.cap_model.specs.declared.kind.Kind.TheVariants as kinds;
ghost use Rattle.std.specs.List.{Contains};
ghost use Rattle.std.specs.Prelude.{◌≡◌, ◌↔◌, ℕ, [], true, replicate, IsTrue, IfOk, OnOk};

use crate::found::{Course, Way};
use crate::rows::Rows;
use crate::ways::{Net, Web};
use cam_base::Made;
use cap_model::{Cap, Spec};
use std::alloc::Global;
use std::marker::Model;

/// A root CNode, a thread whose root it is, and a capability in it with its number.
#[derive(Clone, Copy)]
pub struct Member {
    pub node: u32,
    pub thread: u32,
    pub number: u64,
    pub cap: Cap,
}

/// How capabilities pass at an endpoint.
#[derive(Clone, Copy)]
pub enum Passage {
    Grant,
    Reply,
}

/// From whom capabilities pass, and to whom.
#[derive(Clone, Copy)]
pub enum Side {
    Giving,
    Taking,
}

impl Side {
    fn opposite(self) -> Side
        ensures { result ≡ opposite self }
    {
        match self {
            Side::Giving => Side::Taking,
            Side::Taking => Side::Giving,
        }
    }
}

fn course_of(passage: Passage, giver: Member, taker: Member) -> Course
    ensures { result ≡ course_of passage giver taker }
{
    match passage {
        Passage::Grant => Course::Grant {
            t: giver.thread,
            i: giver.number,
            u: taker.thread,
            j: taker.number,
        },
        Passage::Reply => Course::Reply {
            t: taker.thread,
            i: taker.number,
            u: giver.thread,
            j: giver.number,
        },
    }
}

/// Whether a capability to an endpoint allows this.
fn allows(passage: Passage, side: Side, cap: Cap) -> bool
    ensures { IsTrue result ↔ Allows passage side cap }
{
    match (passage, side) {
        (Passage::Grant, Side::Giving) => cap.rights.write && cap.rights.grant,
        (Passage::Grant, Side::Taking) => cap.rights.read,
        (Passage::Reply, Side::Giving) => cap.rights.read && cap.rights.grant,
        (Passage::Reply, Side::Taking) => {
            cap.rights.write && (cap.rights.grant || cap.rights.reply)
        }
    }
}

/// Whether one of the members is joined with the CNode in both directions.
fn has_fellow(net: &Net, members: &[Member], node: u32) -> bool
    ensures { IsTrue result → (member : Member) × Contains members.now member × InClass net.now node member.node }
{
    for member in members {
        if net.are_joined(node, member.node) {
            return true;
        }
    }
    false
}

/// Connects a giver with a taker.
fn meet(web: &mut Web, spec: &Spec, by: Passage, from: Member, to: Member) -> Made<()>
    requires web { IsWeb spec.now web.old }
    requires both { (e : ℕ) × IsMember spec.now web.old.findings e by sides.Giving from
        × IsMember spec.now web.old.findings e by sides.Taking to }
    ensures { OnOk result (Connects spec.now web.old from.node to.node web.new) }
{
    if from.node == to.node {
        return Ok(());
    }
    let way = Way {
        to: to.node,
        course: course_of(by, from, to),
    };
    web.connect(spec, from.node, way)?;
    Ok(())
}

/// Connects a member of this side with one of the other.
fn join(
    web: &mut Web,
    spec: &Spec,
    by: Passage,
    side: Side,
    member: Member,
    other: Member,
) -> Made<()>
    requires web { IsWeb spec.now web.old }
    requires both { (e : ℕ) × IsMember spec.now web.old.findings e by side member
        × IsMember spec.now web.old.findings e by (opposite side) other }
    ensures widened { OnOk result (Widened spec.now web.old web.new) }
    ensures passes { OnOk result (Passes side web.new.net member.node other.node) }
{
    match side {
        Side::Giving => {
            meet(web, spec, by, member, other)?;
            Ok(())
        }
        Side::Taking => {
            meet(web, spec, by, other, member)?;
            Ok(())
        }
    }
}

/// Connects a member of this side with each of these of the other.
fn join_all(
    web: &mut Web,
    spec: &Spec,
    by: Passage,
    side: Side,
    member: Member,
    others: &[Member],
) -> Made<()>
    requires web { IsWeb spec.now web.old }
    requires both { (e : ℕ) × IsMember spec.now web.old.findings e by side member × ((other : Member)
        → Contains others.now other → IsMember spec.now web.old.findings e by (opposite side) other) }
    ensures { OnOk result (Joins spec.now web.old side member others.now web.new) }
{
    for other in others {
        join(web, spec, by, side, member, *other)?;
    }
    Ok(())
}

/// By the places of endpoints, those whose capabilities pass there, and those to whom they pass.
#[derive(Drop)]
pub struct Hub {
    givers: Rows<Member>,
    takers: Rows<Member>,
}

impl Model for Hub {
    ghost use Rattle.cap_audit.specs.Hubs.{Gathering};

    ghost Value = { Gathering };

    ghost view = { λ h. record { givers = h.givers; takers = h.takers } };
}

impl Hub {
    fn new(alloc: Global, n: usize) -> Made<Hub>
        ensures { IfOk result (λ hub. hub ≡ record { givers = replicate n []; takers = replicate n [] }) }
    {
        let givers = Rows::new(alloc, n)?;
        let takers = Rows::new(alloc, n)?;
        Ok(Hub { givers, takers })
    }

    fn members(&self, side: Side, endpoint: u32) -> &[Member]
        ensures { result.now ≡ members_at self.now side endpoint }
    {
        match side {
            Side::Giving => self.givers.row(endpoint),
            Side::Taking => self.takers.row(endpoint),
        }
    }

    fn put(&mut self, side: Side, member: Member) -> Made<()>
        ensures { OnOk result (self.new ≡ with_member self.old side member) }
    {
        match side {
            Side::Giving => self.givers.push(member.cap.object, member),
            Side::Taking => self.takers.push(member.cap.object, member),
        }
    }

    /// A root comes, where its capability allows it. One that is joined with one that is there stays away.
    fn attend(
        &mut self,
        web: &mut Web,
        spec: &Spec,
        by: Passage,
        side: Side,
        member: Member,
    ) -> Made<()>
        requires web { IsWeb spec.now web.old }
        requires hub { IsHub spec.now web.old by self.old }
        requires root { HasRoot spec.now member.thread member.node }
        requires at { HoldsAt web.old.findings member.node member.number member.cap }
        requires is { is_at spec.now kinds.Endpoint member.cap.object ≡ true }
        ensures { OnOk result (Attends spec.now web.old self.old by side member web.new self.new) }
    {
        let endpoint = member.cap.object;
        if !allows(by, side, member.cap) {
            return Ok(());
        }
        if has_fellow(&web.net, self.members(side, endpoint), member.node) {
            return Ok(());
        }
        join_all(
            web,
            spec,
            by,
            side,
            member,
            self.members(side.opposite(), endpoint),
        )?;
        self.put(side, member)?;
        Ok(())
    }
}

/// The hubs of grants and those of replies.
#[derive(Drop)]
pub struct Hubs {
    grants: Hub,
    replies: Hub,
}

impl Model for Hubs {
    ghost use Rattle.cap_audit.specs.Covering.{Doors};

    ghost Value = { Doors };

    ghost view = { λ h. record { grants = h.grants; replies = h.replies } };
}

impl Hubs {
    /// With nobody at the hubs of n objects.
    pub fn new(alloc: Global, n: usize) -> Made<Hubs>
        ensures grants { IfOk result (λ hubs. hubs.grants ≡ record { givers = replicate n []; takers = replicate n [] }) }
        ensures replies { IfOk result (λ hubs. hubs.replies ≡ record { givers = replicate n []; takers = replicate n [] }) }
    {
        let grants = Hub::new(alloc, n)?;
        let replies = Hub::new(alloc, n)?;
        Ok(Hubs { grants, replies })
    }

    /// A root comes to the hubs of the endpoint of its capability.
    pub fn attend(&mut self, web: &mut Web, spec: &Spec, member: Member) -> Made<()>
        requires web { IsWeb spec.now web.old }
        requires hubs { AreHubs spec.now web.old self.old }
        requires root { HasRoot spec.now member.thread member.node }
        requires at { HoldsAt web.old.findings member.node member.number member.cap }
        requires is { is_at spec.now kinds.Endpoint member.cap.object ≡ true }
        ensures { OnOk result (Covers spec.now web.old self.old member.node member.cap web.new self.new) }
    {
        self.grants
            .attend(web, spec, Passage::Grant, Side::Giving, member)?;
        self.grants
            .attend(web, spec, Passage::Grant, Side::Taking, member)?;
        self.replies
            .attend(web, spec, Passage::Reply, Side::Giving, member)?;
        self.replies
            .attend(web, spec, Passage::Reply, Side::Taking, member)?;
        Ok(())
    }
}
