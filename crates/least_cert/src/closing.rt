//! Edges in the making of a certificate, with look-ups by both ends, and which label gives all that it has to which.

ghost use Rattle.cap_model.specs.Adds.{Adds as AddsEdges};
ghost use Rattle.cap_model.specs.Edges.{edge};
ghost use Rattle.cap_model.specs.Tables.{has, IsSorted};
ghost use Rattle.authorities.specs.declared.authority.Authority.TheVariants.{Grant};
ghost use Rattle.cap_model.specs.declared.edge.Edge.{Edge};
ghost use Rattle.least_cert.specs.Closing.{Adds, AddsAll, AreCopies, AreOut, AreTo, Copies, Gives, Flows, GivesAll, IsCopy, IsEmpty, IsGift, IsLess, IsRelabeled, IsSound, IsSpread, Joins, OfLeast, Puts, PutsGift, Relabels, Widens, lead, leader_at, led_by, passed_to, stays, turn};
ghost use Rattle.least_cert.specs.LeastCertificate.{CloseRefused};
ghost use Rattle.std.specs.List.{filter_map};
ghost use Rattle.std.specs.Prelude.{◌≡◌, ◌<◌, ◌≤◌, ◌^◌, ◌↔◌, ◌++◌, ℕ, map, true, IsTrue, IfErr, IfOk, OnOk, length, slice_get, Some};

use cam_base::{Made, NoMemory};
use cap_model::{Authority, Edge, EdgeSet, EdgeTable, Labels, Spec};
use std::alloc::Global;
use std::marker::Model;

/// The most edges of a certificate.
pub const LIMIT: usize = 262_144;

/// Why there is no certificate: the least one has more than 262,144 edges; or want of memory.
#[derive(Clone, Copy)]
pub enum CloseError {
    Limit,
    NoMemory,
}

impl From<NoMemory> for CloseError {
    ghost use Rattle.std.specs.Prelude.{◌≡◌};
    ghost use Rattle.least_cert.specs.declared.closing.CloseError.TheVariants.{NoMemory as CloseNoMemory};

    ghost from_gives = { λ _ e. e ≡ CloseNoMemory };

    fn from(_: NoMemory) -> CloseError {
        CloseError::NoMemory
    }
}

/// An edge between two labels.
fn edge_of(from: u32, authority: Authority, to: u32) -> Edge
    ensures is { result ≡ edge from authority to }
    ensures less { IsLess result }
{
    Edge {
        from,
        authority,
        to,
    }
}

/// The edge in the other direction.
pub fn turned(edge: Edge) -> Edge
    ensures is { result ≡ turn edge }
    ensures less { IsLess edge }
{
    edge_of(edge.to, edge.authority, edge.from)
}

/// The edge as another label's, where it passes on.
pub fn passed_to(label: u32, edge: Edge) -> Option<Edge>
    ensures { result ≡ passed_to label edge }
{
    if edge.authority.number() == 9 {
        return None;
    }
    Some(Edge {
        from: label,
        authority: edge.authority,
        to: edge.to,
    })
}

/// The edges as another label's, those that pass on.
fn passed_to_one(alloc: Global, label: u32, edges: &[Edge]) -> Made<Vec<Edge>>
    ensures { IfOk result (λ passed. passed.items ≡ filter_map (passed_to label) edges.now) }
{
    let passed = edges
        .iter()
        .filter_map(|edge| passed_to(label, *edge))
        .collect(alloc)?;
    Ok(passed)
}

/// The edges of both lists.
pub fn with_more(edges: Vec<Edge>, more: &[Edge]) -> Made<Vec<Edge>>
    ensures { IfOk result (λ new. new.items ≡ edges.items ++ more.now) }
{
    let mut edges = edges;
    edges.extend_from_slice(more)?;
    Ok(edges)
}

/// The leaders, with places for the labels up to one.
fn widened(leaders: Vec<u32>, label: u32) -> Made<Vec<u32>>
    requires { length leaders.items ≤ 2 ^ 32 }
    ensures { IfOk result (λ new. Widens label leaders.items new.items) }
{
    let mut leaders = leaders;
    for next in leaders.len()..label as usize + 1 {
        leaders.push(next as u32)?;
    }
    Ok(leaders)
}

/// The edge, where it is a reply or its label has no place among the leaders.
fn stays(places: usize, edge: Edge) -> Option<Edge>
    ensures { result ≡ stays places edge }
{
    if edge.authority.number() == 9 {
        return Some(edge);
    }
    if (edge.from as usize) < places {
        return None;
    }
    Some(edge)
}

/// The leader of the labels that a label stands with.
fn leader(leaders: &[u32], label: u32) -> u32
    ensures { result ≡ leader_at leaders.now label }
{
    match leaders.get(label as usize) {
        Some(leader) => *leader,
        None => label,
    }
}

fn led_by(from: u32, to: u32, leader: u32) -> u32
    ensures { result ≡ led_by from to leader }
{
    if leader == from { to } else { leader }
}

/// The leaders, one in place of another.
fn with_leader(alloc: Global, leaders: &[u32], from: u32, to: u32) -> Made<Vec<u32>>
    ensures { IfOk result (λ new. new.items ≡ map (led_by from to) leaders.now) }
{
    let new = leaders
        .iter()
        .map(|leader| led_by(from, to, *leader))
        .collect(alloc)?;
    Ok(new)
}

fn copied(alloc: Global, leaders: &[u32]) -> Made<Vec<u32>>
    ensures { IfOk result (λ new. new.items ≡ leaders.now) }
{
    let new = leaders.iter().copied().collect(alloc)?;
    Ok(new)
}

/// The same for all labels, also where the one had no place.
fn relabeled(alloc: Global, leaders: &[u32], from: u32, to: u32) -> Made<Vec<u32>>
    requires { length leaders.now ≤ 2 ^ 32 }
    ensures { IfOk result (λ new. IsRelabeled from to leaders.now new.items) }
{
    let same = copied(alloc, leaders)?;
    let wide = widened(same, from)?;
    let new = with_leader(alloc, wide.as_slice(), from, to)?;
    Ok(new)
}

/// The edges that stay.
fn staying(alloc: Global, places: usize, edges: &[Edge]) -> Made<Vec<Edge>>
    ensures { IfOk result (λ new. new.items ≡ filter_map (stays places) edges.now) }
{
    let new = edges
        .iter()
        .filter_map(|edge| stays(places, *edge))
        .collect(alloc)?;
    Ok(new)
}

/// Edges in the making.
#[derive(Drop)]
pub struct Closing<'a> {
    alloc: Global,
    spec: &'a Spec,
    labels: &'a Labels,
    queue: Vec<Edge>,
    known: EdgeSet,
    turned: EdgeSet,
    gives: EdgeSet,
    leaders: Vec<u32>,
}

impl<'a> Model for Closing<'a> {
    ghost use Rattle.least_cert.specs.Closing.{Closure};

    ghost Value = { Closure };

    ghost view = { λ c. record {
      spec = c.spec.now;
      labels = c.labels.now.by_object;
      queue = c.queue.items;
      known = c.known;
      turned = c.turned;
      gives = c.gives;
      leaders = c.leaders.items;
    } };
}

impl<'a> Closing<'a> {
    /// No edges yet.
    pub fn new(alloc: Global, spec: &'a Spec, labels: &'a Labels) -> Closing<'a>
        ensures { IsEmpty spec.entry.now labels.entry.now.by_object result }
    {
        Closing {
            alloc,
            spec,
            labels,
            queue: Vec::new(alloc),
            known: EdgeSet::new(alloc),
            turned: EdgeSet::new(alloc),
            gives: EdgeSet::new(alloc),
            leaders: Vec::new(alloc),
        }
    }

    /// How many edges there are.
    pub fn count(&self) -> usize
        ensures { result ≡ length self.now.queue }
    {
        self.queue.len()
    }

    /// The edge at a place of the queue.
    pub fn edge(&self, place: usize) -> Edge
        requires { place < length self.now.queue }
        ensures { slice_get self.now.queue place ≡ Some result }
    {
        self.queue[place]
    }

    /// The edges with an authority out of a label.
    pub fn out_with(&self, label: u32, authority: Authority) -> Made<Vec<Edge>>
        requires { IsSound self.now }
        ensures { IfOk result (λ edges. AreOut self.now.queue label authority edges.items) }
    {
        let edges = self.known.out_with(self.alloc, label, authority)?;
        Ok(edges)
    }

    /// The edges with an authority to a label, each turned.
    pub fn to_with(&self, label: u32, authority: Authority) -> Made<Vec<Edge>>
        requires { IsSound self.now }
        ensures { IfOk result (λ edges. AreTo self.now.queue label authority edges.items) }
    {
        let edges = self.turned.out_with(self.alloc, label, authority)?;
        Ok(edges)
    }

    /// The gifts of a label.
    pub fn gifts_of(&self, label: u32) -> Made<Vec<Edge>>
        requires { IsSound self.now }
        ensures { IfOk result (λ gifts. AreOut self.now.gives label Grant gifts.items) }
    {
        let gifts = self.gives.out_with(self.alloc, label, Authority::Grant)?;
        Ok(gifts)
    }

    fn put(&mut self, edge: Edge) -> Made<()>
        ensures { OnOk result (Puts edge self.old self.new) }
    {
        self.known.insert(edge)?;
        self.turned.insert(turned(edge))?;
        self.queue.push(edge)?;
        Ok(())
    }

    fn knows(&self, edge: &Edge) -> bool
        ensures { result ≡ has self.now.known edge.now }
    {
        self.known.contains(edge)
    }

    /// Whether there are too many edges.
    fn is_over(&self) -> bool
        ensures over { IsTrue result ↔ (262144 < length self.now.known) }
        ensures sorted { IsSorted self.now.known }
    {
        self.known.len() > LIMIT
    }

    /// Puts an edge in as its leader's, where it isn't known yet.
    pub fn add(&mut self, edge: Edge) -> Result<(), CloseError>
        requires sound { IsSound self.old }
        requires least { OfLeast self.old edge }
        ensures added { OnOk result (Adds edge self.old self.new) }
        ensures refused { IfErr result (CloseRefused self.old.spec self.old.labels) }
    {
        let edge = self.lead(edge);
        if self.knows(&edge) {
            return Ok(());
        }
        self.put(edge)?;
        if self.is_over() {
            return Err(CloseError::Limit);
        }
        Ok(())
    }

    /// The edge as its leader's. A reply stays its label's own.
    fn lead(&self, edge: Edge) -> Edge
        ensures { result ≡ lead self.now.leaders edge }
    {
        if edge.authority.number() == 9 {
            return edge;
        }
        Edge {
            from: self.leader(edge.from),
            authority: edge.authority,
            to: edge.to,
        }
    }

    fn leader(&self, label: u32) -> u32
        ensures { result ≡ leader_at self.now.leaders label }
    {
        leader(self.leaders.as_slice(), label)
    }

    /// Puts edges in, where they aren't known yet.
    pub fn add_all(&mut self, edges: &[Edge]) -> Result<(), CloseError>
        requires sound { IsSound self.old }
        requires least { (e : Edge) → has edges.now e ≡ true → OfLeast self.old e }
        ensures added { OnOk result (AddsAll edges.now self.old self.new) }
        ensures refused { IfErr result (CloseRefused self.old.spec self.old.labels) }
    {
        for edge in edges {
            self.add(*edge)?;
        }
        Ok(())
    }

    /// What the giver has, as the taker's.
    fn copies(&self, giver: u32, taker: u32) -> Made<Vec<Edge>>
        requires { IsSound self.now }
        ensures { IfOk result (λ edges. AreCopies self.now giver taker edges.items) }
    {
        let edges = self.known.out_of(self.alloc, giver)?;
        let copies = passed_to_one(self.alloc, taker, edges.as_slice())?;
        Ok(copies)
    }

    /// Puts in what the giver has, as the taker's.
    fn copy(&mut self, giver: u32, taker: u32) -> Result<(), CloseError>
        requires sound { IsSound self.old }
        requires flows { Flows self.old.spec self.old.labels giver taker }
        ensures copied { OnOk result (Copies giver taker self.old self.new) }
        ensures refused { IfErr result (CloseRefused self.old.spec self.old.labels) }
    {
        let copies = self.copies(giver, taker)?;
        self.add_all(copies.as_slice())?;
        Ok(())
    }

    fn is_given(&self, gift: &Edge) -> bool
        ensures { result ≡ has self.now.gives gift.now }
    {
        self.gives.contains(gift)
    }

    /// Makes a label give all that it has to another, where it doesn't yet. Two labels that give to each other share
    /// one leader.
    pub fn give(&mut self, giver: u32, taker: u32) -> Result<(), CloseError>
        requires sound { IsSound self.old }
        requires flows { Flows self.old.spec self.old.labels giver taker }
        ensures given { OnOk result (Gives giver taker self.old self.new) }
        ensures refused { IfErr result (CloseRefused self.old.spec self.old.labels) }
    {
        self.give_led(self.leader(giver), self.leader(taker))?;
        Ok(())
    }

    fn give_led(&mut self, giver: u32, taker: u32) -> Result<(), CloseError>
        requires sound { IsSound self.old }
        requires flows { Flows self.old.spec self.old.labels giver taker }
        ensures given { OnOk result (Gives giver taker self.old self.new) }
        ensures refused { IfErr result (CloseRefused self.old.spec self.old.labels) }
    {
        if giver == taker {
            return Ok(());
        }
        if self.is_given(&edge_of(giver, Authority::Grant, taker)) {
            return Ok(());
        }
        if self.is_given(&edge_of(taker, Authority::Grant, giver)) {
            self.join(giver, taker)?;
            return Ok(());
        }
        self.hand(giver, taker)?;
        Ok(())
    }

    /// Gives all that a label has to another.
    fn hand(&mut self, giver: u32, taker: u32) -> Result<(), CloseError>
        requires sound { IsSound self.old }
        requires flows { Flows self.old.spec self.old.labels giver taker }
        ensures given { OnOk result (Gives giver taker self.old self.new) }
        ensures refused { IfErr result (CloseRefused self.old.spec self.old.labels) }
    {
        self.copy(giver, taker)?;
        self.put_gift(edge_of(giver, Authority::Grant, taker))?;
        Ok(())
    }

    fn put_gift(&mut self, gift: Edge) -> Made<()>
        ensures { OnOk result (PutsGift gift self.old self.new) }
    {
        self.gives.insert(gift)?;
        Ok(())
    }

    /// Makes two labels share one leader, where each has what the other has.
    pub fn join(&mut self, a: u32, b: u32) -> Result<(), CloseError>
        requires sound { IsSound self.old }
        requires there { Flows self.old.spec self.old.labels a b }
        requires back { Flows self.old.spec self.old.labels b a }
        ensures joined { OnOk result (Joins a b self.old self.new) }
        ensures refused { IfErr result (CloseRefused self.old.spec self.old.labels) }
    {
        self.join_led(self.leader(a), self.leader(b))?;
        Ok(())
    }

    /// Makes one of two leaders lead those of both: the one that leads more.
    fn join_led(&mut self, a: u32, b: u32) -> Result<(), CloseError>
        requires sound { IsSound self.old }
        requires there { Flows self.old.spec self.old.labels a b }
        requires back { Flows self.old.spec self.old.labels b a }
        requires first { leader_at self.old.leaders a ≡ a }
        requires second { leader_at self.old.leaders b ≡ b }
        ensures joined { OnOk result (Joins a b self.old self.new) }
        ensures refused { IfErr result (CloseRefused self.old.spec self.old.labels) }
    {
        if a == b {
            return Ok(());
        }
        if self.members(a) < self.members(b) {
            self.merge(b, a)?;
            return Ok(());
        }
        self.merge(a, b)?;
        Ok(())
    }

    /// How many labels the label leads, those alone that a place was made for.
    fn members(&self, leader: u32) -> usize {
        self.leaders.iter().filter(|led| **led == leader).count()
    }

    /// Makes a leader lead those of another.
    fn merge(&mut self, to: u32, from: u32) -> Result<(), CloseError>
        requires sound { IsSound self.old }
        requires there { Flows self.old.spec self.old.labels to from }
        requires back { Flows self.old.spec self.old.labels from to }
        requires first { leader_at self.old.leaders to ≡ to }
        requires second { leader_at self.old.leaders from ≡ from }
        ensures joined { OnOk result (Joins to from self.old self.new) }
        ensures refused { IfErr result (CloseRefused self.old.spec self.old.labels) }
    {
        self.copy(from, to)?;
        self.relabel(to, from)?;
        Ok(())
    }

    fn relabel(&mut self, to: u32, from: u32) -> Made<()>
        requires { length self.old.leaders ≤ 2 ^ 32 }
        ensures { OnOk result (Relabels to from self.old self.new) }
    {
        self.leaders = relabeled(self.alloc, self.leaders.as_slice(), from, to)?;
        Ok(())
    }

    /// Makes labels give.
    pub fn give_all(&mut self, gifts: &[Edge]) -> Result<(), CloseError>
        requires sound { IsSound self.old }
        requires gifts { (g : Edge) → has gifts.now g ≡ true → IsGift self.old g }
        ensures given { OnOk result (GivesAll gifts.now self.old self.new) }
        ensures refused { IfErr result (CloseRefused self.old.spec self.old.labels) }
    {
        for gift in gifts {
            self.give(gift.from, gift.to)?;
        }
        Ok(())
    }

    /// The edges of all labels, but for the replies that calls ask for.
    pub fn spread(&self) -> Result<Vec<Edge>, CloseError>
        requires { IsSound self.now }
        ensures spread { IfOk result (λ edges. IsSpread self.now edges.items) }
        ensures refused { IfErr result (CloseRefused self.now.spec self.now.labels) }
    {
        let mut edges = self.staying()?;
        for label in 0..self.places() {
            edges = self.with_copies(edges, self.leader(label as u32), label as u32)?;
            self.bound(edges.as_slice())?;
        }
        Ok(edges)
    }

    /// The replies that are known, and the edges of labels that have no place among the leaders.
    fn staying(&self) -> Made<Vec<Edge>>
        ensures { IfOk result (λ edges. edges.items ≡ filter_map (stays (length self.now.leaders)) self.now.queue) }
    {
        let edges = staying(self.alloc, self.leaders.len(), self.queue.as_slice())?;
        Ok(edges)
    }

    /// How many labels have a place among the leaders.
    fn places(&self) -> usize
        ensures { result ≡ length self.now.leaders }
    {
        self.leaders.len()
    }

    fn with_copies(&self, edges: Vec<Edge>, giver: u32, taker: u32) -> Made<Vec<Edge>>
        requires { IsSound self.now }
        ensures { IfOk result (λ new. AddsEdges (IsCopy self.now giver taker) edges.items new.items) }
    {
        let copies = self.copies(giver, taker)?;
        let edges = with_more(edges, copies.as_slice())?;
        Ok(edges)
    }

    /// Refuses edges of the least certificate, where these are too many.
    fn bound(&self, edges: &[Edge]) -> Result<(), CloseError>
        requires { (e : Edge) → has edges.now e ≡ true → OfLeast self.now e }
        ensures { IfErr result (CloseRefused self.now.spec self.now.labels) }
    {
        if edges.len() > LIMIT {
            let _table = self.table(edges)?;
        }
        Ok(())
    }

    /// The table of edges of the least certificate.
    pub fn table(&self, edges: &[Edge]) -> Result<EdgeTable, CloseError>
        requires { (e : Edge) → has edges.now e ≡ true → OfLeast self.now e }
        ensures same { IfOk result (λ table. (e : Edge) → has table e ≡ has edges.now e) }
        ensures few { IfOk result (λ table. length table ≤ 262144) }
        ensures refused { IfErr result (CloseRefused self.now.spec self.now.labels) }
    {
        let table = EdgeTable::from_list(self.alloc, edges)?;
        if table.len() > LIMIT {
            return Err(CloseError::Limit);
        }
        Ok(table)
    }
}
