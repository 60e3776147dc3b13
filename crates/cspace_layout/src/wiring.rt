//! What slots and spaces are laid out from.

ghost use Rattle.cspace_layout.specs.LeafEnds.{ends_at};
ghost use Rattle.cspace_layout.specs.Lookups.{end_of, setting_of};
ghost use Rattle.cspace_layout.specs.Members.{leaf_members};
ghost use Rattle.cspace_layout.specs.System.{all_ends, wired};
ghost use Rattle.cspace_layout.specs.Within.{IsWithin};
ghost use Rattle.std.specs.Prelude.{◌≡◌, ◌<◌, ◌^◌, length, IfOk};

use crate::order::leaf_ends;
use crate::{EndAt, end_of, members_at, setting_of};
use adl_ast::{Member, Source};
use adl_meaning::{Connector, Domain, EndSetting, Flat, FlatConnection, FlatEnd, Settled};
use cam_base::{List, Made};
use std::alloc::Global;
use std::marker::Model;

/// A source, its flat system, the settings of that, and the ends of each leaf in order. Contracts see it as the first three.
#[derive(Drop)]
pub struct Wiring<'a> {
    source: &'a Source,
    flat: &'a Flat,
    settled: &'a Settled,
    ends: List<List<EndAt>>,
}

impl<'a> Model for Wiring<'a> {
    ghost use Rattle.cspace_layout.specs.System.{System};

    ghost Value = { System };

    ghost use Rattle.adl_ast.specs.contracts.value.ValueKind as values;
    ghost use Rattle.std.specs.Coded.{codes};

    ghost coded = { Prim.hlevel (codes, values.the_row.coded) };

    ghost use Rattle.cspace_layout.specs.System.{IsWired, wired};

    ghost view = { λ w. wired w.source.now w.flat.now w.settled.now };

    ghost invariant = { λ w. IsWired w.source.now w.flat.now w.ends };
}

impl<'a> Wiring<'a> {
    /// That of a source with its flat system and the settings of that.
    ///
    /// # Errors
    ///
    /// Want of memory.
    pub fn new(
        alloc: Global,
        source: &'a Source,
        flat: &'a Flat,
        settled: &'a Settled,
    ) -> Made<Wiring<'a>>
        requires { IsWithin source.now flat.now }
        ensures { IfOk result (λ w. w ≡ wired source.now flat.now settled.now) }
    {
        let ends = leaf_ends(alloc, source, flat)?;
        Ok(Wiring {
            source,
            flat,
            settled,
            ends,
        })
    }

    /// The source.
    pub fn source(&self) -> &'a Source
        ensures source { result.now ≡ self.now.source }
        ensures within { IsWithin self.now.source self.now.flat }
    {
        let _ = &self.ends;
        self.source
    }

    /// The domains of the flat system.
    pub fn domains(&self) -> &'a [Domain]
        ensures { result.now ≡ self.now.flat.domains }
    {
        self.flat.domains.as_slice()
    }

    /// The connections of the flat system.
    pub fn connections(&self) -> &'a [FlatConnection]
        ensures { result.now ≡ self.now.flat.connections }
    {
        self.flat.connections.as_slice()
    }

    /// The settings of the flat system.
    pub fn settled(&self) -> &'a Settled
        ensures { result.now ≡ self.now.settled }
    {
        self.settled
    }

    /// The members of a leaf, none where no leaf has the number.
    pub fn members(&self, leaf: u32) -> &'a [Member]
        ensures members { result.now ≡ leaf_members self.now.source self.now.flat leaf }
        ensures few { length result.now < 2 ^ 32 }
    {
        match self.flat.leaves.as_slice().get(leaf as usize) {
            Some(leaf) => members_at(self.source, leaf.component),
            None => &[],
        }
    }

    /// The ends of a leaf, in order: by the interface that they join, and then by connection and end.
    pub fn ends(&self, leaf: u32) -> &[EndAt]
        ensures { result.now ≡ ends_at (all_ends self.now) leaf }
    {
        match self.ends.as_slice().get(leaf as usize) {
            Some(here) => here.as_slice(),
            None => &[],
        }
    }

    /// An end, with its connector.
    pub fn end(&self, at: EndAt) -> Option<(Connector, FlatEnd)>
        ensures { result ≡ end_of self.now.flat at.connection at.end }
    {
        end_of(self.flat, at.connection, at.end)
    }

    /// The settings of an end.
    pub fn setting(&self, at: EndAt) -> Option<EndSetting>
        ensures { result ≡ setting_of self.now.settled at.connection at.end }
    {
        setting_of(self.settled, at.connection, at.end)
    }
}
