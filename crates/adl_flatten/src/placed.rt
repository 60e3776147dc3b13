//! The leaves and the connections of a body.

use adl_ast::{Connection, End, Instance};
use adl_meaning::Connector;
use cam_base::{List, Name};
use std::marker::Model;

/// A leaf of a body, and the path of the outermost group above it.
#[derive(Drop)]
pub struct PlacedLeaf<'a> {
    pub path: List<Name>,
    pub instance: &'a Instance,
    /// The group that the instance stands in.
    pub group: Option<&'a Name>,
    /// The number of its component.
    pub kind: u32,
    pub home: Option<List<Name>>,
}

impl<'a> Model for PlacedLeaf<'a> {
    ghost use Rattle.adl_flatten.specs.Templates.{Homed};
    ghost use Rattle.adl_meaning.specs.Prelude.{option_copied};

    ghost Value = { Homed };

    ghost view = { λ l. record {
      leaf = record {
        path = l.path;
        part = record { instance = l.instance.now; group = option_copied l.group; kind = l.kind };
      };
      home = l.home;
    } };
}

/// An end, with the interface of a leaf that it joins, and whether one end alone may join it.
#[derive(Drop)]
pub struct PlacedEnd<'a> {
    pub end: &'a End,
    /// The number of the leaf.
    pub leaf: u32,
    /// The place of the interface among its members.
    pub member: u32,
    pub once: bool,
}

impl<'a> Model for PlacedEnd<'a> {
    ghost use Rattle.adl_flatten.specs.Templates.{Joined};

    ghost Value = { Joined };

    ghost view = { λ e. record { end = e.end.now; leaf = e.leaf; member = e.member; once = e.once } };
}

/// A connection with the path of its composition and those of its ends that join something.
#[derive(Drop)]
pub struct PlacedConnection<'a> {
    pub path: List<Name>,
    pub connector: Connector,
    pub connection: &'a Connection,
    pub ends: Vec<PlacedEnd<'a>>,
}

impl<'a> Model for PlacedConnection<'a> {
    ghost use Rattle.adl_flatten.specs.Templates.{Connected};

    ghost Value = { Connected };

    ghost view = { λ c. record { path = c.path; wire = (c.connector, c.connection.now); ends = c.ends.items } };
}
