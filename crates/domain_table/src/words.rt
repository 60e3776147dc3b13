//! What lines of a map are of.

ghost use Rattle.domain_table.specs.Tables.{end_text, leaf_text, lock_text, thread_text};
ghost use Rattle.std.specs.Prelude.{◌≡◌, IfOk};
ghost use Rattle.cam_base.specs.Paths.{joined};
ghost use Rattle.system_spec.specs.MapText.{connection_path, named};

use crate::domain::NamedDomain;
use adl_meaning::Flat;
use cam_base::{List, Made, Text};
use cspace_layout::{EndAt, end_of};
use std::alloc::Global;
use system_spec::member_name;
use view_text::join;

/// The text of the path of a leaf.
pub fn leaf_text(alloc: Global, flat: &Flat, leaf: u32) -> Made<Text>
    ensures { IfOk result (λ text. text ≡ leaf_text flat.now leaf) }
{
    match flat.leaves.as_slice().get(leaf as usize) {
        Some(leaf) => leaf.path.text(alloc),
        None => Ok(Text::empty(alloc)),
    }
}

fn connection_text(alloc: Global, flat: &Flat, connection: u32) -> Made<Text>
    ensures { IfOk result (λ text. text ≡ joined (connection_path flat.now connection)) }
{
    match flat.connections.as_slice().get(connection as usize) {
        Some(connection) => connection.path.text(alloc),
        None => Ok(Text::empty(alloc)),
    }
}

impl<'a> NamedDomain<'a> {
    /// An end with its connection.
    pub fn end_text(&self, connection: u32, end: u32) -> Made<List<u8>>
        ensures { IfOk result (λ text. text ≡ end_text (named self.now.names) connection end) }
    {
        let names = &self.names;
        let Some((_, end)) = end_of(names.flat, connection, end) else {
            return Ok(List::new(self.alloc));
        };
        let leaf = leaf_text(self.alloc, names.flat, end.leaf)?;
        let connection = connection_text(self.alloc, names.flat, connection)?;
        let member = member_name(names, end.leaf, end.member);
        let parts = [leaf.as_bytes(), b".", member, b" ", connection.as_bytes()];
        join(self.alloc, &parts)
    }

    /// A lock of a leaf.
    pub fn lock_text(&self, leaf: u32, member: u32) -> Made<List<u8>>
        ensures { IfOk result (λ text. text ≡ lock_text (named self.now.names) leaf member) }
    {
        let path = leaf_text(self.alloc, self.names.flat, leaf)?;
        let member = member_name(&self.names, leaf, member);
        join(self.alloc, &[path.as_bytes(), b".", member])
    }

    /// The leaf of a control thread, or the end at which a thread serves.
    pub fn thread_text(&self, leaf: u32, end: Option<EndAt>) -> Made<List<u8>>
        ensures { IfOk result (λ text. text ≡ thread_text (named self.now.names) leaf end) }
    {
        let alloc = self.alloc;
        match end {
            None => List::from_slice(alloc, leaf_text(alloc, self.names.flat, leaf)?.as_bytes()),
            Some(end) => self.end_text(end.connection, end.end),
        }
    }
}
