//! The lines.

ghost use Rattle.explain.specs.Lines.{end_line, file_name, leaf_path, line_of_end, line_of_lock, lock_line, member_path, place_text, rule_line, role_word, word_of, id_of};
ghost use Rattle.std.specs.Option.{option_map, option_map_or};
ghost use Rattle.std.specs.Prelude.{◌≡◌, [], IfOk};

use crate::together;
use adl_ast::{Id, Member, Role, Source};
use adl_meaning::{Flat, FlatConnection, FlatEnd};
use cam_base::{Made, Place, Text};
use cspace_layout::{end_of, members_at};
use itoa::Buffer;
use std::alloc::Global;

fn role_word(role: Role) -> &'static [u8]
    ensures { result.now ≡ role_word role }
{
    match role {
        Role::From => b"from",
        Role::To => b"to",
    }
}

fn id_of(member: &Member) -> Option<&Id>
    ensures { option_map (λ i. i.now) result ≡ id_of member.now }
{
    match member {
        Member::Interface(interface) => Some(&interface.id),
        Member::Lock(lock) => Some(&lock.id),
        _ => None,
    }
}

/// What numbers are looked up in: the source, and its instances and connections.
#[derive(Clone, Copy)]
pub struct Teller<'a> {
    pub source: &'a Source,
    pub flat: &'a Flat,
}

impl<'a> Teller<'a> {
    /// The line of the connector's rule by which an end is given an authority, empty where there is no such end.
    pub fn rule_line(self, alloc: Global, end: (u32, u32)) -> Made<Text>
        ensures { IfOk result (λ line. line ≡ rule_line self.entry.flat.now end) }
    {
        match end_of(self.flat, end.0, end.1) {
            Some((connector, end)) => {
                let word = connector.text().as_bytes();
                together(alloc, &[b"rule ", word, b" ", role_word(end.role), b"\n"])
            }
            None => Ok(Text::empty(alloc)),
        }
    }

    fn file_name(self, number: u32) -> &'a [u8]
        ensures { result.now ≡ file_name self.entry.source.now number }
    {
        match self.source.files.as_slice().get(number as usize) {
            Some(file) => file.name.as_bytes(),
            None => b"",
        }
    }

    fn place_text(self, alloc: Global, place: Place) -> Made<Text>
        ensures { IfOk result (λ text. text ≡ place_text self.entry.source.now place) }
    {
        let (mut front, mut back) = (Buffer::new(), Buffer::new());
        let first = front.format(place.first).as_bytes();
        let end = back.format(place.end).as_bytes();
        let file = self.file_name(place.file);
        together(alloc, &[file, b":", first, b"-", end])
    }

    fn leaf_path(self, alloc: Global, leaf: u32) -> Made<Text>
        ensures { IfOk result (λ text. text ≡ leaf_path self.entry.flat.now leaf) }
    {
        match self.flat.leaves.as_slice().get(leaf as usize) {
            Some(leaf) => leaf.path.text(alloc),
            None => Ok(Text::empty(alloc)),
        }
    }

    fn word_of(self, leaf: u32, member: u32) -> Option<&'a Id>
        ensures { option_map (λ i. i.now) result ≡ word_of self.entry.source.now self.entry.flat.now leaf member }
    {
        let leaf = self.flat.leaves.as_slice().get(leaf as usize)?;
        let member = members_at(self.source, leaf.component).get(member as usize)?;
        id_of(member)
    }

    fn member_name(self, leaf: u32, member: u32) -> &'a [u8]
        ensures { result.now ≡ option_map_or (λ i. i.name) (word_of self.entry.source.now self.entry.flat.now leaf member) [] }
    {
        match self.word_of(leaf, member) {
            Some(word) => word.name.as_bytes(),
            None => b"",
        }
    }

    fn member_path(self, alloc: Global, leaf: u32, member: u32) -> Made<Text>
        ensures { IfOk result (λ text. text ≡ member_path self.entry.source.now self.entry.flat.now leaf member) }
    {
        let path = self.leaf_path(alloc, leaf)?;
        let name = self.member_name(leaf, member);
        together(alloc, &[path.as_bytes(), b".", name])
    }

    fn line_of_end(self, alloc: Global, connection: &FlatConnection, end: FlatEnd) -> Made<Text>
        ensures { IfOk result (λ line. line ≡ line_of_end self.entry.source.now self.entry.flat.now connection.now end) }
    {
        let member = self.member_path(alloc, end.leaf, end.member)?;
        let path = connection.path.text(alloc)?;
        let place = self.place_text(alloc, end.place)?;
        together(
            alloc,
            &[
                b"end ",
                member.as_bytes(),
                b" ",
                path.as_bytes(),
                b" ",
                place.as_bytes(),
                b"\n",
            ],
        )
    }

    /// The line of an end by the numbers of its connection and of itself, empty where there is no such end.
    pub fn end_line(self, alloc: Global, end: (u32, u32)) -> Made<Text>
        ensures { IfOk result (λ line. line ≡ end_line self.entry.source.now self.entry.flat.now end) }
    {
        let Some(connection) = self.flat.connections.as_slice().get(end.0 as usize) else {
            return Ok(Text::empty(alloc));
        };
        match connection.ends.as_slice().get(end.1 as usize) {
            Some(end) => self.line_of_end(alloc, connection, *end),
            None => Ok(Text::empty(alloc)),
        }
    }

    fn line_of_lock(self, alloc: Global, lock: (u32, u32), place: Place) -> Made<Text>
        ensures { IfOk result (λ line. line ≡ line_of_lock self.entry.source.now self.entry.flat.now lock place) }
    {
        let member = self.member_path(alloc, lock.0, lock.1)?;
        let place = self.place_text(alloc, place)?;
        together(
            alloc,
            &[b"lock ", member.as_bytes(), b" ", place.as_bytes(), b"\n"],
        )
    }

    /// The line of a lock by the numbers of its leaf and of the member, empty where there is no such member.
    pub fn lock_line(self, alloc: Global, lock: (u32, u32)) -> Made<Text>
        ensures { IfOk result (λ line. line ≡ lock_line self.entry.source.now self.entry.flat.now lock) }
    {
        match self.word_of(lock.0, lock.1) {
            Some(word) => self.line_of_lock(alloc, lock, word.place()),
            None => Ok(Text::empty(alloc)),
        }
    }
}
