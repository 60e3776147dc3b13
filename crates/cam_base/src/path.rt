ghost use Rattle.cam_base.specs.Paths.{joined};
ghost use Rattle.std.specs.List.{flat_map};
ghost use Rattle.std.specs.Prelude.{◌≡◌, [], ◌∷◌, ◌++◌, IfOk, OnOk, OnErr};

use crate::{List, Made, Name, Text};
use smallvec::SmallVec;
use std::alloc::Global;
use std::marker::Model;

/// Names, from the outermost inwards; up to four take no memory of their own. Contracts see it as the list of its names.
#[derive(Drop)]
pub struct Path {
    names: SmallVec<Name, 4>,
}

impl Model for Path {
    ghost use Rattle.std.specs.Prelude.{List, ℕ};

    ghost Value = { List (List ℕ) };

    ghost view = { λ p. p.names.items };
}

impl Path {
    /// The path without names. Takes no memory.
    pub fn empty(alloc: Global) -> Path
        ensures { result ≡ [] }
    {
        Path {
            names: SmallVec::new(alloc),
        }
    }

    /// Puts a name at the end. Refused, it leaves the path as it was.
    pub fn push(&mut self, name: Name) -> Made<()>
        ensures ok { OnOk result (self.new ≡ self.old ++ name ∷ []) }
        ensures err { OnErr result (self.new ≡ self.old) }
    {
        self.names.push(name)?;
        Ok(())
    }

    /// The names in order. Takes no memory.
    pub fn names(&self) -> &[Name]
        ensures { result.now ≡ self.now }
    {
        self.names.as_slice()
    }

    /// The names, joined by dots. Room for all of them is taken at once.
    pub fn text(&self, alloc: Global) -> Made<Text>
        ensures { IfOk result (λ text. text ≡ joined self.now) }
    {
        join_names(alloc, self.names())
    }

    /// The path of some names and more behind them. Room for all of them is taken at once.
    pub fn of(alloc: Global, names: &[Name], more: &[Name]) -> Made<Path>
        ensures { IfOk result (λ path. path ≡ names.now ++ more.now) }
    {
        let count = names.len().saturating_add(more.len());
        let mut all = SmallVec::with_capacity(alloc, count)?;
        for name in names {
            all.push_reserved(name.copy(alloc)?);
        }
        for behind in more {
            all.push_reserved(behind.copy(alloc)?);
        }
        Ok(Path { names: all })
    }

    /// An equal path.
    pub fn copy(&self, alloc: Global) -> Made<Path>
        ensures { IfOk result (λ path. path ≡ self.now) }
    {
        Path::of(alloc, self.names(), &[])
    }
}

fn join_names(alloc: Global, names: &[Name]) -> Made<Text>
    ensures { IfOk result (λ text. text ≡ joined names.now) }
{
    let mut room: usize = 0;
    for name in names {
        room = room.saturating_add(name.as_bytes().len() + 1);
    }
    let mut bytes = List::from_vec(Vec::with_capacity(alloc, room)?);
    if let [first, rest @ ..] = names {
        bytes.extend(first.as_bytes())?;
        push_dotted(rest, &mut bytes)?;
    }
    Ok(Text::from_vec(bytes.into_vec()))
}

fn push_dotted(names: &[Name], bytes: &mut List<u8>) -> Made<()>
    ensures { OnOk result (bytes.new ≡ bytes.old ++ flat_map (λ m. 46 ∷ m) names.now) }
{
    for name in names {
        bytes.push(b'.')?;
        bytes.extend(name.as_bytes())?;
    }
    Ok(())
}
