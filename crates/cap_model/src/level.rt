ghost use Rattle.cap_model.specs.Levels.{size, child, is_root_level};
ghost use Rattle.std.specs.Prelude.{◌≡◌};

use crate::Kind;

/// The architecture of a spec.
#[derive(Clone, Copy)]
pub enum Arch {
    Arm11,
    Aarch64,
}

/// The levels of page tables, from the outermost inwards: `pgd`, `pud`, `pd` and `pt`. Arm11 has the last two.
#[derive(Clone, Copy, Debug)]
pub enum Level {
    Global,
    Upper,
    Directory,
    Table,
}

impl Arch {
    /// The number of slots of a page table of this level, `None` where the architecture doesn't have the level.
    pub fn size(self, level: Level) -> Option<u64>
        ensures { result ≡ size self level }
    {
        match (self, level) {
            (Arch::Arm11, Level::Directory) => Some(4096),
            (Arch::Arm11, Level::Table) => Some(256),
            (Arch::Arm11, _) => None,
            (Arch::Aarch64, _) => Some(512),
        }
    }

    /// Whether a page table of this level is a space root: a `pd` on arm11, a `pgd` on AArch64.
    pub fn is_root(self, level: Level) -> bool
        ensures { result ≡ is_root_level self level }
    {
        matches!(
            (self, level),
            (Arch::Arm11, Level::Directory) | (Arch::Aarch64, Level::Global)
        )
    }
}

impl Level {
    /// The kind of object that the slots of this level hold.
    pub fn child(self) -> Kind
        ensures { result ≡ child self }
    {
        match self {
            Level::Global => Kind::Pages(Level::Upper),
            Level::Upper => Kind::Pages(Level::Directory),
            Level::Directory => Kind::Pages(Level::Table),
            Level::Table => Kind::Frame,
        }
    }
}
