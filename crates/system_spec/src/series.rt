ghost use Rattle.cam_base.specs.Names.{is_name};
ghost use Rattle.std.specs.Prelude.{◌≡◌, ◌≤◌, true, length, IfOk};
ghost use Rattle.system_spec.specs.Names.{level_series, name_of, prefix, root_series};

use cam_base::{Made, Name};
use cap_model::{Arch, Level};
use itoa::Buffer;
use std::alloc::Global;

/// A series of objects that are named alike, each by its number.
#[derive(Clone, Copy)]
pub enum Series {
    CNode,
    Tcb,
    Ep,
    Ntfn,
    Lock,
    Irq,
    Pgd,
    Pud,
    Pd,
    Pt,
    Frame,
}

impl Series {
    /// The series of a level of page tables. Takes no memory.
    pub fn of_level(level: Level) -> Series
        ensures { result ≡ level_series level }
    {
        match level {
            Level::Global => Series::Pgd,
            Level::Upper => Series::Pud,
            Level::Directory => Series::Pd,
            Level::Table => Series::Pt,
        }
    }

    /// The series of the roots of spaces. Takes no memory.
    pub fn of_root(arch: Arch) -> Series
        ensures { result ≡ root_series arch }
    {
        match arch {
            Arch::Arm11 => Series::Pd,
            Arch::Aarch64 => Series::Pgd,
        }
    }

    /// What the names of the series begin with. Takes no memory.
    pub fn prefix(self) -> &'static [u8]
        ensures is { result.now ≡ prefix self }
        ensures name { is_name result.now ≡ true }
        ensures short { length result.now ≤ 6 }
    {
        match self {
            Series::CNode => b"cnode_",
            Series::Tcb => b"tcb_",
            Series::Ep => b"ep_",
            Series::Ntfn => b"ntfn_",
            Series::Lock => b"lock_",
            Series::Irq => b"irq_",
            Series::Pgd => b"pgd_",
            Series::Pud => b"pud_",
            Series::Pd => b"pd_",
            Series::Pt => b"pt_",
            Series::Frame => b"frame_",
        }
    }

    /// The name of an object of the series: `specs/Names.antt`.
    #[tactic(auto, using(cam_base::proofs::Naming::naming))]
    pub fn name(self, alloc: Global, number: u64) -> Made<Name>
        ensures { IfOk result (λ name. name ≡ name_of self number) }
    {
        let mut digits = Buffer::new();
        Name::of_parts(alloc, self.prefix(), digits.format(number).as_bytes())
    }
}
