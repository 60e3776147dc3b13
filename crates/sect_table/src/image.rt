use cam_base::{List, Name};
use cap_model::Arch;

/// A section of a program: whole pages of its address space.
#[derive(Drop)]
pub struct Section {
    pub name: Name,
    /// The address of its first byte, a multiple of 4,096.
    pub vaddr: u64,
    /// Its bytes, at least one.
    pub size: u64,
    /// Whether the program may write it.
    pub write: bool,
    /// Where it begins in the program's file. Without it the section is zeros.
    pub at: Option<u64>,
}

/// What the first line of a table says.
#[derive(Clone, Copy)]
pub struct Header {
    pub arch: Arch,
    /// The address of the first instruction.
    pub entry: u64,
}

/// The image of a component's program.
#[derive(Drop)]
pub struct Image {
    /// The component's name.
    pub name: Name,
    pub arch: Arch,
    /// The address of the first instruction.
    pub entry: u64,
    pub sections: List<Section>,
}
