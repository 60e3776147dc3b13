use crate::{ByteCount, File};
use cam_base::{List, Text};

/// A file of a source: its folded name, its bytes and its tree.
#[derive(Drop)]
pub struct SourceFile {
    pub name: Text,
    pub bytes: ByteCount,
    pub tree: File,
}

/// The files of a source, the root first.
#[derive(Drop)]
pub struct Source {
    pub files: List<SourceFile>,
}
