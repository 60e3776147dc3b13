ghost use Rattle.std.specs.FinMap as map;
ghost use Rattle.std.specs.Prelude.{◌≡◌, OnOk, OnErr};

use crate::named_file::{NamedFile, found, put_file, read_file};
use crate::{Failed, Files, Got};
use cam_base::Made;
use std::alloc::Global;
use std::marker::Model;

/// Files in memory that never fail: their counts are the constant 0. Contracts see them as what they hold.
#[derive(Drop)]
pub struct FixedFiles {
    files: Vec<NamedFile>,
    alloc: Global,
}

impl Model for FixedFiles {
    ghost use Rattle.cam_io.specs.Contents.{Contents, contents_code};
    ghost use Rattle.cam_io.specs.NamedFiles.{contents_of};

    ghost Value = { Contents };

    ghost coded = { contents_code };

    ghost view = { λ f. contents_of f.files.items };
}

impl FixedFiles {
    /// No files. Takes no memory.
    #[tactic(auto, using(crate::proofs::Lookups::contents_empty))]
    pub fn new(alloc: Global) -> FixedFiles
        ensures { result ≡ map.empty }
    {
        FixedFiles {
            files: Vec::new(alloc),
            alloc,
        }
    }

    /// Gives a name these bytes in place of those that it has. Refused, it leaves the files as they were.
    pub fn add(&mut self, name: &str, bytes: &[u8]) -> Made<()>
        ensures ok { OnOk result (self.new ≡ map.insert self.old name.now bytes.now) }
        ensures err { OnErr result (self.new ≡ self.old) }
    {
        put_file(self.alloc, &mut self.files, 0, name.as_bytes(), bytes)
    }
}

impl Files for FixedFiles {
    ghost use Rattle.std.specs.FinMap.{get};
    ghost use Rattle.std.specs.Prelude.{◌≡◌, refl};

    ghost told = { λ s m. m ≡ s };

    ghost faults = { λ _ _. 0 };

    ghost lends = { get };

    fn seen(&self, name: &str) -> Option<&[u8]> {
        Some(found(&self.files, name.as_bytes())?.bytes.as_bytes())
    }

    fn read(&mut self, name: &str, at: u64, buf: &mut [u8]) -> Result<Got, Failed> {
        Ok(read_file(&self.files, name.as_bytes(), at, buf))
    }

    ghost some = { λ s. (s, refl) };
}
