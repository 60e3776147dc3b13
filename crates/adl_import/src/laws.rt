//! What the definitions promise together, as functions that do nothing.

ghost use Rattle.adl_ast.specs.declared.source.Source.{Source as Files};
ghost use Rattle.adl_ast.specs.declared.source.SourceFile.{SourceFile as OneFile};
ghost use Rattle.adl_import.specs.Loaded.{IsClean, IsLoaded};
ghost use Rattle.adl_import.specs.Sources.{AreFilesOf, IsSource, files_limit};
ghost use Rattle.cam_base.specs.Unread.{SourceError as Refusal, yields};
ghost use Rattle.cam_io.specs.Contents.{Contents};
ghost use Rattle.std.specs.Prelude.{◌≡◌, ◌<◌, ◌≤◌, ℕ, false, length, List as Seq, Result};

/// In given contents a root has one source at most: one list of files meets the equation.
pub fn sources_are_one()
    ensures { (m : Contents) (root : Seq ℕ) (xs ys : Seq OneFile) → IsSource root xs → AreFilesOf m xs
        → IsSource root ys → AreFilesOf m ys → xs ≡ ys }
{}

/// In given contents there is one answer, aside from failed reads and want of memory: the source, or its first fault.
pub fn answers_are_one()
    ensures { (m : Contents) (root : Seq ℕ) (a b : Result Files Refusal) → yields a ≡ false → yields b ≡ false
        → IsLoaded m root a → IsLoaded m root b → a ≡ b }
{}

/// A source that is loaded has from 1 to 64 files, none longer than the limit, whose trees spell the tokens of their
/// bytes under their numbers; the bytes are those of the contents.
pub fn loaded_sources_are_whole()
    ensures some { (m : Contents) (root : Seq ℕ) (files : Seq OneFile) → IsClean m root files
        → 0 < length files }
    ensures few { (m : Contents) (root : Seq ℕ) (files : Seq OneFile) → IsClean m root files
        → length files ≤ files_limit }
    ensures each { (m : Contents) (root : Seq ℕ) (files : Seq OneFile) → IsClean m root files
        → AreFilesOf m files }
{}
