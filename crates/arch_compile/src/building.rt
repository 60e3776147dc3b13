//! All phases.

ghost use Rattle.arch_compile.specs.Compiled.{AlikeInBuild, IsCompiled};
ghost use Rattle.arch_compile.specs.LayoutFaults.{tables_beside};
ghost use Rattle.arch_compile.specs.OfSource.{IsOfSource};
ghost use Rattle.arch_compile.specs.Sound.{IsSound};
ghost use Rattle.arch_compile.specs.Steps.{Builds, Completes, Finishes, IsImaged, IsLaid, Lays};
ghost use Rattle.arch_policy.specs.Labels.{label_numbers};
ghost use Rattle.cam_io.specs.Reading.{InAll, KeepsFiles, LearnsOnly};
ghost use Rattle.front_end.specs.Fronts.{IsAssigned};
ghost use Rattle.front_end.specs.Steps.{HasMeaning};
ghost use Rattle.source_images.specs.Found.{AlikeInTables};
ghost use Rattle.std.specs.Prelude.{◌≡◌, IfOk};

use crate::imaging::root_of;
use crate::labelled::with_objects;
use crate::laying::{Layout, lay_out};
use crate::making::{Products, made_of};
use cam_base::{List, SourceError};
use cam_io::Files;
use cap_model::{EdgeTable, Policy, Spec};
use front_end::{FrontEnd, Meaning, in_file, meaning_of, with_policy};
use source_images::{Images, read_images};
use std::alloc::Global;
use system_spec::{MapLine, System, Tables};

/// What is compiled: the source with what it means, its spec, its policy with the labels of objects, its certificate, and its
/// map.
#[derive(Drop)]
pub struct Build {
    pub meaning: Meaning,
    pub spec: Spec,
    pub policy: Policy,
    pub cert: EdgeTable,
    pub map: List<MapLine>,
}

/// What is compiled, or the first fault of all phases.
type Compiled = Result<Build, SourceError>;

/// The source of the root, with all that is made of it and of the section tables beside it.
///
/// What is made has the slots, images, labels and map of its source (`specs/OfSource.antt`). Its spec keeps what every spec
/// keeps, its policy has just the edges that the source assigns, and threads reach just these (`specs/Sound.antt`).
///
/// # Errors
///
/// The first fault of all phases, with the name of its file; a failed read, only where the count of the name that it gives
/// rose; want of memory.
pub fn compile<F: Files>(alloc: Global, files: &mut F, root: &str) -> Result<Build, SourceError>
    ensures kept { KeepsFiles F.told F.faults files.old files.new }
    ensures learned { LearnsOnly F.told (AlikeInBuild root.now) files.old files.new }
    ensures compiled { InAll (F.told files.new) (λ m. IsCompiled root.now m (F.faults files.old) (F.faults files.new) result) }
    ensures of_source { InAll (F.told files.new) (λ m. IfOk result (IsOfSource m)) }
    ensures sound { IfOk result IsSound }
{
    match meaning_of(alloc, files, root) {
        Ok(meaning) => with_images(alloc, files, meaning),
        Err(error) => Err(error),
    }
}

fn with_images<F: Files>(alloc: Global, files: &mut F, meaning: Meaning) -> Compiled
    requires { HasMeaning meaning.source meaning.flat meaning.settled }
    ensures kept { KeepsFiles F.told F.faults files.old files.new }
    ensures learned { LearnsOnly F.told (AlikeInTables (tables_beside meaning.source)) files.old files.new }
    ensures builds { InAll (F.told files.new) (λ m. Builds meaning m (F.faults files.old) (F.faults files.new) result) }
{
    let root = root_of(&meaning.source);
    match read_images(alloc, files, root, &meaning.source, &meaning.flat) {
        Ok(images) => with_layout(alloc, meaning, &images),
        Err(error) => Err(error),
    }
}

fn with_layout(alloc: Global, meaning: Meaning, images: &Images) -> Compiled
    requires sound { HasMeaning meaning.source meaning.flat meaning.settled }
    requires imaged { IsImaged meaning.flat images.now }
    ensures { Lays meaning images.now result }
{
    match lay_out(alloc, &meaning, images) {
        Ok(layout) => with_front(alloc, meaning, images, layout),
        Err(refused) => Err(in_file(alloc, &meaning.source, refused)),
    }
}

fn with_front(alloc: Global, meaning: Meaning, images: &Images, layout: Layout) -> Compiled
    requires sound { HasMeaning meaning.source meaning.flat meaning.settled }
    requires laid { IsLaid meaning.source meaning.flat meaning.settled images.now layout }
    ensures { Completes meaning images.now result }
{
    match with_policy(alloc, meaning) {
        Ok(front) => with_made(alloc, front, images, layout),
        Err(error) => Err(error),
    }
}

fn with_made(alloc: Global, front: FrontEnd, images: &Images, layout: Layout) -> Compiled
    requires sound { HasMeaning front.source front.flat front.settled }
    requires assigned { IsAssigned front.source front.policy }
    requires numbered { front.numbers ≡ label_numbers front.flat }
    requires laid { IsLaid front.source front.flat front.settled images.now layout }
    ensures { Finishes front images.now result }
{
    let FrontEnd {
        source,
        flat,
        settled,
        policy,
        numbers,
    } = front;
    let tables = Tables {
        source: &source,
        flat: &flat,
        settled: &settled,
        images,
        slots: &layout.slots,
        spaces: &layout.spaces,
        numbers: &numbers,
    };
    let Products { system, cert, map } = made_of(alloc, &tables, &policy.edges)?;
    drop(layout);
    let System { spec, labels } = system;
    let policy = with_objects(alloc, policy, &spec, &labels)?;
    Ok(Build {
        meaning: Meaning {
            source,
            flat,
            settled,
        },
        spec,
        policy,
        cert,
        map,
    })
}
