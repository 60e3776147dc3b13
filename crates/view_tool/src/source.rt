//! Pictures of what a source assigns.

ghost use Rattle.cam_io.specs.Reading.{InAll, KeepsFiles};
ghost use Rattle.front_end.specs.Steps.{HasMeaning};
ghost use Rattle.std.specs.Prelude.{◌≡◌, IfOk};
ghost use Rattle.view_text.specs.Pictures.{picture_of};
ghost use Rattle.view_tool.specs.Answers.{DrawsFront, Explains, FitsFront, overview_of};
ghost use Rattle.view_tool.specs.Shapes.{shapes_of};

use crate::answer::Answer;
use crate::lines::refuse_source;
use crate::reasons::{Grounds, notes_of};
use crate::shapes::{overview, shapes_of};
use cam_base::{List, Made, NoMemory};
use cam_io::Files;
use front_end::{FrontEnd, front};
use std::alloc::Global;
use view_text::{graph_of, picture_of};

/// Which picture is asked for.
#[derive(Clone, Copy)]
pub(crate) enum Drawing {
    /// Each edge with its reason.
    Reasons,
    /// All labels.
    Picture,
    /// The labels that two domains touch.
    Overview,
}

fn draw_reasons(alloc: Global, front: &FrontEnd) -> Answer
    requires { HasMeaning front.now.source front.now.flat front.now.settled }
    ensures { Explains front.now result }
{
    let grounds = Grounds {
        source: &front.source,
        flat: &front.flat,
        settled: &front.settled,
        policy: &front.policy,
    };
    match notes_of(alloc, &grounds) {
        Ok(notes) => Answer::shown(graph_of(alloc, &front.policy, notes.as_slice())),
        Err(NoMemory) => Answer::NoMemory,
    }
}

fn picture(alloc: Global, front: &FrontEnd) -> Made<List<u8>>
    ensures { IfOk result (λ text. text ≡ picture_of front.now.policy (shapes_of front.now.flat front.now.policy.labels)) }
{
    let shapes = shapes_of(alloc, &front.flat, front.policy.labels.as_slice())?;
    picture_of(alloc, &front.policy, shapes.as_slice())
}

fn overview_of(alloc: Global, front: &FrontEnd) -> Made<List<u8>>
    ensures { IfOk result (λ text. text ≡ overview_of front.now) }
{
    let shapes = shapes_of(alloc, &front.flat, front.policy.labels.as_slice())?;
    let kept = overview(alloc, shapes.as_slice(), &front.policy.edges)?;
    picture_of(alloc, &front.policy, kept.as_slice())
}

/// What a source assigns, drawn.
fn draw(alloc: Global, front: &FrontEnd, drawing: Drawing) -> Answer
    requires { HasMeaning front.now.source front.now.flat front.now.settled }
    ensures { DrawsFront drawing front.now result }
{
    match drawing {
        Drawing::Reasons => draw_reasons(alloc, front),
        Drawing::Picture => Answer::shown(picture(alloc, front)),
        Drawing::Overview => Answer::shown(overview_of(alloc, front)),
    }
}

/// What is answered to the root of a source of which a picture is asked for.
pub fn view_front<F: Files>(alloc: Global, root: &str, drawing: Drawing, files: &mut F) -> Answer
    ensures kept { KeepsFiles F.told F.faults files.old files.new }
    ensures fits { InAll (F.told files.new) (λ m. FitsFront m (F.faults files.old) (F.faults files.new) root.now drawing result) }
{
    match front(alloc, files, root) {
        Ok(front) => draw(alloc, &front, drawing),
        Err(error) => refuse_source(alloc, error),
    }
}
