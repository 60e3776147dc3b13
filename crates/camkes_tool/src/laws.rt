//! What follows from when answers come and how they are told.

ghost use Rattle.arch_compile.specs.declared.building.Build.{Build};
ghost use Rattle.arch_compile.specs.BuildTexts.{texts_script};
ghost use Rattle.arch_compile.specs.declared.names.TextNames.{TextNames};
ghost use Rattle.cam_io.specs.Causes.{Rose};
ghost use Rattle.cam_io.specs.Contents.{Contents};
ghost use Rattle.cam_io.specs.Scripts.{CutShort, after};
ghost use Rattle.cam_io.specs.Sinks.{IsCut, Sink, appended};
ghost use Rattle.camkes_tool.specs.Answers.{AreOne, Fits, MayChoose, Tells, is_chosen, said_as, yields};
ghost use Rattle.camkes_tool.specs.Channels.{IsAsBefore};
ghost use Rattle.camkes_tool.specs.Statuses.{HasFault, HasNoFault, IsStatus, NoneRose};
ghost use Rattle.camkes_tool.specs.declared.answer.Answer.{Answer};
ghost use Rattle.camkes_tool.specs.declared.answer.Answer.TheVariants.{Compiled};
ghost use Rattle.command_words.specs.declared.command.Command.{Command};
ghost use Rattle.std.specs.Prelude.{◌≡◌, ◌≢◌, ◌<◌, ◌≤◌, ◌⊎◌, ℕ, false, true, List, None, Option, Some};

/// For the same command and contents there is one answer, and one of words that are no command, aside from failed
/// reads and want of memory: two calls that end with a status up to 3 end with the same status, and leave outputs that were the
/// same the same. A report of an audit may have other steps, and a plan other places; no other command may choose.
pub fn answers_are_one()
    ensures answers { (m : Contents) (asked : Option Command) (old new later last : List ℕ → ℕ) (a b : Answer)
        → yields a ≡ false → yields b ≡ false
        → Fits asked m old new a → Fits asked m later last b → AreOne a b }
    ensures calls { (m : Contents) (asked : Option Command) (old new later last : List ℕ → ℕ) (a b : Answer)
        (first second : ℕ) (sink left right : Sink) (before now before' now' : ℕ)
        → Fits asked m old new a → Tells a first sink left before now → first ≤ 3
        → Fits asked m later last b → Tells b second sink right before' now' → second ≤ 3
        → (first ≡ second) × (is_chosen a ≡ false → left ≡ right) }
    ensures choices { (m : Contents) (asked : Option Command) (old new : List ℕ → ℕ) (a : Answer)
        → Fits asked m old new a → is_chosen a ≡ true → MayChoose asked }
{}

/// Where contents are told and neither a read nor an output failed, the status is 2 for words that are no command, 0 for a
/// source in which no fault stands (3 where it doesn't assign what `explain` asks), and 1 for one in which a fault stands; of
/// commands over texts it is 1 where a fault of an input is told, and else 0 or 3 by what is found; or it is 6. No source is of
/// both kinds. Of every command no two of these reasons stand together, and the status is 2 for no other words.
pub fn statuses_are_exact()
    ensures exact { (m : Contents) (asked : Option Command) (old new : List ℕ → ℕ) (answer : Answer)
        (status : ℕ) (sink left : Sink) (before now : ℕ)
        → Fits asked m old new answer → Tells answer status sink left before now
        → NoneRose old new → ¬ Rose before now → IsStatus m old new asked status }
    ensures one { (m : Contents) (asked : Option Command) (old new later last : List ℕ → ℕ) (first second : ℕ)
        → IsStatus m old new asked first → IsStatus m later last asked second
        → (first ≡ second) ⊎ ((first ≡ 6) ⊎ (second ≡ 6)) }
    ensures apart { (m : Contents) (root : List ℕ) → HasNoFault m root → ¬ HasFault m root }
    ensures usage { (m : Contents) (asked : Option Command) (old new : List ℕ → ℕ) (answer : Answer)
        (sink left : Sink) (before now : ℕ)
        → Fits asked m old new answer → Tells answer 2 sink left before now → asked ≡ None }
{}

/// With status 3 nothing but standard output is touched, and with a status other than 0, 3 and 5 nothing but standard error.
pub fn refusals_touch_one_channel_alone()
    ensures error { (answer : Answer) (status : ℕ) (old new : Sink) (before now : ℕ) → Tells answer status old new before now
        → status ≢ 0 → status ≢ 3 → status ≢ 5 → (channel : ℕ) → channel ≢ 1 → IsAsBefore channel old new }
    ensures output { (answer : Answer) (old new : Sink) (before now : ℕ) → Tells answer 3 old new before now
        → (channel : ℕ) → channel ≢ 0 → IsAsBefore channel old new }
{}

/// With status 0 the channels of the four texts of a build are begun under its names, the whole texts stand on them and the
/// summary on standard output, and nothing else is touched; or the whole text of what a command found stands on standard output,
/// and nothing else is touched.
pub fn success_writes_a_whole_text()
    ensures { (answer : Answer) (old new : Sink) (before now : ℕ) → Tells answer 0 old new before now
        → ((names : TextNames) × (b : Build) × (answer ≡ Compiled names b) × (new ≡ after old (texts_script names b)))
        ⊎ ((text : List ℕ) × (said_as answer ≡ Some text) × (new ≡ appended old 0 text)) }
{}

/// With status 5 the outputs' count rose, and nothing but standard output, standard error and the channels 2 to 5 is touched.
/// Where a build was to be written, its texts were cut short. Where there was something to say on standard output, a front of it
/// stands there.
pub fn failures_have_a_cause()
    ensures cause { (answer : Answer) (old new : Sink) (before now : ℕ) → Tells answer 5 old new before now
        → Rose before now × ((channel : ℕ) → 5 < channel → IsAsBefore channel old new) }
    ensures said { (answer : Answer) (old new : Sink) (before now : ℕ) (text : List ℕ)
        → Tells answer 5 old new before now → said_as answer ≡ Some text → IsCut old 0 text new }
    ensures front { (answer : Answer) (old new : Sink) (before now : ℕ) (names : TextNames) (b : Build)
        → Tells answer 5 old new before now → answer ≡ Compiled names b → CutShort old (texts_script names b) new }
{}
