//! The steps that fields spell.

ghost use Rattle.std.specs.Prelude.{◌≡◌, [], ◌∷◌};
ghost use Rattle.step_text.specs.Found.{found_in, place_among};
ghost use Rattle.step_text.specs.Spelling.{copy_value, spelled_behind, spelled, names, names_behind};
ghost use Rattle.step_text.specs.StepTexts.{misspelled, first_unknown};
ghost use Rattle.cam_base.specs.LineTexts.{texts};

use crate::rights::read_rights;
use crate::threads::Threads;
use crate::verb::{Verb, read_verb};
use cam_base::{TextCode, is_word, read_number};
use cap_machine::Step;
use cap_model::Rights;

/// A code, and the name that its fault speaks of.
pub type Wrong<'a> = (TextCode, &'a [u8]);

/// The place of the thread of that name; of any word, where no threads are given.
fn place(threads: Option<&Threads>, name: &[u8]) -> Option<u32>
    ensures { result ≡ place_among threads.entry name.now }
{
    match threads {
        Some(threads) => threads.find(name),
        None if is_word(name) => Some(0),
        None => None,
    }
}

fn copy(k: &[u8], r: &[u8]) -> Option<(u64, Rights)>
    ensures { result ≡ copy_value k.now r.now }
{
    Some((read_number(k)?, read_rights(r)?))
}

fn of_one(threads: Option<&Threads>, verb: Verb, t: &[u8]) -> Option<Step>
    ensures { result ≡ spelled_behind (place_among threads.entry) verb (t.now ∷ []) }
{
    match verb {
        Verb::Reply => Some(Step::Reply {
            t: place(threads, t)?,
            copy: None,
        }),
        Verb::Save => Some(Step::Save {
            t: place(threads, t)?,
        }),
        _ => None,
    }
}

fn of_two(threads: Option<&Threads>, verb: Verb, t: &[u8], i: &[u8]) -> Option<Step>
    ensures { result ≡ spelled_behind (place_among threads.entry) verb (t.now ∷ i.now ∷ []) }
{
    match verb {
        Verb::Drop => Some(Step::Drop {
            t: place(threads, t)?,
            i: read_number(i)?,
        }),
        Verb::ReplyTo => Some(Step::ReplyTo {
            t: place(threads, t)?,
            i: read_number(i)?,
            copy: None,
        }),
        _ => None,
    }
}

fn of_three(threads: Option<&Threads>, verb: Verb, t: &[u8], i: &[u8], j: &[u8]) -> Option<Step>
    ensures { result ≡ spelled_behind (place_among threads.entry) verb (t.now ∷ i.now ∷ j.now ∷ []) }
{
    match verb {
        Verb::Reply => Some(Step::Reply {
            t: place(threads, t)?,
            copy: Some(copy(i, j)?),
        }),
        Verb::SetCspace => Some(Step::SetCspace {
            t: place(threads, t)?,
            i: read_number(i)?,
            j: read_number(j)?,
        }),
        Verb::SetVspace => Some(Step::SetVspace {
            t: place(threads, t)?,
            i: read_number(i)?,
            j: read_number(j)?,
        }),
        Verb::Bind => Some(Step::Bind {
            t: place(threads, t)?,
            i: read_number(i)?,
            j: read_number(j)?,
        }),
        _ => None,
    }
}

fn of_four(
    threads: Option<&Threads>,
    verb: Verb,
    t: &[u8],
    i: &[u8],
    j: &[u8],
    r: &[u8],
) -> Option<Step>
    ensures { result ≡ spelled_behind (place_among threads.entry) verb (t.now ∷ i.now ∷ j.now ∷ r.now ∷ []) }
{
    match verb {
        Verb::Take => Some(Step::Take {
            t: place(threads, t)?,
            i: read_number(i)?,
            j: read_number(j)?,
            r: read_rights(r)?,
        }),
        Verb::Put => Some(Step::Put {
            t: place(threads, t)?,
            i: read_number(i)?,
            j: read_number(j)?,
            r: read_rights(r)?,
        }),
        Verb::Map => Some(Step::Map {
            t: place(threads, t)?,
            i: read_number(i)?,
            j: read_number(j)?,
            r: read_rights(r)?,
        }),
        Verb::Call => Some(Step::Call {
            t: place(threads, t)?,
            i: read_number(i)?,
            u: place(threads, j)?,
            j: read_number(r)?,
        }),
        Verb::ReplyTo => Some(Step::ReplyTo {
            t: place(threads, t)?,
            i: read_number(i)?,
            copy: Some(copy(j, r)?),
        }),
        _ => None,
    }
}

fn grant(threads: Option<&Threads>, fields: [&[u8]; 6]) -> Option<Step>
    ensures { result ≡ spelled_behind (place_among threads.entry) Verb.Grant (texts fields.entry) }
{
    let [t, i, u, j, k, r] = fields;
    Some(Step::Grant {
        t: place(threads, t)?,
        i: read_number(i)?,
        u: place(threads, u)?,
        j: read_number(j)?,
        k: read_number(k)?,
        r: read_rights(r)?,
    })
}

/// The step that a word and the fields behind it spell. Where no threads are given every word names one.
fn spelled_behind(threads: Option<&Threads>, verb: Verb, fields: &[&[u8]]) -> Option<Step>
    ensures { result ≡ spelled_behind (place_among threads.entry) verb (texts fields.now) }
{
    match fields {
        [t] => of_one(threads, verb, t),
        [t, i] => of_two(threads, verb, t, i),
        [t, i, j] => of_three(threads, verb, t, i, j),
        [t, i, j, r] => of_four(threads, verb, t, i, j, r),
        [t, i, u, j, k, r] => match verb {
            Verb::Grant => grant(threads, [t, i, u, j, k, r]),
            _ => None,
        },
        _ => None,
    }
}

/// The step that fields spell. Where no threads are given every word names one.
pub fn spelled(threads: Option<&Threads>, fields: &[&[u8]]) -> Option<Step>
    ensures { result ≡ spelled (place_among threads.entry) (texts fields.now) }
{
    match fields {
        [] => None,
        [word, behind @ ..] => spelled_behind(threads, read_verb(word)?, behind),
    }
}

/// What is wrong with fields that spell no step: the code, and the first name that is no thread's.
pub fn misspelled<'a>(threads: &Threads, fields: &[&'a [u8]]) -> Wrong<'a>
    ensures { (result.0, result.1.now) ≡ misspelled (found_in threads.now) (texts fields.now) }
{
    if spelled(None, fields).is_none() {
        return (TextCode::StepSyntax, b"");
    }
    (TextCode::StepUnknown, unknown(threads, fields))
}

/// The first name that is no thread's.
fn unknown<'a>(threads: &Threads, fields: &[&'a [u8]]) -> &'a [u8]
    ensures { result.now ≡ first_unknown (found_in threads.now) (names (texts fields.now)) }
{
    match fields {
        [] => b"",
        [word, behind @ ..] => unknown_behind(threads, read_verb(word), behind),
    }
}

fn unknown_behind<'a>(threads: &Threads, verb: Option<Verb>, fields: &[&'a [u8]]) -> &'a [u8]
    ensures { result.now ≡ first_unknown (found_in threads.now) (names_behind verb (texts fields.now)) }
{
    match (verb, fields) {
        (Some(Verb::Grant | Verb::Call), [t, _, u, ..]) => {
            if threads.find(t).is_none() {
                t
            } else {
                unless_known(threads, u)
            }
        }
        (_, [t, ..]) => unless_known(threads, t),
        _ => b"",
    }
}

fn unless_known<'a>(threads: &Threads, name: &'a [u8]) -> &'a [u8]
    ensures { result.now ≡ first_unknown (found_in threads.now) (name.entry.now ∷ []) }
{
    if threads.find(name).is_none() {
        name
    } else {
        b""
    }
}
