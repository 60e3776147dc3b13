//! Later ones of equal names, and second compositions and configurations.

ghost use Rattle.adl_meaning.specs.Prelude.{Id as Word, again, compositions, cons_option, configurations, duplicates_in_procedure, flat_map, noted, option_copied, option_or, repeats, repeats_after};
ghost use Rattle.adl_names.specs.Words.{found};
ghost use Rattle.std.specs.Prelude.{List as Seq, OnOk, [], map, ℕ, ◌++◌, ◌∷◌, ◌≡◌};
ghost use Rattle.adl_names.specs.Tables.{has_name, has_word, is_met, method_words, param_words, repeated_in, words_by};

use adl_ast::{Component, Id, Member, Param, ProcMember, Procedure};
use adl_meaning::Earliest;
use cam_base::{Code, Made, Name};
use name_tables::{FEW, NameTable};
use std::alloc::Global;

/// Puts a value under the name of a word, or notes that an earlier one has the name. What is noted behind it, is noted of the
/// words from it on.
pub fn put<'a, V: Drop>(
    id: &'a Id,
    value: V,
    table: &mut NameTable<'a, V>,
    first: &mut Earliest<'a>,
) -> Made<()>
    ensures noted { OnOk result ((more : Seq Word) → noted first.new (repeats_after (has_name table.new) more)
        ≡ noted first.old (repeats_after (has_name table.old) (id.entry.now ∷ more))) }
    ensures found { OnOk result ((n : Seq ℕ) → found table.new n
        ≡ option_or (found table.old n) (found ((id.entry.now.name, value) ∷ []) n)) }
{
    let is_met = table.put(&id.name, value)?;
    first.note(is_met, Code::Duplicate, id.place(), id.name.as_bytes());
    Ok(())
}

/// What stands under a word, or under none.
pub trait Worded {
    ghost words: { Self → Seq Word };

    /// The word.
    fn word(&self) -> Option<&Id>
        ensures { cons_option (option_copied result) [] ≡ words self.now };
}

impl Worded for Member {
    ghost words = { words_by };

    fn word(&self) -> Option<&Id> {
        match self {
            Member::Interface(it) => Some(&it.id),
            Member::Attribute(it) => Some(&it.id),
            Member::Lock(it) => Some(&it.id),
            _ => None,
        }
    }
}

impl Worded for ProcMember {
    ghost words = { method_words };

    fn word(&self) -> Option<&Id> {
        match self {
            ProcMember::Method(method) => Some(&method.id),
            ProcMember::Include(_) => None,
        }
    }
}

impl Worded for Param {
    ghost words = { param_words };

    fn word(&self) -> Option<&Id> {
        Some(&self.id)
    }
}

/// Whether the items are so few that they are looked through.
pub fn are_few<T>(items: &[T]) -> bool {
    items.len() <= FEW
}

fn has_word<T: Worded>(item: &T, name: &Name) -> bool
    ensures { result ≡ has_word T.words name.now item.now }
{
    match item.word() {
        None => false,
        Some(word) => word.name == *name,
    }
}

fn is_met<T: Worded>(items: &[T], name: &Name) -> bool
    ensures { result ≡ is_met T.words items.now name.now }
{
    items.iter().any(|item| has_word(item, name))
}

/// Notes the word of an item, where one of those before it has its name.
fn note_behind<'a, T: Worded>(before: &[T], item: &'a T, first: &mut Earliest<'a>)
    ensures { (rest : Seq Word) → noted first.new (repeats_after (is_met T.words (before.now ++ item.entry.now ∷ [])) rest)
        ≡ noted first.old (repeats_after (is_met T.words before.now) (T.words item.entry.now ++ rest)) }
{
    if let Some(word) = item.word() {
        let is_repeated = is_met(before, &word.name);
        let place = word.place();
        first.note(is_repeated, Code::Duplicate, place, word.name.as_bytes());
    }
}

/// Notes the names that stand twice among items, each of which is looked for among those before it.
pub fn note_few<'a, T: Worded>(items: &'a [T], first: &mut Earliest<'a>)
    ensures { first.new ≡ noted first.old (repeats (flat_map T.words items.entry.now)) }
{
    for (place, item) in items.iter().enumerate() {
        note_behind(&items[..place], item, first);
    }
}

/// Notes the names that stand twice among items.
fn note_repeats<'a, T: Worded>(alloc: Global, items: &'a [T], first: &mut Earliest<'a>) -> Made<()>
    ensures { OnOk result (first.new ≡ noted first.old (repeats (flat_map T.words items.entry.now))) }
{
    if are_few(items) {
        note_few(items, first);
        return Ok(());
    }
    let mut met = NameTable::with_room(alloc, items.len())?;
    for item in items {
        if let Some(word) = item.word() {
            put(word, (), &mut met, first)?;
        }
    }
    Ok(())
}

/// Notes the later ones of a method's parameters.
#[tactic(auto, using(crate::proofs::FewRepeated::params_words))]
fn note_params<'a>(alloc: Global, member: &'a ProcMember, first: &mut Earliest<'a>) -> Made<()>
    ensures { OnOk result (first.new ≡ noted first.old (repeated_in member.entry.now)) }
{
    match member {
        ProcMember::Method(method) => note_repeats(alloc, method.params.as_slice(), first),
        ProcMember::Include(_) => Ok(()),
    }
}

/// Notes the later ones of a procedure's methods and of their parameters.
pub fn note_procedure<'a>(
    alloc: Global,
    procedure: &'a Procedure,
    first: &mut Earliest<'a>,
) -> Made<()>
    ensures { OnOk result (first.new ≡ noted first.old (duplicates_in_procedure procedure.entry.now)) }
{
    let members = procedure.members.as_slice();
    note_repeats(alloc, members, first)?;
    for member in members {
        note_params(alloc, member, first)?;
    }
    Ok(())
}

/// Notes each composition of a component but the first, and each configuration but the first.
pub fn note_again<'a>(component: &'a Component, first: &mut Earliest<'a>)
    ensures { first.new ≡ noted first.old (again (map (λ k. k.place) (compositions component.entry.now))
        ++ again (map (λ f. f.place) (configurations component.entry.now))) }
{
    let mut is_later = false;
    for member in component.members.as_slice() {
        if let Member::Composition(it) = member {
            first.note(is_later, Code::Duplicate, it.place, b"");
            is_later = true;
        }
    }
    let mut is_later = false;
    for part in component.members.as_slice() {
        if let Member::Configuration(it) = part {
            first.note(is_later, Code::Duplicate, it.place, b"");
            is_later = true;
        }
    }
}
