//! Words that nothing has.

ghost use Rattle.adl_meaning.specs.Prelude.{Member as MemberOf, as_composition, filter_map, held_as, is_procedure, known_in, known_of, noted, option_copied, scope_behind, scope_of_known, unknown_in_composition, unknown_in_configuration, unknown_in_dotted, unknown_in_item, unknown_in_member, unknown_in_setting, unknown_inner, unknown_interface, unknown_names, unless_known};
ghost use Rattle.std.specs.Prelude.{List as Seq, option_map, ◌∷◌, ◌≡◌};
ghost use Rattle.adl_names.specs.Bodies.{item_of, owner_of};
ghost use Rattle.adl_names.specs.Scopes.{scope_told};

use crate::bodies::{Body, SourceTables};
use crate::tables::{ComponentTable, Held, Holding, target};
use adl_ast::{Configuration, Id, Instance, InterfaceKind, Line, Member, Setter};
use adl_items::instances_by;
use adl_meaning::{Connector, Earliest};
use cam_base::{Code, Name};
use name_tables::NameTable;

fn note_unless<'a>(known: bool, word: &'a Id, first: &mut Earliest<'a>)
    ensures { first.new ≡ noted first.old (unless_known known word.entry.now) }
{
    first.note(!known, Code::Unknown, word.place(), word.name.as_bytes());
}

fn note_interface<'a>(table: Option<&ComponentTable<'a>>, word: &'a Id, first: &mut Earliest<'a>)
    ensures { first.new ≡ noted first.old (unknown_interface (owner_of table.entry) word.entry.now) }
{
    if let Some(table) = table {
        note_unless(table.interface(&word.name).is_some(), word, first);
    }
}

/// Notes the words of a dotted name of an end or an export that nothing has.
fn note_dotted<'a>(
    tables: &SourceTables<'a>,
    holding: &Holding<'a>,
    words: &'a [Id],
    first: &mut Earliest<'a>,
)
    ensures { first.new ≡ noted first.old (unknown_in_dotted (known_in tables.now) (held_as holding.now) words.entry.now) }
{
    match words {
        [name, port] => match holding.get(&name.name) {
            Some(Held::Instance(it)) => {
                note_interface(tables.component(&it.component.name), port, first);
            }
            Some(Held::Group(members)) => {
                note_unless(false, name, first);
                note_unless(members.get(&port.name).is_some(), port, first);
            }
            Some(Held::Connection) | None => note_unless(false, name, first),
        },
        [name, member, port] => match holding.get(&name.name) {
            Some(Held::Group(members)) => match members.get(&member.name) {
                Some(it) => note_interface(tables.component(&it.component.name), port, first),
                None => note_unless(false, member, first),
            },
            Some(Held::Instance(_) | Held::Connection) | None => note_unless(false, name, first),
        },
        _ => (),
    }
}

/// Where the next word is looked up.
#[derive(Clone, Copy)]
enum Scope<'t, 'a> {
    /// Among what a composition holds.
    Within(&'t Holding<'a>),
    /// Among the instances of a group.
    Inside(&'t NameTable<'a, &'a Instance>),
    /// Nowhere: a leaf or a connection holds nothing.
    Behind,
    /// Nowhere: what the word in front stands for isn't known.
    Untold,
}

/// The scope of a component that may not be known.
fn of_type<'t, 'a>(table: Option<&'t ComponentTable<'a>>) -> Scope<'t, 'a>
    ensures { scope_told result ≡ scope_of_known (owner_of table.entry) }
{
    match table {
        None => Scope::Untold,
        Some(table) => match table.holding() {
            None => Scope::Behind,
            Some(holding) => Scope::Within(holding),
        },
    }
}

/// The scope behind a word.
fn scope_behind<'t, 'a>(
    tables: &'t SourceTables<'a>,
    scope: Scope<'t, 'a>,
    name: &Name,
) -> Scope<'t, 'a>
    ensures { scope_told result ≡ scope_behind (known_in tables.now) (scope_told scope.entry) name.now }
{
    match scope {
        Scope::Within(holding) => match holding.get(name) {
            None => Scope::Untold,
            Some(Held::Instance(it)) => of_type(tables.component(&it.component.name)),
            Some(Held::Group(members)) => Scope::Inside(members),
            Some(Held::Connection) => Scope::Behind,
        },
        Scope::Inside(members) => match members.get(name) {
            None => Scope::Untold,
            Some(it) => of_type(tables.component(&it.component.name)),
        },
        Scope::Behind => Scope::Behind,
        Scope::Untold => Scope::Untold,
    }
}

/// Notes a word of a setting that isn't the last, where its scope doesn't hold it.
fn note_inner<'a>(scope: Scope<'_, 'a>, word: &'a Id, first: &mut Earliest<'a>)
    ensures { first.new ≡ noted first.old (unknown_inner (scope_told scope.entry) word.entry.now) }
{
    match scope {
        Scope::Within(holding) => note_unless(holding.get(&word.name).is_some(), word, first),
        Scope::Inside(members) => note_unless(members.get(&word.name).is_some(), word, first),
        Scope::Behind => note_unless(false, word, first),
        Scope::Untold => (),
    }
}

/// Notes the words of a setting, of which the first is looked up in the scope.
fn note_setting_words<'t, 'a>(
    tables: &'t SourceTables<'a>,
    scope: Scope<'t, 'a>,
    words: &'a [Id],
    first: &mut Earliest<'a>,
)
    ensures { first.new ≡ noted first.old (unknown_in_setting (known_in tables.now) (scope_told scope.entry) words.entry.now) }
{
    let mut here = scope;
    let mut rest = words;
    while let [word, more @ ..] = rest {
        let after = scope_behind(tables, here, &word.name);
        if let (Scope::Inside(_), _) | (_, [_, ..]) = (here, more) {
            note_inner(here, word, first);
        }
        if let (Scope::Inside(_), [_]) = (after, more) {
            note_unless(false, word, first);
        }
        here = after;
        rest = more;
    }
}

/// Notes the unknown words of a composition. The owner is the component that has it; an assembly is none.
fn note_composition<'a>(
    tables: &SourceTables<'a>,
    owner: Option<&ComponentTable<'a>>,
    holding: &Holding<'a>,
    first: &mut Earliest<'a>,
)
    ensures { first.new ≡ noted first.old (unknown_in_composition (known_in tables.now) (owner_of owner.entry) holding.now) }
{
    for line in holding.composition.lines.as_slice() {
        match line {
            Line::Instance(_) | Line::Group(_) => {
                for it in instances_by(line) {
                    let word = &it.component;
                    note_unless(tables.component(&word.name).is_some(), word, first);
                }
            }
            Line::Connection(it) => {
                let word = &it.connector;
                note_unless(Connector::find(word.name.as_bytes()).is_some(), word, first);
                for end in it.ends.as_slice() {
                    note_dotted(tables, holding, end.words.as_slice(), first);
                }
            }
            Line::Export(it) => {
                note_dotted(tables, holding, it.words.as_slice(), first);
                note_unless(target(owner, &it.target.name).is_some(), &it.target, first);
            }
        }
    }
}

fn note_configuration<'t, 'a>(
    tables: &'t SourceTables<'a>,
    owner: Option<&ComponentTable<'a>>,
    scope: Scope<'t, 'a>,
    configuration: &'a Configuration,
    first: &mut Earliest<'a>,
)
    ensures { first.new ≡ noted first.old
        (unknown_in_configuration (known_in tables.now) (owner_of owner.entry) (scope_told scope.entry) configuration.entry.now) }
{
    for setting in configuration.settings.as_slice() {
        note_setting_words(tables, scope, setting.words.as_slice(), first);
        if let Setter::Reference(word) = &setting.setter {
            let known = owner.is_some_and(|table| table.attribute(&word.name).is_some());
            note_unless(known, word, first);
        }
    }
}

/// Notes the unknown words of a member, where what compositions hold is told from this one on; what is told of those behind it.
fn note_member<'t, 'a>(
    tables: &'t SourceTables<'a>,
    owner: &'t ComponentTable<'a>,
    holdings: &'t [Holding<'a>],
    member: &'a Member,
    first: &mut Earliest<'a>,
) -> &'t [Holding<'a>]
    ensures rest { (more : Seq MemberOf)
        → holdings.entry.now ≡ filter_map as_composition (member.entry.now ∷ more) → result.now ≡ filter_map as_composition more }
    ensures faults { (more : Seq MemberOf) → holdings.entry.now ≡ filter_map as_composition (member.entry.now ∷ more)
        → first.new ≡ noted first.old
        (unknown_in_member (known_in tables.now) (is_procedure tables.now) (known_of owner.now) member.entry.now) }
{
    match member {
        Member::Interface(it) => {
            let is_named = matches!(it.kind, InterfaceKind::Uses | InterfaceKind::Provides);
            let known = !is_named || tables.is_procedure(&it.word.name);
            note_unless(known, &it.word, first);
            holdings
        }
        Member::Composition(_) => match holdings {
            [holding, more @ ..] => {
                note_composition(tables, Some(owner), holding, first);
                more
            }
            [] => holdings,
        },
        Member::Configuration(it) => {
            note_configuration(tables, Some(owner), of_type(Some(owner)), it, first);
            holdings
        }
        _ => holdings,
    }
}

fn note_body<'t, 'a>(tables: &'t SourceTables<'a>, body: &'t Body<'a>, first: &mut Earliest<'a>)
    ensures { first.new ≡ noted first.old (unknown_in_item (known_in tables.now) (is_procedure tables.now) (item_of body.now)) }
{
    match body {
        Body::Import(_) | Body::Procedure(_) => (),
        Body::Component(table) => {
            let mut holdings = table.holdings();
            for member in table.component.members.as_slice() {
                holdings = note_member(tables, table, holdings, member, first);
            }
        }
        Body::Assembly(assembly, holding) => {
            let holding = holding.get();
            note_composition(tables, None, holding, first);
            if let Some(it) = &assembly.configuration {
                note_configuration(tables, None, Scope::Within(holding), it, first);
            }
        }
    }
}

/// Notes the unknown words of a source.
#[tactic(auto, using(std::proofs::lemmas::Grind::common_steps, crate::proofs::BodyLists::walks))]
pub fn note_unknown<'a>(tables: &SourceTables<'a>, first: &mut Earliest<'a>)
    ensures { first.new ≡ noted first.old (unknown_names tables.now) }
{
    for body in tables.bodies() {
        note_body(tables, body, first);
    }
}
