//! The settings of each body in a table, by their paths and names.

ghost use Rattle.adl_meaning.specs.Prelude.{Id as Word, Name as Bytes, body, noted, option_and_then, option_copied, option_or, part_named, same_path, sets, settings_of, where_true};
ghost use Rattle.std.specs.Prelude.{IfOk, List as Seq, None, OnOk, Some, [], if◌then◌else◌, is_some, slice_index_or, ◌++◌, ◌∷◌, ◌≡◌};
ghost use Rattle.adl_items.specs.Pointed.{pointed};
ghost use Rattle.adl_settings.specs.SettingTwice.{repeated_in, setting_twice, settings_twice};
ghost use Rattle.adl_settings.specs.Lookups.{AreTables, IsTable, groups, key_of, path_from, setting_found, within};

use adl_ast::{Id, Setting};
use adl_items::last_name;
use adl_meaning::Earliest;
use adl_program::{Bodies, Body};
use cam_base::{Code, Made, Name};
use indexmap::IndexMap;
use std::alloc::Global;

/// The first setting of each path and name, by the names of the path with that name behind them.
#[derive(Drop)]
pub struct SettingTable<'a> {
    entries: IndexMap<Vec<&'a [u8]>, &'a Setting>,
}

/// A table for each component by number, and one for the assembly.
#[derive(Drop)]
pub struct SettingTables<'a> {
    bodies: Vec<SettingTable<'a>>,
    top: SettingTable<'a>,
}

impl<'a> SettingTable<'a> {
    /// The setting of a path and a name. Most bodies set nothing, and no key is hashed for them.
    #[tactic(auto, using(crate::proofs::SettingKeys::found_key, crate::proofs::SettingKeys::found_none))]
    pub fn get(&self, key: &[&[u8]]) -> Option<&'a Setting>
        ensures { option_copied result ≡ setting_found self.now (pointed key.now) }
    {
        if self.entries.is_empty() {
            return None;
        }
        self.entries.get(key).copied()
    }

    /// Puts a setting under its key, where the key has none yet, and answers whether it has one.
    #[tactic(auto, using(crate::proofs::SettingKeys::found_there, crate::proofs::SettingKeys::found_kept))]
    fn add(&mut self, key: Vec<&'a [u8]>, setting: &'a Setting) -> Made<bool>
        ensures met { IfOk result (λ met. met ≡ is_some (setting_found self.old (pointed key.entry.items))) }
        ensures found { OnOk result ((q : Seq Bytes) → setting_found self.new q
            ≡ option_or (setting_found self.old q)
            (if same_path q (pointed key.entry.items) then Some setting.entry.now else None)) }
    {
        if self.entries.contains_key(key.as_slice()) {
            return Ok(true);
        }
        self.entries.insert(key, setting)?;
        Ok(false)
    }
}

impl<'a> SettingTables<'a> {
    /// The table of the body with the number.
    pub fn of(&self, number: u32) -> &SettingTable<'a>
        ensures { result.now ≡ slice_index_or self.now.bodies.items number self.now.top }
    {
        let bodies = self.bodies.as_slice();
        bodies.get(number as usize).unwrap_or(&self.top)
    }
}

/// The number of the component of the first instance of the name.
#[tactic(auto, using(crate::proofs::SettingKeys::kinds_same))]
fn kind_of(body: &Body<'_>, name: &Name) -> Option<u32>
    ensures { result ≡ option_and_then (λ x. Some x.kind) (part_named body.now.parts name.now) }
{
    match body.part(name) {
        None => None,
        Some(part) => Some(part.kind),
    }
}

/// The body behind a name, where there is one.
pub fn within(bodies: &Bodies<'_>, number: Option<u32>, name: &Name) -> Option<u32>
    ensures { result ≡ within bodies.now number name.now }
{
    kind_of(bodies.body(number?), name)
}

fn groups(bodies: &Bodies<'_>, number: Option<u32>, name: &Name) -> bool
    ensures { result ≡ groups bodies.now number name.now }
{
    match number {
        None => false,
        Some(number) => bodies.body(number).has_group(name.as_bytes()),
    }
}

/// The body behind a word of a setting, and the word itself if it is part of the path. Behind a leaf or a connection each is.
#[tactic(auto, using(crate::proofs::SettingKeys::path_steps))]
fn step<'a>(
    bodies: &Bodies<'a>,
    body: Option<u32>,
    word: &'a Id,
    path: &mut Vec<&'a [u8]>,
) -> Made<Option<u32>>
    ensures { IfOk result (λ after. (rest : Seq Word) (last : Word)
        → pointed path.new.items ++ path_from bodies.now after (rest ++ last ∷ [])
        ≡ pointed path.old.items ++ path_from bodies.now body (word.entry.now ∷ rest ++ last ∷ [])) }
{
    let inside = within(bodies, body, &word.name);
    if inside.is_none() && groups(bodies, body, &word.name) {
        return Ok(body);
    }
    path.push(word.name.as_bytes())?;
    Ok(inside)
}

/// The path that words name in a body, with the last word behind it.
fn key_in<'a>(alloc: Global, bodies: &Bodies<'a>, body: u32, words: &'a [Id]) -> Made<Vec<&'a [u8]>>
    ensures { IfOk result (λ v. pointed v.items ≡ key_of bodies.now body words.now) }
{
    let mut key = Vec::new(alloc);
    if let [inner @ .., _last] = words {
        let mut at = Some(body);
        for word in inner {
            at = step(bodies, at, word, &mut key)?;
        }
    }
    key.push(last_name(words))?;
    Ok(key)
}

/// Puts a setting into the table of its body, and notes it where an earlier one has its key.
#[tactic(auto, using(crate::proofs::SettingKeys::same_path_snoc))]
fn add_setting<'a>(
    alloc: Global,
    bodies: &Bodies<'a>,
    body: u32,
    setting: &'a Setting,
    settings: &mut SettingTable<'a>,
    first: &mut Earliest<'a>,
) -> Made<()>
    ensures found { OnOk result ((p : Seq Bytes) (x : Bytes) → setting_found settings.new (p ++ x ∷ [])
        ≡ option_or (setting_found settings.old (p ++ x ∷ []))
        (if sets bodies.now body p x setting.entry.now then Some setting.entry.now else None)) }
    ensures noted { OnOk result (first.new
        ≡ noted first.old (where_true (is_some (setting_found settings.old (key_of bodies.now body setting.entry.now.words)))
        (setting_twice setting.entry.now))) }
{
    let key = key_in(alloc, bodies, body, setting.words.as_slice())?;
    let met = settings.add(key, setting)?;
    let name = last_name(setting.words.as_slice());
    first.note(met, Code::SettingTwice, setting.place, name);
    Ok(())
}

/// The settings of a body.
pub fn settings_of<'a>(body: &Body<'a>) -> &'a [Setting]
    ensures { result.now ≡ settings_of body.now }
{
    let configuration = body.configuration();
    configuration.map_or(&[], |configuration| configuration.settings.as_slice())
}

/// The table of a body's settings; notes those that stand twice.
fn table_of<'a>(
    alloc: Global,
    bodies: &Bodies<'a>,
    number: u32,
    first: &mut Earliest<'a>,
) -> Made<SettingTable<'a>>
    ensures found { IfOk result (λ t. IsTable bodies.now number t) }
    ensures noted { OnOk result (first.new ≡ noted first.old (repeated_in bodies.now (number, body bodies.now number))) }
{
    let mut settings = SettingTable {
        entries: IndexMap::new(alloc),
    };
    for setting in settings_of(bodies.body(number)) {
        add_setting(alloc, bodies, number, setting, &mut settings, first)?;
    }
    Ok(settings)
}

/// The tables of all bodies; notes the settings that stand twice.
pub fn setting_tables<'a>(
    alloc: Global,
    bodies: &Bodies<'a>,
    first: &mut Earliest<'a>,
) -> Made<SettingTables<'a>>
    ensures found { IfOk result (λ ts. AreTables bodies.now ts) }
    ensures noted { OnOk result (first.new ≡ noted first.old (settings_twice bodies.now)) }
{
    let room = bodies.top_number() as usize;
    let mut tables = Vec::with_capacity(alloc, room)?;
    for number in 0..bodies.top_number() {
        tables.push_reserved(table_of(alloc, bodies, number, first)?);
    }
    let top = table_of(alloc, bodies, bodies.top_number(), first)?;
    Ok(SettingTables {
        bodies: tables,
        top,
    })
}
