//! The search for the value of a setting.

ghost use Rattle.adl_meaning.specs.Prelude.{Name as Bytes, body, default_in, option_and_then, option_copied, option_map_or, setting_of, value_at};
ghost use Rattle.std.specs.Prelude.{IfOk, List as Seq, None, Some, [], false, slice_get, true, ◌++◌, ◌∷◌, ◌≡◌};
ghost use Rattle.adl_items.specs.Pointed.{pointed};
ghost use Rattle.adl_settings.specs.Lookups.{attribute_at, given_from, within};
ghost use Rattle.adl_settings.specs.Named.{is_valued};

use crate::Given;
use crate::tables::{SettingTables, within};
use adl_ast::{Setter, Setting};
use adl_items::last_name;
use adl_program::Bodies;
use cam_base::{Made, Name};
use indexmap::{IndexMap, IndexSet};
use std::alloc::Global;
use std::marker::Model;

/// What the search looks at. Contracts see it as the hierarchy of the source.
#[derive(Drop)]
pub struct Lookup<'t, 'a> {
    pub alloc: Global,
    pub bodies: &'t Bodies<'a>,
    pub settings: SettingTables<'a>,
    /// The names that have a value in some body, if they were looked for.
    pub names: Option<IndexSet<&'a [u8]>>,
    /// The values of attributes that settings refer to, as far as they were looked for before, by the path of the instance. It
    /// may be that there is no value.
    pub referred: IndexMap<(&'a [Name], &'a [u8]), Option<Given<'a>>>,
}

impl<'t, 'a> Model for Lookup<'t, 'a> {
    ghost use Rattle.adl_meaning.specs.Prelude.{Hierarchy};

    ghost Value = { Hierarchy };

    ghost use Rattle.adl_ast.specs.contracts.value.ValueKind as values;
    ghost use Rattle.std.specs.Coded.{codes};

    ghost coded = { Prim.hlevel (codes, values.the_row.coded) };

    ghost use Rattle.adl_settings.specs.Lookups.{IsLookup};
    ghost use Rattle.std.specs.Prelude.{option_map};

    ghost view = { λ l. l.bodies.now };

    ghost invariant = { λ l. IsLookup l.bodies.now l.settings (option_map (λ s. s.keys) l.names) l.referred.entries };
}

impl<'t, 'a> Lookup<'t, 'a> {
    /// Whether it is known that no name has a value.
    pub fn is_bare(&self) -> bool
        ensures { (n : Bytes) → result ≡ true → is_valued self.now n ≡ false }
    {
        match &self.names {
            None => false,
            Some(names) => names.is_empty(),
        }
    }

    /// Whether the name can have a value.
    fn may_be_valued(&self, name: &[u8]) -> bool
        ensures { result ≡ false → is_valued self.now name.now ≡ false }
    {
        match &self.names {
            None => true,
            Some(names) => !names.is_empty() && names.contains(name),
        }
    }

    /// The body behind the name at this place of a path; behind the whole path it stays.
    fn behind(&self, number: Option<u32>, path: &[Name], at: usize) -> Option<u32>
        ensures { result ≡ option_map_or (within self.now number) (slice_get path.now at) number }
    {
        match path.get(at) {
            None => number,
            Some(name) => within(self.bodies, number, name),
        }
    }

    /// The setting of a path with a name behind it.
    fn setting(&self, number: Option<u32>, key: &[&[u8]]) -> Option<&'a Setting>
        ensures { (p : Seq Bytes) (x : Bytes) → pointed key.now ≡ p ++ x ∷ []
            → option_copied result ≡ option_and_then (λ k. setting_of self.now k p x) number }
    {
        self.settings.of(number?).get(key)
    }

    /// The default of an attribute of a body.
    fn default(&self, number: Option<u32>, name: &[u8]) -> Option<Given<'a>>
        ensures { result ≡ option_and_then (λ k. default_in (body self.now k) name.now) number }
    {
        let attribute = self.bodies.body(number?).attribute(name)?;
        let value = attribute.value.as_ref()?.get();
        let name = attribute.id.name.as_bytes();
        Some(Given { value, name })
    }

    /// What a setting gives, of the body at the path. The assembly, at the empty path, has no attributes.
    #[cycle(value)]
    fn given_by(
        &mut self,
        setting: Option<&'a Setting>,
        path: &'a [Name],
    ) -> Made<Option<Given<'a>>>
        ensures value { IfOk result (λ o. o ≡ given_from (attribute_at self.old path.now) (option_copied setting.entry)) }
        ensures same { self.new ≡ self.old }
    {
        match setting {
            None => Ok(None),
            Some(setting) => match &setting.setter {
                Setter::Literal(value) => Ok(Some(Given {
                    value,
                    name: last_name(setting.words.as_slice()),
                })),
                Setter::Reference(attribute) => {
                    if path.is_empty() {
                        return Ok(None);
                    }
                    self.referred(path, attribute.name.as_bytes())
                }
            },
        }
    }

    /// The value of the setting at a path, searched for from the outermost body inwards.
    #[cycle(value)]
    fn search(&mut self, path: &'a [Name], name: &[u8]) -> Made<Option<Given<'a>>>
        ensures value { IfOk result (λ o. o ≡ value_at self.old path.now name.now) }
        ensures same { self.new ≡ self.old }
    {
        let key = key_of(self.alloc, path, name)?;
        let mut number = Some(self.bodies.top_number());
        for at in 0..path.len().max(1) {
            let setting = self.setting(number, &key[at..]);
            match self.given_by(setting, &path[..at])? {
                Some(given) => return Ok(Some(given)),
                None => number = self.behind(number, path, at),
            }
        }
        Ok(self.default(number, name))
    }

    /// The value of an attribute of the instance at a path.
    #[cycle(value)]
    fn referred(&mut self, path: &'a [Name], name: &'a [u8]) -> Made<Option<Given<'a>>>
        ensures value { IfOk result (λ o. o ≡ value_at self.old path.now name.now) }
        ensures same { self.new ≡ self.old }
    {
        if let Some(found) = self.referred.get(&(path, name)) {
            return Ok(again(found));
        }
        let found = self.search(path, name)?;
        self.referred.insert((path, name), again(&found))?;
        Ok(found)
    }

    /// The value of the setting at a path. It is searched for where its name can have a value.
    #[inline(always)]
    #[tactic(auto, using(crate::proofs::Unvalued::unvalued))]
    pub fn value_at(&mut self, path: &'a [Name], name: &[u8]) -> Made<Option<Given<'a>>>
        ensures value { IfOk result (λ o. o ≡ value_at self.old path.now name.now) }
        ensures same { self.new ≡ self.old }
    {
        if !self.may_be_valued(name) {
            return Ok(None);
        }
        self.search(path, name)
    }
}

fn again<'a>(found: &Option<Given<'a>>) -> Option<Given<'a>>
    ensures { result ≡ found.now }
{
    found.as_ref().map(Given::again)
}

/// The names of a path with a name behind them.
fn key_of<'q>(alloc: Global, path: &'q [Name], name: &'q [u8]) -> Made<Vec<&'q [u8]>>
    ensures { IfOk result (λ v. pointed v.items ≡ path.now ++ name.now ∷ []) }
{
    let mut key = Vec::with_capacity(alloc, path.len().saturating_add(1))?;
    for part in path {
        key.push(part.as_bytes())?;
    }
    key.push(name)?;
    Ok(key)
}
