//! The names that have a value anywhere.

ghost use Rattle.adl_meaning.specs.Prelude.{Name as Bytes, bytes_eq};
ghost use Rattle.adl_settings.specs.Named.{AreNames, gives, is_named, is_valued, members_of};
ghost use Rattle.std.specs.Prelude.{IfOk, OnOk, option_map, ◌||◌, ◌≡◌};

use crate::tables::settings_of;
use adl_ast::Member;
use adl_items::last_name;
use adl_program::{Bodies, Body};
use cam_base::Made;
use indexmap::IndexSet;
use std::alloc::Global;

fn add<'a>(name: &'a [u8], names: &mut IndexSet<&'a [u8]>) -> Made<()>
    ensures { OnOk result ((n : Bytes) → is_named names.new.keys n ≡ (is_named names.old.keys n || bytes_eq n name.entry.now)) }
{
    names.insert(name)?;
    Ok(())
}

fn members_of<'a>(body: &Body<'a>) -> &'a [Member]
    ensures { result.now ≡ members_of body.now }
{
    let component = body.component();
    component.map_or(&[], |component| component.members.as_slice())
}

/// Adds the last words of a body's settings, and the names of its attributes.
fn add_body<'a>(body: &Body<'a>, names: &mut IndexSet<&'a [u8]>) -> Made<()>
    ensures { OnOk result ((n : Bytes) → is_named names.new.keys n ≡ (is_named names.old.keys n || gives n body.now)) }
{
    for setting in settings_of(body) {
        add(last_name(setting.words.as_slice()), names)?;
    }
    for member in members_of(body) {
        if let Member::Attribute(attribute) = member {
            add(attribute.id.name.as_bytes(), names)?;
        }
    }
    Ok(())
}

/// The names of the settings of all bodies, and of all attributes.
fn all_names<'a>(alloc: Global, bodies: &Bodies<'a>) -> Made<IndexSet<&'a [u8]>>
    ensures { IfOk result (λ s. (n : Bytes) → is_named s.keys n ≡ is_valued bodies.now n) }
{
    let mut names = IndexSet::new(alloc);
    for number in 0..bodies.top_number() + 1 {
        add_body(bodies.body(number), &mut names)?;
    }
    Ok(names)
}

/// The names that have a value in some body, for so many leaves. Beside more components than leaves they aren't looked for: it
/// would take longer than what they save.
pub fn names_for<'a>(
    alloc: Global,
    bodies: &Bodies<'a>,
    leaves: usize,
) -> Made<Option<IndexSet<&'a [u8]>>>
    ensures { IfOk result (λ o. AreNames bodies.now (option_map (λ s. s.keys) o)) }
{
    if bodies.top_number() as usize > leaves {
        return Ok(None);
    }
    Ok(Some(all_names(alloc, bodies)?))
}
