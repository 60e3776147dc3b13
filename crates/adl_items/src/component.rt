//! What a component declares, and what it is.

ghost use Rattle.adl_items.specs.Declaring.{declared_told};
ghost use Rattle.adl_items.specs.Firsts.{first_named};
ghost use Rattle.adl_meaning.specs.Prelude.{composition_of, declared_by, flat_map, is_device, option_copied};
ghost use Rattle.adl_meaning.specs.CompositeBody.{is_hardware};
ghost use Rattle.std.specs.Prelude.{option_map, ◌≡◌};

use adl_ast::{Attribute, Component, Composition, Interface, Lock, Member};

/// What a component declares under a name.
#[derive(Clone, Copy)]
pub enum Declared<'a> {
    Interface(&'a Interface),
    Attribute(&'a Attribute),
    Lock(&'a Lock),
}

/// What members declare under the name: the first that has it. Each of them is looked at, which takes less time than a table
/// where they are few.
pub fn declared_under<'a>(members: &'a [Member], name: &[u8]) -> Option<Declared<'a>>
    ensures { option_map declared_told result ≡ first_named (flat_map declared_by members.entry.now) name.now }
{
    for member in members {
        match member {
            Member::Interface(it) if it.id.name.as_bytes() == name => {
                return Some(Declared::Interface(it));
            }
            Member::Attribute(it) if it.id.name.as_bytes() == name => {
                return Some(Declared::Attribute(it));
            }
            Member::Lock(it) if it.id.name.as_bytes() == name => return Some(Declared::Lock(it)),
            _ => {}
        }
    }
    None
}

fn is_hardware(member: &Member) -> bool
    ensures { result ≡ is_hardware member.now }
{
    matches!(member, Member::Hardware(_))
}

/// Whether the component says `hardware`.
pub fn is_device(component: &Component) -> bool
    ensures { result ≡ is_device component.now }
{
    component.members.as_slice().iter().any(|m| is_hardware(m))
}

/// The composition of a composite, the first.
pub fn composition_of(component: &Component) -> Option<&Composition>
    ensures { option_copied result ≡ composition_of component.now }
{
    for member in component.members.as_slice() {
        if let Member::Composition(composition) = member {
            return Some(composition);
        }
    }
    None
}
