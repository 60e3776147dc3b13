ghost use Rattle.cspace_layout.specs.Members.{members_at, members_of, is_lock};
ghost use Rattle.std.specs.Prelude.{◌≡◌};

use adl_ast::{Item, Member, Source};
use adl_meaning::ItemAt;

/// The members of the component that stands there, and none where no component does. Takes no memory.
pub fn members_at(source: &Source, at: ItemAt) -> &[Member]
    ensures { result.now ≡ members_at source.now at }
{
    let Some(file) = source.files.as_slice().get(at.file as usize) else {
        return &[];
    };
    match file.tree.items.as_slice().get(at.item as usize) {
        Some(ended) => members_of(&ended.item),
        None => &[],
    }
}

fn members_of(item: &Item) -> &[Member]
    ensures { result.now ≡ members_of item.now }
{
    match item {
        Item::Component(component) => component.members.as_slice(),
        _ => &[],
    }
}

/// Whether the member is a lock.
pub fn is_lock(member: &Member) -> bool
    ensures { result ≡ is_lock member.now }
{
    matches!(member, Member::Lock(_))
}
