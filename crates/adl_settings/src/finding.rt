//! The values of the settings of all leaves, and of the ends of connections at the interfaces that they join.

ghost use Rattle.adl_meaning.specs.Prelude.{cons_option, filter, option_copied};
ghost use Rattle.std.specs.Prelude.{IfOk, List as Seq, OnOk, map, option_map, ◌++◌, ◌≡◌};
ghost use Rattle.adl_settings.specs.Joints.{Found as End, component_at, found_at, found_on, interface_at, joint_of, size_of, value_of};
ghost use Rattle.adl_settings.specs.EndMeaning.{end_setting};
ghost use Rattle.adl_settings.specs.Judged.{is_judged};
ghost use Rattle.adl_settings.specs.Meant.{where_set};
ghost use Rattle.adl_settings.specs.Settled.{end_settings, leaf_found};

use crate::search::Lookup;
use crate::{Found, Given, Joint, LeafFound, is_shared};
use adl_ast::{Component, Interface, Item, Member, Role, Source};
use adl_meaning::{EndSetting, EndSettings, Flat, FlatConnection, FlatEnd, ItemAt, Leaf};
use cam_base::{List, Made, Name};

/// The component that stands at a place.
fn component_at(source: &Source, at: ItemAt) -> Option<&Component>
    ensures { option_copied result ≡ component_at source.now at }
{
    let file = source.files.as_slice().get(at.file as usize)?;
    let ended = file.tree.items.as_slice().get(at.item as usize)?;
    match &ended.item {
        Item::Component(component) => Some(component),
        _ => None,
    }
}

/// The interface that is this member of a leaf's component.
fn interface_at<'a>(source: &'a Source, leaf: &Leaf, member: u32) -> Option<&'a Interface>
    ensures { option_copied result ≡ interface_at source.now leaf.now member }
{
    let component = component_at(source, leaf.component)?;
    match component.members.as_slice().get(member as usize) {
        Some(Member::Interface(interface)) => Some(interface),
        _ => None,
    }
}

/// The end at the interface that it joins.
fn joint_of<'a>(
    source: &'a Source,
    flat: &'a Flat,
    connection: &'a FlatConnection,
    position: u64,
    end: FlatEnd,
) -> Option<Joint<'a>>
    ensures { result ≡ joint_of source.now flat.now connection.now (position, end) }
{
    let leaf = flat.leaves.as_slice().get(end.leaf as usize)?;
    let interface = interface_at(source, leaf, end.member)?;
    Some(Joint {
        connection,
        position,
        end,
        leaf,
        interface,
    })
}

impl<'t, 'a> Lookup<'t, 'a> {
    /// The value of a setting of the interface that an end joins.
    fn value_of(&mut self, joint: &Joint<'a>, setting: &[u8]) -> Made<Option<Given<'a>>>
        ensures value { IfOk result (λ o. o ≡ value_of self.old joint.now setting.now) }
        ensures same { self.new ≡ self.old }
    {
        let front = joint.interface.id.name.as_bytes();
        let mut name = Vec::with_capacity(self.alloc, front.len().saturating_add(setting.len()))?;
        name.extend_from_slice(front)?;
        name.extend_from_slice(setting)?;
        self.value_at(joint.leaf.path.names(), name.as_slice())
    }

    /// The value of a setting of the interface that an end joins, where it has a meaning. Where no name has a value, none is
    /// made.
    #[inline(always)]
    #[tactic(auto, using(crate::proofs::Unvalued::unvalued))]
    fn value_where(
        &mut self,
        on: bool,
        joint: &Joint<'a>,
        setting: &[u8],
    ) -> Made<Option<Given<'a>>>
        ensures value { IfOk result (λ o. o ≡ where_set on (value_of self.old joint.now setting.now)) }
        ensures same { self.new ≡ self.old }
    {
        if !on || self.is_bare() {
            return Ok(None);
        }
        self.value_of(joint, setting)
    }

    /// The value of the size of shared memory, or else of a device's registers.
    fn size_of(&mut self, joint: &Joint<'a>) -> Made<Option<Given<'a>>>
        ensures value { IfOk result (λ o. o ≡ size_of self.old joint.now) }
        ensures same { self.new ≡ self.old }
    {
        let connection = joint.connection;
        if is_shared(connection.connector) {
            return self.value_at(connection.path.names(), b"size");
        }
        self.value_where(joint.is_device_memory(), joint, b"_size")
    }

    /// The values of the settings of an end.
    fn found_at(&mut self, joint: Joint<'a>) -> Made<Found<'a>>
        ensures value { IfOk result (λ f. f ≡ found_at self.old joint.entry) }
        ensures same { self.new ≡ self.old }
    {
        let access = self.value_where(joint.has_access(), &joint, b"_access")?;
        let badge = self.value_where(joint.has_badge(), &joint, b"_attributes")?;
        let size = self.size_of(&joint)?;
        let paddr = self.value_where(joint.is_device_memory(), &joint, b"_paddr")?;
        let irq = self.value_where(joint.is_device_event(), &joint, b"_irq_number")?;
        Ok(Found {
            joint,
            access,
            badge,
            size,
            paddr,
            irq,
        })
    }

    /// Adds the settings of an end, where it joins an interface, and what was found there if it is judged.
    fn add_end(
        &mut self,
        joint: Option<Joint<'a>>,
        settings: &mut List<EndSetting>,
        judged: &mut Vec<Found<'a>>,
    ) -> Made<()>
        ensures settings { OnOk result ((rest : Seq End) → settings.new ++ map end_setting rest
            ≡ settings.old ++ map end_setting (cons_option (option_map (found_at self.old) joint.entry) rest)) }
        ensures judged { OnOk result ((rest : Seq End) → judged.new.items ++ filter is_judged rest
            ≡ judged.old.items ++ filter is_judged (cons_option (option_map (found_at self.old) joint.entry) rest)) }
        ensures same { self.new ≡ self.old }
    {
        if let Some(joint) = joint {
            let found = self.found_at(joint)?;
            settings.push(found.setting())?;
            if found.is_judged() {
                judged.push(found)?;
            }
        }
        Ok(())
    }

    /// The settings of a connection's ends, and what was found at those that are judged, in place of what stood there.
    pub fn settings_on(
        &mut self,
        source: &'a Source,
        flat: &'a Flat,
        connection: &'a FlatConnection,
        judged: &mut Vec<Found<'a>>,
    ) -> Made<EndSettings>
        ensures settings { IfOk result (λ k. k ≡ end_settings (found_on self.old source.now flat.now connection.now)) }
        ensures judged { OnOk result (judged.new.items
            ≡ filter is_judged (found_on self.old source.now flat.now connection.now)) }
        ensures same { self.new ≡ self.old }
    {
        judged.clear();
        let room = connection.ends.len();
        let mut settings = List::from_vec(Vec::with_capacity(self.alloc, room)?);
        let mut before: u64 = 0;
        for end in connection.ends.as_slice() {
            let joint = joint_of(source, flat, connection, before + 1, *end);
            self.add_end(joint, &mut settings, judged)?;
            if end.role == Role::From {
                before += 1;
            }
        }
        Ok(EndSettings { ends: settings })
    }

    /// The values of the settings of a leaf.
    pub fn leaf_found(&mut self, leaf: &'a Leaf) -> Made<LeafFound<'a>>
        ensures found { IfOk result (λ f. f ≡ leaf_found self.old leaf.entry.now) }
        ensures same { self.new ≡ self.old }
    {
        if leaf.hardware {
            let (priority, stack) = (None, None);
            return Ok(LeafFound {
                leaf,
                priority,
                stack,
            });
        }
        let path = leaf.path.names();
        let priority = self.value_at(path, b"_priority")?;
        let stack = self.value_at(path, b"_stack_size")?;
        Ok(LeafFound {
            leaf,
            priority,
            stack,
        })
    }
}
