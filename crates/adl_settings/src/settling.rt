//! The settings of a flat system, or the first fault of settings.

ghost use Rattle.adl_meaning.specs.Prelude.{AreFew, Refuses, flat_map, flat_of, hierarchy_of, noted};
ghost use Rattle.std.specs.Prelude.{IfOk, OnOk, map, ◌++◌, ◌≡◌};
ghost use Rattle.adl_settings.specs.BadValue.{bad_in_leaf};
ghost use Rattle.adl_settings.specs.DeviceOverlap.{regions};
ghost use Rattle.adl_settings.specs.IrqTwice.{irqs};
ghost use Rattle.adl_settings.specs.Joints.{founds_in};
ghost use Rattle.adl_settings.specs.SettingFaults.{faults_on, first_setting_fault, value_faults};
ghost use Rattle.adl_settings.specs.Settled.{end_settings, leaf_setting, leaves_found, settled_from, settled_of};

use crate::names::names_for;
use crate::search::Lookup;
use crate::tables::setting_tables;
use crate::value_faults::{Judged, note_bad_leaf};
use adl_ast::Source;
use adl_items::Names;
use adl_meaning::{Earliest, EndSettings, Flat, LeafSetting, Settled};
use adl_program::{Bodies, Program, bodies_of};
use cam_base::{Fault, List, Made, Refused};
use indexmap::IndexMap;
use std::alloc::Global;

impl<'t, 'a> Lookup<'t, 'a> {
    /// The settings of all leaves; notes their values that aren't allowed.
    fn settle_leaves(&mut self, flat: &'a Flat, first: &mut Earliest<'a>) -> Made<List<LeafSetting>>
        ensures settings { IfOk result (λ list. list ≡ map leaf_setting (leaves_found self.old flat.now)) }
        ensures noted { OnOk result (first.new ≡ noted first.old (flat_map bad_in_leaf (leaves_found self.old flat.now))) }
        ensures same { self.new ≡ self.old }
    {
        let mut settings = Vec::with_capacity(self.alloc, flat.leaves.len())?;
        for leaf in flat.leaves.as_slice() {
            let found = self.leaf_found(leaf)?;
            note_bad_leaf(&found, first);
            settings.push(found.setting())?;
        }
        Ok(List::from_vec(settings))
    }

    /// The settings of all ends, whose values are judged one connection after the other.
    fn settle_ends(
        &mut self,
        source: &'a Source,
        flat: &'a Flat,
        judged: &mut Judged<'a>,
    ) -> Made<List<EndSettings>>
        ensures settings { IfOk result (λ list. list ≡ map end_settings (founds_in self.old source.now flat.now)) }
        ensures first { OnOk result (judged.new.first
            ≡ noted judged.old.first (flat_map faults_on (founds_in self.old source.now flat.now))) }
        ensures regions { OnOk result (judged.new.regions.items
            ≡ judged.old.regions.items ++ regions (founds_in self.old source.now flat.now)) }
        ensures irqs { OnOk result (judged.new.irqs.items
            ≡ judged.old.irqs.items ++ irqs (founds_in self.old source.now flat.now)) }
    {
        let mut settings = Vec::with_capacity(self.alloc, flat.connections.len())?;
        let mut found = Vec::new(self.alloc);
        for connection in flat.connections.as_slice() {
            let ends = self.settings_on(source, flat, connection, &mut found)?;
            judged.add(self.alloc, found.as_slice())?;
            settings.push(ends)?;
        }
        Ok(List::from_vec(settings))
    }

    /// The settings of all leaves and ends of a flat system, behind what was noted before.
    #[tactic(auto, using(adl_meaning::proofs::Noting::noting))]
    fn settle_flat(
        &mut self,
        source: &'a Source,
        flat: &'a Flat,
        first: Earliest<'a>,
    ) -> Result<Settled, Refused<Fault>>
        ensures fault { Refuses result (noted first.entry
            (value_faults (leaves_found self.old flat.now) (founds_in self.old source.now flat.now))) }
        ensures settled { IfOk result (λ x. x
            ≡ settled_from (leaves_found self.old flat.now) (founds_in self.old source.now flat.now)) }
    {
        let mut judged = Judged {
            first,
            regions: Vec::new(self.alloc),
            irqs: Vec::new(self.alloc),
        };
        let leaves = self.settle_leaves(flat, &mut judged.first)?;
        let connections = self.settle_ends(source, flat, &mut judged)?;
        judged.refuse(self.alloc)?;
        Ok(Settled {
            leaves,
            connections,
        })
    }
}

/// The settings of all leaves and ends of a source with these bodies.
fn settle_bodies<'a>(
    alloc: Global,
    bodies: &Bodies<'a>,
    source: &'a Source,
    flat: &'a Flat,
) -> Result<Settled, Refused<Fault>>
    requires bodies { bodies.now ≡ hierarchy_of source.now }
    requires flat { flat.now ≡ flat_of source.now }
    ensures fault { Refuses result (first_setting_fault source.now) }
    ensures settled { IfOk result (λ x. x ≡ settled_of source.now) }
{
    let mut first = Earliest::none();
    let settings = setting_tables(alloc, bodies, &mut first)?;
    let names = names_for(alloc, bodies, flat.leaves.len())?;
    let mut lookup = Lookup {
        alloc,
        bodies,
        settings,
        names,
        referred: IndexMap::new(alloc),
    };
    lookup.settle_flat(source, flat, first)
}

/// The settings of all leaves and ends of a source, over its program, in the order of the flat system. The source outlives the
/// flat system, which is made behind the program.
///
/// # Errors
///
/// The first fault of settings, or want of memory.
pub fn settle_program<'s: 'f, 'f>(
    alloc: Global,
    program: &Program<'s>,
    source: &'s Source,
    flat: &'f Flat,
) -> Result<Settled, Refused<Fault>>
    requires program { program.now ≡ hierarchy_of source.now }
    requires flat { flat.now ≡ flat_of source.now }
    ensures fault { Refuses result (first_setting_fault source.now) }
    ensures settled { IfOk result (λ x. x ≡ settled_of source.now) }
{
    let bodies = program.bodies();
    settle_bodies(alloc, &*bodies, &*source, flat)
}

/// The settings of all leaves and ends of a source, in the order of the flat system. Its names, which aren't read, say that they
/// were resolved before.
///
/// # Errors
///
/// The first fault of settings, or want of memory.
pub fn settle<'a>(
    alloc: Global,
    source: &'a Source,
    _names: &Names,
    flat: &'a Flat,
) -> Result<Settled, Refused<Fault>>
    requires few { AreFew source.now }
    requires flat { flat.now ≡ flat_of source.now }
    ensures fault { Refuses result (first_setting_fault source.now) }
    ensures settled { IfOk result (λ x. x ≡ settled_of source.now) }
{
    let bodies = bodies_of(alloc, source)?;
    settle_bodies(alloc, &bodies, source, flat)
}
