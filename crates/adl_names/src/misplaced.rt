//! Members that a composite, a device or a plain component can't have.

ghost use Rattle.adl_meaning.specs.Prelude.{composite_bodies, noted};
ghost use Rattle.std.specs.Prelude.{◌≡◌};

use crate::bodies::{Body, SourceTables};
use adl_ast::Member;
use adl_items::is_device;
use adl_meaning::Earliest;
use cam_base::Code;

/// Notes the misplaced members of all components.
#[tactic(auto, using(std::proofs::lemmas::Grind::common_steps, crate::proofs::BodyLists::composite_walks))]
pub fn note_misplaced<'a>(tables: &SourceTables<'a>, first: &mut Earliest<'a>)
    ensures { first.new ≡ noted first.old (composite_bodies tables.now) }
{
    for body in tables.bodies() {
        if let Body::Component(table) = body {
            let composite = table.holding().is_some();
            let device = is_device(table.component);
            for member in table.component.members.as_slice() {
                let (is_wrong, place) = match member {
                    Member::Control(place) => (composite || device, *place),
                    Member::Hardware(place) => (composite, *place),
                    Member::Lock(it) => (composite || device, it.id.place()),
                    Member::Configuration(it) => (!composite, it.place),
                    _ => continue,
                };
                first.note(is_wrong, Code::CompositeBody, place, b"");
            }
        }
    }
}
