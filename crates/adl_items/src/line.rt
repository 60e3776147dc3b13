//! What a line of a composition has.

ghost use Rattle.adl_meaning.specs.Prelude.{instances_by};
ghost use Rattle.std.specs.Prelude.{◌≡◌};

use adl_ast::{Instance, Line};

/// The instances of a line, of which only a group has more than one.
pub fn instances_by(line: &Line) -> &[Instance]
    ensures { result.now ≡ instances_by line.now }
{
    match line {
        Line::Instance(instance) => std::slice::from_ref(instance),
        Line::Group(group) => group.instances.as_slice(),
        _ => &[],
    }
}
