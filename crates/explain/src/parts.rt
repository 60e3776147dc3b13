ghost use Rattle.cam_base.specs.Texts.{together};
ghost use Rattle.std.specs.List.{flat_map};
ghost use Rattle.std.specs.Prelude.{◌≡◌, ◌++◌, map, IfOk, OnOk};

use cam_base::{List, Made, Text};
use std::alloc::Global;

fn push_all(parts: &[&[u8]], bytes: &mut List<u8>) -> Made<()>
    ensures { OnOk result (bytes.new ≡ bytes.old ++ flat_map (λ p. p.now) parts.now) }
{
    for part in parts {
        bytes.extend(part)?;
    }
    Ok(())
}

/// Several pieces, one behind another.
#[tactic(auto, using(crate::proofs::Joined::row_is_together))]
pub fn together(alloc: Global, parts: &[&[u8]]) -> Made<Text>
    ensures { IfOk result (λ text. text ≡ together (map (λ p. p.now) parts.now)) }
{
    let mut bytes = List::new(alloc);
    push_all(parts, &mut bytes)?;
    Ok(Text::from_vec(bytes.into_vec()))
}
