ghost use Rattle.cam_base.specs.Texts.{together};
ghost use Rattle.std.specs.Prelude.{◌≡◌, ◌++◌, map, IfOk, OnOk};

use cam_base::{List, Made, Text};
use std::alloc::Global;

/// The number and the name of a label.
pub type Label = (u32, Text);

/// The cells of a row of a table.
pub type Row = List<Text>;

/// Puts several texts at the end of a text.
pub fn add(text: &mut List<u8>, parts: &[&[u8]]) -> Made<()>
    ensures { OnOk result (text.new ≡ text.old ++ together (map (λ p. p.now) parts.now)) }
{
    for part in parts {
        text.extend(part)?;
    }
    Ok(())
}

/// Several texts, one behind another.
pub fn join(alloc: Global, parts: &[&[u8]]) -> Made<List<u8>>
    ensures { IfOk result (λ text. text ≡ together (map (λ p. p.now) parts.now)) }
{
    let mut text = List::new(alloc);
    add(&mut text, parts)?;
    Ok(text)
}
