ghost use Rattle.arch_compile.specs.BuildTexts.{AreNamedBy};
ghost use Rattle.std.specs.Prelude.{◌≡◌, ◌++◌, string_bytes, IfOk};

use cam_base::Made;
use std::alloc::Global;

/// The names of the files that a build is written to.
#[derive(Drop)]
pub struct TextNames {
    pub capdl: String,
    pub policy: String,
    pub certificate: String,
    pub map: String,
}

impl TextNames {
    /// Those of this base: `BASE.cdl`, `BASE.policy`, `BASE.cert` and `BASE.map`.
    pub fn of(alloc: Global, base: &str) -> Made<TextNames>
        ensures { IfOk result (AreNamedBy base.now) }
    {
        Ok(TextNames {
            capdl: joined(alloc, base, ".cdl")?,
            policy: joined(alloc, base, ".policy")?,
            certificate: joined(alloc, base, ".cert")?,
            map: joined(alloc, base, ".map")?,
        })
    }
}

fn joined(alloc: Global, base: &str, ending: &str) -> Made<String>
    ensures { IfOk result (λ name. string_bytes name ≡ base.now ++ ending.now) }
{
    let mut name = String::from_str(alloc, base)?;
    name.push_str(ending)?;
    Ok(name)
}
