ghost use Rattle.arch_compile.specs.BuildTexts.{AreUnbegun, cert_acts, capdl_acts, map_acts, policy_acts, texts_script};
ghost use Rattle.cam_io.specs.Scripts.{Acts};
ghost use Rattle.std.specs.Prelude.{◌≡◌, false};

use crate::{Build, Summary, TextNames, write_map, write_summary};
use cam_io::{Outputs, Writer, Written};
use cap_model::{EdgeTable, Policy, Spec};
use capdl_write::write_spec;
use policy_text::{write_cert, write_policy};

/// Writes the texts of a build under these names, on channels 2 to 5, and then the summary on standard output. None of the
/// channels 2 to 5 may be begun. Takes no memory.
pub fn write_texts<O: Outputs>(names: &TextNames, build: &Build, out: &mut O) -> Written
    requires { AreUnbegun (O.sink out.old) }
    ensures { Acts (texts_script names.now build.now) result (O.sink out.old) (O.sink out.new) (O.faults out.old)
        (O.faults out.new) }
{
    write_capdl(names.capdl.as_str(), &build.spec, out)?;
    write_rules(names.policy.as_str(), &build.policy, out)?;
    write_certificate(names.certificate.as_str(), &build.cert, out)?;
    write_places(names.map.as_str(), build, out)?;
    let summary = Summary::of(&build.meaning.flat, &build.spec, &build.policy.edges);
    let mut to = Writer::new(out, 0);
    write_summary(summary, &mut to);
    to.flush()
}

fn write_capdl<O: Outputs>(name: &str, spec: &Spec, out: &mut O) -> Written
    requires { (O.sink out.old).begun 2 ≡ false }
    ensures { Acts (capdl_acts name.now spec.now) result (O.sink out.old) (O.sink out.new) (O.faults out.old) (O.faults out.new) }
{
    out.begin(2, name)?;
    write_spec(spec, out, 2)
}

fn write_rules<O: Outputs>(name: &str, policy: &Policy, out: &mut O) -> Written
    requires { (O.sink out.old).begun 3 ≡ false }
    ensures { Acts (policy_acts name.now policy.now) result (O.sink out.old) (O.sink out.new) (O.faults out.old)
        (O.faults out.new) }
{
    out.begin(3, name)?;
    write_policy(policy, out, 3)
}

fn write_certificate<O: Outputs>(name: &str, cert: &EdgeTable, out: &mut O) -> Written
    requires { (O.sink out.old).begun 4 ≡ false }
    ensures { Acts (cert_acts name.now cert.now) result (O.sink out.old) (O.sink out.new) (O.faults out.old) (O.faults out.new) }
{
    out.begin(4, name)?;
    write_cert(cert, out, 4)
}

fn write_places<O: Outputs>(name: &str, build: &Build, out: &mut O) -> Written
    requires { (O.sink out.old).begun 5 ≡ false }
    ensures { Acts (map_acts name.now build.now) result (O.sink out.old) (O.sink out.new) (O.faults out.old) (O.faults out.new) }
{
    out.begin(5, name)?;
    write_map(build, out, 5)
}
