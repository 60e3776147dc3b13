ghost use Rattle.cam_io.specs.Sinks.{IsOpen, Writes};
ghost use Rattle.std.specs.Prelude.{◌≡◌};
ghost use Rattle.text_commands.specs.Outcomes.{is_well, text_of};

use crate::Replayed;
use crate::kept::KeptSpec;
use crate::lines::{write_illegal, write_refusal, write_report, write_run};
use boot_plan::{BootPlan, write_plan};
use cam_io::{Outputs, Written, write_all};
use cap_audit::AuditReport;
use cap_model::{EdgeTable, Spec};
use cert_check::Verdict;
use policy_text::{Names, write_cert};
use sect_table::{Image, write_sections};

/// What a command over texts has to say. Edges are told by the names of labels.
#[derive(Drop)]
pub enum Outcome {
    /// The checker's verdict.
    Checked {
        verdict: Verdict,
        names: Names,
    },
    /// What steps lead to.
    Ran {
        replayed: Replayed,
        names: Names,
    },
    /// The image of an ELF file.
    Tabled {
        image: Image,
    },
    /// The edges that runs of a system reach, with steps that show each.
    Audited {
        report: AuditReport,
        spec: Spec,
        names: Names,
    },
    /// The least certificate.
    Certified {
        cert: EdgeTable,
    },
    /// The places of a system's objects.
    Planned {
        plan: BootPlan,
        spec: KeptSpec,
    },
}

impl Outcome {
    /// Whether the answer is the one that was hoped for: the rules hold, or all steps are legal.
    pub fn is_well(&self) -> bool
        ensures { result ≡ is_well self.now }
    {
        match self {
            Outcome::Checked { verdict, .. } => matches!(verdict, Verdict::Yes),
            Outcome::Ran { replayed, .. } => matches!(replayed, Replayed::Done { .. }),
            Outcome::Tabled { .. }
            | Outcome::Audited { .. }
            | Outcome::Certified { .. }
            | Outcome::Planned { .. } => true,
        }
    }

    /// Writes what there is to say to an open channel. Takes no memory.
    pub fn write<O: Outputs>(&self, out: &mut O, channel: u8) -> Written
        requires { IsOpen (O.sink out.old) channel }
        ensures { Writes result channel (text_of self.now) (O.sink out.old) (O.sink out.new) (O.faults out.old)
            (O.faults out.new) }
    {
        match self {
            Outcome::Checked { verdict, names } => match verdict {
                Verdict::Yes => write_all(out, channel, b"yes\n"),
                Verdict::No { rule, have, lack } => {
                    write_refusal(*rule, have, lack, names, out, channel)
                }
            },
            Outcome::Ran { replayed, names } => match replayed {
                Replayed::Done { count, edges } => write_run(*count, edges, names, out, channel),
                Replayed::Illegal { number, why } => write_illegal(*number, *why, out, channel),
            },
            Outcome::Tabled { image } => write_sections(image, out, channel),
            Outcome::Audited {
                report,
                spec,
                names,
            } => write_report(report, spec, names, out, channel),
            Outcome::Certified { cert } => write_cert(cert, out, channel),
            Outcome::Planned { plan, spec } => write_plan(spec.spec(), plan, out, channel),
        }
    }
}
