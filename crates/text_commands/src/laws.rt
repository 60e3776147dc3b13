//! Laws of the commands. These functions do nothing: what they ensure is the law.

ghost use Rattle.cap_model.specs.Tables.{Has};
ghost use Rattle.authorities.specs.declared.authority.Authority.{Authority};
ghost use Rattle.cap_model.specs.declared.edge.Edge.{Edge};
ghost use Rattle.cap_model.specs.declared.policy.Policy.{Policy as Allowed};
ghost use Rattle.cam_base.specs.declared.error.Refused.{Refused};
ghost use Rattle.cam_base.specs.declared.error.Refused.TheVariants as refused;
ghost use Rattle.cam_base.specs.declared.place.Fault.{Fault as Wrong};
ghost use Rattle.cam_io.specs.Contents.{Contents};
ghost use Rattle.cap_audit.specs.declared.report.AuditReport.{AuditReport};
ghost use Rattle.cap_machine.specs.declared.step.Step.{Step};
ghost use Rattle.cap_model.specs.declared.spec.Spec.{Spec};
ghost use Rattle.cert_check.specs.declared.verdict.Verdict.TheVariants.{Yes};
ghost use Rattle.policy_text.specs.EdgeLines.{LabelNames};
ghost use Rattle.sect_table.specs.TablesBack.{AreBytes};
ghost use Rattle.sect_table.specs.Tables as tables;
ghost use Rattle.sect_table.specs.declared.image.Image.{Image};
ghost use Rattle.std.specs.List.{All};
ghost use Rattle.std.specs.Prelude.{◌≡◌, ◌<◌, ◌≤◌, ◌⊎◌, ◌^◌, ◌++◌, ℕ, List, length, Result as Answer, Ok as Found, Err as Refusal};
ghost use Rattle.step_text.specs.Readable.{IsReadable};
ghost use Rattle.step_text.specs.StepLines.{steps_text};
ghost use Rattle.text_commands.specs.Commands.{IsAudited, IsCert, IsCertified, IsChecked, IsPlanned, IsPolicy, IsRun, IsTabled};
ghost use Rattle.text_commands.specs.Inputs.{Holds};
ghost use Rattle.text_commands.specs.OneAnswer.{AreOne, AreOneButChoice, IsAnswer};
ghost use Rattle.text_commands.specs.Outcomes.{text_of};
ghost use Rattle.text_commands.specs.InputErrors.{InputError};
ghost use Rattle.text_commands.specs.declared.outcome.Outcome.{Outcome};
ghost use Rattle.text_commands.specs.declared.outcome.Outcome.TheVariants.{Audited, Certified, Checked, Ran, Tabled};
ghost use Rattle.text_commands.specs.declared.replay.Replayed.TheVariants.{Done};

/// For the same contents each command has one answer, aside from read faults and want of memory: one outcome and no fault, or
/// one fault and no outcome. An audit may show its edges by other steps, and a plan may have other places.
pub fn answers_are_one()
    ensures checked { (m : Contents) (old new later last : List ℕ → ℕ) (cdl policy cert : List ℕ)
        → AreOne (IsChecked m old new cdl policy cert) (IsChecked m later last cdl policy cert) }
    ensures ran { (m : Contents) (old new later last : List ℕ → ℕ) (cdl policy steps : List ℕ)
        → AreOne (IsRun m old new cdl policy steps) (IsRun m later last cdl policy steps) }
    ensures tabled { (m : Contents) (old new later last : List ℕ → ℕ) (elf : List ℕ)
        → AreOne (IsTabled m old new elf) (IsTabled m later last elf) }
    ensures certified { (m : Contents) (old new later last : List ℕ → ℕ) (cdl policy : List ℕ)
        → AreOne (IsCertified m old new cdl policy) (IsCertified m later last cdl policy) }
    ensures audited { (m : Contents) (old new later last : List ℕ → ℕ) (cdl policy : List ℕ)
        → AreOneButChoice (IsAudited m old new cdl policy) (IsAudited m later last cdl policy) }
    ensures planned { (m : Contents) (old new later last : List ℕ → ℕ) (cdl untypeds : List ℕ)
        → AreOneButChoice (IsPlanned m old new cdl untypeds) (IsPlanned m later last cdl untypeds) }
{}

/// Where contents hold what `certify` prints of a capDL and a policy, it is read, under that policy, as the least certificate,
/// and `check` says yes to it where it says yes to any certificate.
pub fn certificates_are_read_back()
    ensures back { (m : Contents) (old new later last : List ℕ → ℕ) (cdl policy cert : List ℕ) (least : List Edge)
        (allowed : Allowed)
        → IsCertified m old new cdl policy (Found (Certified least)) → Holds m cert (text_of (Certified least))
        → IsPolicy m later last policy (Found allowed) → IsCert m later last allowed cert (Found least) }
    ensures decides { (m : Contents) (old new later last : List ℕ → ℕ) (cdl policy cert other : List ℕ) (least : List Edge)
        (names : LabelNames)
        → IsCertified m old new cdl policy (Found (Certified least)) → Holds m cert (text_of (Certified least))
        → IsChecked m later last cdl policy other (Found (Checked Yes names))
        → IsChecked m later last cdl policy cert (Found (Checked Yes names)) }
{}

/// The table that `sections` prints of a file of bytes is read as the image of the file, under the name that it is read for,
/// unless memory runs out.
pub fn tables_are_read_back()
    ensures { (m : Contents) (old new : List ℕ → ℕ) (elf bytes : List ℕ) (image : Image)
        → IsTabled m old new elf (Found (Tabled image)) → Holds m elf bytes → AreBytes bytes
        → (file : ℕ) (name : List ℕ) (answer : Answer Image (Refused Wrong))
        → tables.IsRead file name (text_of (Tabled image)) answer
        → (answer ≡ Found (record image { name = name })) ⊎ (answer ≡ Refusal refused.NoMemory) }
{}

/// The steps that `audit` prints can be read back. Where contents hold them, and they are at most 100,000, `replay` says that
/// all of them were made; and each edge that `audit` prints is one that `replay` prints for some front of the steps.
pub fn audits_are_replayed()
    ensures readable { (m : Contents) (old new : List ℕ → ℕ) (cdl policy : List ℕ) (report : AuditReport) (spec : Spec)
        (names : LabelNames) → IsAudited m old new cdl policy (Found (Audited report spec names)) → length report.steps < 2 ^ 63
        → All (IsReadable spec) report.steps }
    ensures replayed { (m : Contents) (old new later last : List ℕ → ℕ) (cdl policy : List ℕ) (report : AuditReport) (spec : Spec)
        (names : LabelNames) → IsAudited m old new cdl policy (Found (Audited report spec names)) → length report.steps ≤ 100000
        → (steps : List ℕ) (answer : Answer Outcome InputError) → Holds m steps (steps_text spec report.steps) → IsAnswer answer
        → IsRun m later last cdl policy steps answer
        → (edges : List Edge) × (answer ≡ Found (Ran (Done (length report.steps) edges) names)) }
    ensures shown { (m : Contents) (old new later last : List ℕ → ℕ) (cdl policy : List ℕ) (report : AuditReport) (spec : Spec)
        (names : LabelNames) → IsAudited m old new cdl policy (Found (Audited report spec names)) → length report.steps ≤ 100000
        → (l : ℕ) (a : Authority) (x : ℕ) → Has report.edges l a x
        → (front back : List Step) × (report.steps ≡ front ++ back)
        × ((steps : List ℕ) (answer : Answer Outcome InputError) → Holds m steps (steps_text spec front) → IsAnswer answer
        → IsRun m later last cdl policy steps answer
        → (edges : List Edge) × (answer ≡ Found (Ran (Done (length front) edges) names)) × Has edges l a x) }
{}
