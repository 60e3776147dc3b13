//! Laws of specs. These functions do nothing: what they ensure is the law.

ghost use Rattle.adl_ast.specs.declared.source.Source.{Source};
ghost use Rattle.adl_meaning.specs.declared.flat.Flat.{Flat as System};
ghost use Rattle.adl_meaning.specs.declared.settled.Settled.{Settled as Settings};
ghost use Rattle.cap_model.specs.Kept.{IsKept};
ghost use Rattle.capdl_write.specs.Writable.{IsWritable};
ghost use Rattle.capdl_text.specs.Limits.{most_caps, most_objects};
ghost use Rattle.source_images.specs.declared.images.Images.{Images};
ghost use Rattle.spec_laws.specs.Fit.{IsFit};
ghost use Rattle.spec_laws.specs.Limited.{IsLimited};
ghost use Rattle.spec_laws.specs.Plain.{IsPlain};
ghost use Rattle.spec_laws.specs.Sized.{IsSized, cap_count, cap_sum, object_sum};
ghost use Rattle.spec_laws.specs.Written.{IsWritten};
ghost use Rattle.std.specs.Prelude.{◌≡◌, ◌≤◌, ℕ, Some, length, slice_get, sum};
ghost use Rattle.system_spec.specs.Made.{part_name, spec_of};
ghost use Rattle.system_spec.specs.Parts.{parts};
ghost use Rattle.system_spec.specs.Tables.{Tables};
ghost use Rattle.system_spec.specs.TablesFrom.{tables_from};
ghost use Rattle.system_spec.specs.declared.part.Part.{Part};
ghost use Rattle.vspace_layout.specs.CanLay.{CanLay};
ghost use Rattle.vspace_layout.specs.Given.{given};
ghost use Rattle.vspace_layout.specs.PageLimits.{page_counts};

/// What is made keeps what each spec keeps: there are few objects, no two have one name, each has what its kind asks, and
/// the lines of interrupts rise by number, each to an interrupt of its own.
pub fn specs_are_kept()
    ensures { (t : Tables) → IsFit t → IsKept (spec_of t) }
{}

/// There are no more objects and capabilities than domains, threads, connections, slots, pages, page tables and frames come
/// to, and within the limits of those, no more than a text may have.
pub fn objects_are_few()
    ensures objects { (t : Tables) → length (spec_of t).entries ≤ object_sum t }
    ensures caps { (t : Tables) → cap_count (spec_of t) ≤ cap_sum t }
    ensures few_objects { (t : Tables) → IsSized t → length (spec_of t).entries ≤ most_objects }
    ensures few_caps { (t : Tables) → IsSized t → cap_count (spec_of t) ≤ most_caps }
{}

/// What is made can be written, and what is written is read back, within the limits of slots, threads, page tables and frames,
/// where numbers have 64 bits and programs have names.
pub fn specs_are_writable()
    ensures { (t : Tables) → IsFit t → IsSized t → IsWritten t → IsWritable (spec_of t) }
{}

/// The names of parts tell their places.
pub fn names_differ()
    ensures { (t : Tables) (m n : ℕ) (p q : Part) → IsFit t → slice_get (parts t) m ≡ Some p → slice_get (parts t) n ≡ Some q
        → part_name p ≡ part_name q → m ≡ n }
{}

/// What is laid out within the limits is sized: a thread has two pages at least, and each frame is mapped by a page.
pub fn tables_are_sized()
    ensures { (source : Source) (flat : System) (settled : Settings) (images : Images)
        → IsLimited (given source flat settled images) → IsSized (tables_from source flat settled images) }
{}

/// What is laid out plainly, within the limit on pages, has numbers of 64 bits and names of programs.
pub fn tables_are_written()
    ensures { (source : Source) (flat : System) (settled : Settings) (images : Images)
        → IsPlain (given source flat settled images) → CanLay (given source flat settled images)
        → sum (page_counts (given source flat settled images)) ≤ 65536 → IsWritten (tables_from source flat settled images) }
{}
