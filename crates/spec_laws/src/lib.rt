//! What the spec and the map of a system have to do with its source. There is no code here.
//!
//! The slots of a system are told in `specs/Slotted.antt`, and its images in `specs/Imaged.antt`: its spaces in
//! `specs/Spaced.antt`, threads in `specs/Threaded.antt`, regions in `specs/Regioned.antt`, frames in `specs/Framed.antt` and
//! labels in `specs/Labelled.antt`. That names say kinds is in `specs/Kinded.antt`, and what stands before what in
//! `specs/Ordered.antt`. What they ask of a system is in `specs/CanMap.antt`.
//!
//! The boot edges between different labels are just those that ends of connections are given (`edge_laws.rt`, over
//! `specs/Connected.antt`): so the certificate of such a system is valid, and what its threads can reach is what has a reason.
//!
//! The spec keeps what every spec keeps, and can be written and read back (`kept_laws.rt`). What is asked of its tables stands
//! in `specs/Fit.antt`, their limits in `specs/Sized.antt`, and what a text asks in `specs/Written.antt`. What layouts keep, so
//! that their tables keep the last two, stands in `specs/Limited.antt` and `specs/Plain.antt`.
//!
//! The other files promise what these laws, the layouts and the spec ask of each source in which no fault stands and no limit is
//! passed.
#![tactic(auto)]

mod bound_laws;
mod connected_laws;
mod edge_laws;
mod kept_laws;
mod laws;
mod mapped_laws;
mod source_laws;

pub use bound_laws::{
    layouts_are_limited, layouts_are_plain, maps_can_be_listed, programs_have_images,
    read_images_are_plain, spaces_can_be_laid, specs_can_be_built, tables_are_fit,
};
pub use connected_laws::tables_are_connected;
pub use edge_laws::{
    certificates_are_least, certificates_are_valid, laid_out_specs_hold_plain,
    laid_out_specs_take_plain_steps, reached_edges_are_reasoned, specs_are_laid_out,
};
pub use kept_laws::{
    names_differ, objects_are_few, specs_are_kept, specs_are_writable, tables_are_sized,
    tables_are_written,
};
pub use laws::{
    all_frames_are_mapped, domains_have_their_lines, domains_have_their_roots,
    frames_stand_in_order, images_are_those_of_the_system, labels_are_of_owners, names_say_kinds,
    other_frames_are_mapped_once, pages_stand_where_they_are_mapped,
    regions_stand_where_they_are_laid, slots_are_those_of_the_system, tables_stand_in_order,
    tables_stand_where_pages_are_mapped, threads_are_those_of_the_system, windows_show_one_memory,
};
pub use mapped_laws::{tables_can_map, tables_have_slots};
pub use source_laws::flat_systems_have_their_devices;
