//! The images of a source's software, read from the section tables beside its root, and their sections in address spaces.
//!
//! The types of software stand in `specs/Types.antt`, the names of their tables and what is found under them in
//! `specs/Found.antt`, the faults in `specs/TableFaults.antt`, the images in `specs/ImagesRead.antt`. Which sections a domain
//! has stands in `specs/Images.antt`, whether they lie apart and where sections may in `specs/SpaceFaults.antt`, their pages in
//! `specs/SectionPages.antt` and `specs/ByAddress.antt`, and what callers have to know in `specs/Numbered.antt`.
#![tactic(auto)]

mod clashes;
mod faults;
mod images;
mod laws;
mod merge;
mod missing;
mod pages;
mod read;
mod reading;
mod section_laws;
mod sections;
mod tables;
mod types;

pub use faults::first_space_fault;
pub use images::{Images, sections_end};
pub use laws::{answers_are_one, images_are_numbered, images_are_sound};
pub use pages::{SectionPage, section_page_count, section_pages};
pub use read::read_images;
pub use section_laws::sections_lie_apart;
