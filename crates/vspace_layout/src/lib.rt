//! The address spaces of a system: the threads of each domain with their stacks and buffers, the windows onto memory that is
//! shared or a device's, the pages that are mapped, and the frames behind them.
//!
//! `lay_spaces` counts all pages before it lists any, and takes time near linear in pages, ends and connections. Nothing
//! here makes an object or a capability. Threads stand in `specs/Threads.antt`, regions in `specs/Regions.antt`, the
//! memory of connections in `specs/Memory.antt`, pages in `specs/MappedPages.antt`, frames in `specs/Frames.antt`, the whole
//! in `specs/Laid.antt`, the limits in `specs/PageLimits.antt`; the faults of sections are those of `source_images`.
#![tactic(auto)]

mod counts;
mod frames;
mod laws;
mod lay;
mod mapped;
mod memory;
mod memory_frames;
mod outline;
mod owner;
mod ports;
mod region;
mod spaces;
mod starts;
mod thread;

pub use laws::{
    addresses_are_low, frames_stand_at_their_numbers, limits_are_told_in_order, pages_are_counted,
    pages_rise, regions_and_frames_are_few, regions_are_apart, sections_stand_apart,
    spaces_are_laid_by_domain,
};
pub use lay::{lay_apart, lay_spaces};
pub use owner::Owner;
pub use source_images::{Images, first_space_fault};
pub use spaces::{FrameInfo, Page, Space, Spaces, ThreadPlace, Window};
