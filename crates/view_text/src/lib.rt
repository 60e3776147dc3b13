//! Faults and policies as they are shown: the line of a fault with its bytes marked, or as editors read it; a policy as a graph
//! or a picture; tables and escaped texts of HTML.
//!
//! What a line and a column are, and what is shown of a fault, is in `specs/Spots.antt`; the text of a graph in
//! `specs/Graphs.antt`, that of a picture in `specs/Pictures.antt`, and what stands in HTML in `specs/Html.antt`. Nothing here
//! reads or writes.
#![tactic(auto)]

mod graph;
mod html;
mod laws;
mod lint;
mod picture;
mod place;
mod shape;
mod spot;
mod texts;
mod view;

pub use graph::{graph_of, note_at};
pub use html::{add_escaped, add_table, add_tagged};
pub use laws::escaped_texts_are_plain;
pub use lint::lint_line;
pub use picture::picture_of;
pub use shape::{Shape, shape_at};
pub use spot::{Range, read_spot};
pub use texts::{Label, Row, add, join};
pub use view::view_of;

/// The most bytes of a file that is shown.
pub const LIMIT: u64 = 67_108_864;
