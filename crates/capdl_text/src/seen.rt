use crate::{Kind, Span};
use cam_base::Text;

/// A token with its bytes: what the grammar sees of it. Definitions alone speak of it; readers keep the bytes apart.
#[derive(Drop)]
pub struct Seen {
    pub kind: Kind,
    pub text: Text,
    pub place: Span,
}
