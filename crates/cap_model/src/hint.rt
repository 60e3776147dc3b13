/// Where in a table an edge was found last: what stands near is found there without a search. The answers are the same
/// with any hint.
#[derive(Clone, Copy)]
pub struct Hint {
    /// The number of rows that begin at the edge or before it.
    pub(crate) past: usize,
}

impl Hint {
    /// The hint of the first edge.
    pub fn first() -> Hint {
        Hint { past: 1 }
    }
}
