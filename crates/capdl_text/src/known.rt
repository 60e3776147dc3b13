use cap_model::Kind;

/// What a name stands for: the place of the object among all, its kind, and how many slots it has, where it has any.
#[derive(Clone, Copy)]
pub struct Known {
    pub place: usize,
    pub kind: Kind,
    pub size: Option<u64>,
}
