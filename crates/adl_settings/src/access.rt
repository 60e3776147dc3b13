/// What an end may do with the memory that it joins.
#[derive(Clone, Copy)]
pub struct Access {
    pub read: bool,
    pub write: bool,
}
