/// An end by number: its connection, and its place among the connection's ends.
#[derive(Clone, Copy)]
pub struct EndAt {
    pub connection: u32,
    pub end: u32,
}
