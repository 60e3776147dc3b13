/// Whose a thing is, and what has a label: a domain, a connection, or a device by its leaf, each by its number.
#[derive(Clone, Copy)]
pub enum Owner {
    OfDomain(u32),
    OfConnection(u32),
    OfLeaf(u32),
}
