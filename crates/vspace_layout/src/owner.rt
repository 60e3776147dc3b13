/// Whose a thing is: a domain's, a connection's, or a device's, each by its number. A device's is that of its leaf.
#[derive(Clone, Copy)]
pub enum Owner {
    OfDomain(u32),
    OfConnection(u32),
    OfLeaf(u32),
}
