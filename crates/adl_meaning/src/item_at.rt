/// Where an item stands in a source: the number of its file, and its number among the items of that file.
#[derive(Clone, Copy)]
pub struct ItemAt {
    pub file: u32,
    pub item: u32,
}
