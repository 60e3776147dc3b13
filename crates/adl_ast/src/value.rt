use cam_base::{List, Place, Text};

/// A value of a setting or an attribute. Its place runs from its first token to the end of its last.
#[cycle(value)]
#[derive(Drop)]
pub struct Value {
    pub kind: ValueKind,
    pub place: Place,
}

/// What a value is. A text stands without its quotes.
#[cycle(value)]
#[derive(Drop)]
pub enum ValueKind {
    Number(u64),
    Text(Text),
    Items(List<Value>),
    Dictionary(List<(Text, Value)>),
}
