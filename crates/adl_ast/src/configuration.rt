use crate::{Dotted, Id, Value};
use cam_base::{List, Place};

/// The settings of an assembly or a component. Its place is that of the keyword.
#[derive(Drop)]
pub struct Configuration {
    pub place: Place,
    pub settings: List<Setting>,
}

/// A setting. Its place runs from the first word of its dotted name to the end of the last.
#[derive(Drop)]
pub struct Setting {
    /// The words of the dotted name, two or more.
    pub words: Dotted,
    pub setter: Setter,
    pub place: Place,
}

/// What a setting gives: a value, or that of an attribute.
#[derive(Drop)]
pub enum Setter {
    Literal(Value),
    Reference(Id),
}
