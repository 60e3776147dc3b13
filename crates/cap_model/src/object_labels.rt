ghost use Rattle.cap_model.specs.ObjectLabels.{label_of};
ghost use Rattle.std.specs.Prelude.{◌≡◌};

use cam_base::List;

/// The label of each object, by its place in the spec.
#[derive(Drop)]
pub struct Labels {
    pub by_object: List<u32>,
}

impl Labels {
    /// The label of an object, 0 where it has none. Takes no memory.
    pub fn of(&self, object: u32) -> u32
        ensures { result ≡ label_of self.now.by_object object }
    {
        match self.by_object.as_slice().get(object as usize) {
            Some(label) => *label,
            None => 0,
        }
    }
}
