/// What a text is to be.
#[derive(Clone, Copy)]
pub enum Kind {
    Policy,
    Certificate,
}
