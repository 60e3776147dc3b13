ghost use Rattle.cap_model.specs.Lessened.{lessened};
ghost use Rattle.std.specs.Prelude.{◌≡◌};

use crate::Rights;

/// A capability to an object of the spec, which is named by its place. The badge is 0 where there is none.
#[derive(Clone, Copy, Debug)]
pub struct Cap {
    pub object: u32,
    pub rights: Rights,
    pub badge: u64,
}

impl Cap {
    /// The capability with those of its rights that are among these. Object and badge stay.
    pub fn lessened(self, rights: Rights) -> Cap
        ensures { result ≡ lessened self rights }
    {
        Cap {
            object: self.object,
            rights: self.rights.both(rights),
            badge: self.badge,
        }
    }
}
