ghost use Rattle.cap_model.specs.Lessened.{both_rights};
ghost use Rattle.cap_model.specs.RightsWord.{has_rights, rights_word};
ghost use Rattle.std.specs.Prelude.{◌≡◌, false};

/// The rights of a capability. In texts they are the letters R, W, G and P, in this order.
#[derive(Clone, Copy, Debug, PartialEq, Eq)]
pub struct Rights {
    pub read: bool,
    pub write: bool,
    pub grant: bool,
    pub reply: bool,
}

impl Rights {
    /// No rights.
    pub fn none() -> Rights
        ensures { result ≡ record { read = false; write = false; grant = false; reply = false } }
    {
        Rights {
            read: false,
            write: false,
            grant: false,
            reply: false,
        }
    }

    /// The meet: the rights that stand in both.
    pub fn both(self, other: Rights) -> Rights
        ensures { result ≡ both_rights self other }
    {
        Rights {
            read: self.read && other.read,
            write: self.write && other.write,
            grant: self.grant && other.grant,
            reply: self.reply && other.reply,
        }
    }

    /// Whether there is any right.
    pub fn any(self) -> bool
        ensures { result ≡ has_rights self }
    {
        self.read || self.write || self.grant || self.reply
    }

    /// The letters of the rights, empty where there is none.
    pub fn word(self) -> &'static [u8]
        ensures { result.now ≡ rights_word self }
    {
        match (self.read, self.write, self.grant, self.reply) {
            (false, false, false, false) => b"",
            (false, false, false, true) => b"P",
            (false, false, true, false) => b"G",
            (false, false, true, true) => b"GP",
            (false, true, false, false) => b"W",
            (false, true, false, true) => b"WP",
            (false, true, true, false) => b"WG",
            (false, true, true, true) => b"WGP",
            (true, false, false, false) => b"R",
            (true, false, false, true) => b"RP",
            (true, false, true, false) => b"RG",
            (true, false, true, true) => b"RGP",
            (true, true, false, false) => b"RW",
            (true, true, false, true) => b"RWP",
            (true, true, true, false) => b"RWG",
            (true, true, true, true) => b"RWGP",
        }
    }
}
