ghost use Rattle.std.specs.Prelude.{◌≡◌, ◌+◌};

/// Whole pages of a key: from the first on, so many.
#[derive(Clone, Copy)]
pub struct Region {
    pub key: (u32, u32),
    /// The place at which it begins, in the unit of `count`.
    pub first: u64,
    pub count: u64,
}

impl Region {
    /// The place behind its last.
    pub fn end(&self) -> u128
        ensures { result ≡ self.now.first + self.now.count }
    {
        self.first as u128 + self.count as u128
    }
}
