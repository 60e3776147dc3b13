//! Regions of untyped memory, and what can be wrong with a text of them.

ghost use Rattle.boot_plan.specs.Regions.{is_region, region_end, shares};
ghost use Rattle.boot_plan.specs.Rooms.{rank};
ghost use Rattle.boot_plan.specs.UntypedTexts.{title_of, word_of};
ghost use Rattle.std.specs.Prelude.{◌≡◌, ◌^◌, nat_lt, true};

/// A region of untyped memory.
#[derive(Clone, Copy, Debug, PartialEq, Eq)]
pub struct Untyped {
    /// Its first address, a multiple of its size.
    pub paddr: u64,
    /// Its size, as a power of two.
    pub bits: u8,
    /// Whether it is memory of a device.
    pub device: bool,
}

#[tactic(auto, using(crate::proofs::Powers::powers))]
fn is_below_power(n: u64, bits: u8) -> bool
    ensures { result ≡ nat_lt n (2 ^ bits) }
{
    bits >= 64 || n < 1 << bits
}

impl Untyped {
    /// Whether an address stands in front of its end.
    fn ends_behind(self, address: u64) -> bool
        ensures { result ≡ nat_lt address (region_end self) }
    {
        address < self.paddr || is_below_power(address - self.paddr, self.bits)
    }

    /// Whether the two share an address.
    pub fn shares(self, other: Untyped) -> bool
        ensures { result ≡ shares self other }
    {
        other.ends_behind(self.paddr) && self.ends_behind(other.paddr)
    }

    /// Its size in bytes.
    #[tactic(auto, using(crate::proofs::Usual::usual))]
    pub fn size(self) -> u64
        requires { is_region self.paddr self.bits ≡ true }
        ensures { result ≡ 2 ^ self.bits }
    {
        1 << self.bits
    }

    /// Its place in the order in which regions are filled: the greatest first, those of devices last.
    pub fn rank(self) -> u8
        ensures { result ≡ rank self }
    {
        if self.device {
            48
        } else {
            47u8.saturating_sub(self.bits)
        }
    }
}

/// What can be wrong with a text of regions; the order is that of the numbers.
#[derive(Clone, Copy, Debug, PartialEq, Eq)]
pub enum UntypedCode {
    /// A line that is of no form, or a missing first line.
    Syntax,
    /// More regions than a text may have.
    Limit,
}

impl UntypedCode {
    /// The letter and the number, as the table of codes gives them.
    pub fn word(self) -> &'static str
        ensures { result.now ≡ word_of self }
    {
        match self {
            UntypedCode::Syntax => "U1",
            UntypedCode::Limit => "U2",
        }
    }

    /// The title, as the table of codes gives it.
    pub fn title(self) -> &'static str
        ensures { result.now ≡ title_of self }
    {
        match self {
            UntypedCode::Syntax => "Syntax",
            UntypedCode::Limit => "Limit",
        }
    }
}

/// A fault of a text of regions, from its first byte to the byte past its last.
#[derive(Clone, Copy, Debug, PartialEq, Eq)]
pub struct UntypedFault {
    pub code: UntypedCode,
    pub first: u64,
    pub end: u64,
}
