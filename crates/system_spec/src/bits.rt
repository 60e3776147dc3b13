ghost use Rattle.std.specs.Prelude.{◌≡◌};
ghost use Rattle.system_spec.specs.Bits.{bits_for};

/// The least number of bits, of those from 1 to 16, for more than so many slots. Takes no memory.
#[tactic(auto, using(crate::proofs::Sizes::bits_steps))]
pub fn bits_for(slots: usize) -> u8
    ensures { result ≡ bits_for slots }
{
    let mut bits = 1;
    let mut size = 2;
    while bits < 16 && size <= slots {
        bits += 1;
        size *= 2;
    }
    bits
}
