//! How much there is to spread.

ghost use Rattle.cap_audit.specs.Counts.{cap_count, caps_of, cnode_count, cnodes_of};
ghost use Rattle.cap_model.specs.Kept.{IsKept};
ghost use Rattle.std.specs.Prelude.{◌≡◌, ◌<◌, ◌*◌, IsTrue, ◌↔◌};

use crate::slots_of;
use cap_model::{Object, Spec};

/// The most CNodes times capabilities that an audit takes.
const LIMIT: u64 = 4_000_000;

/// How many CNodes there are, and how many capabilities in their slots.
#[derive(Clone, Copy)]
pub struct Counts {
    pub cnodes: u64,
    pub caps: u64,
}

impl Counts {
    /// The counts of a spec. Takes no memory.
    pub fn of(spec: &Spec) -> Counts
        requires { IsKept spec.now }
        ensures cnodes { result.cnodes ≡ cnodes_of spec.now }
        ensures caps { result.caps ≡ caps_of spec.now }
    {
        Counts {
            cnodes: cnodes(spec),
            caps: caps(spec),
        }
    }

    /// Whether the product of both is past the limit.
    pub fn are_many(self) -> bool
        ensures { IsTrue result ↔ (4000000 < self.cnodes * self.caps) }
    {
        match self.cnodes.checked_mul(self.caps) {
            Some(product) => product > LIMIT,
            None => true,
        }
    }
}

fn cnode_count(object: &Object) -> u64
    ensures { result ≡ cnode_count object.now }
{
    match object {
        Object::CNode { .. } => 1,
        _ => 0,
    }
}

fn cap_count(object: &Object) -> u64
    ensures { result ≡ cap_count object.now }
{
    slots_of(object).len() as u64
}

fn cnodes(spec: &Spec) -> u64
    requires { IsKept spec.now }
    ensures { result ≡ cnodes_of spec.now }
{
    let mut count = 0;
    for entry in spec.entries.as_slice() {
        count += cnode_count(&entry.object);
    }
    count
}

fn caps(spec: &Spec) -> u64
    requires { IsKept spec.now }
    ensures { result ≡ caps_of spec.now }
{
    let mut count = 0;
    for entry in spec.entries.as_slice() {
        count += cap_count(&entry.object);
    }
    count
}
