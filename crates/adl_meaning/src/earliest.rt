//! The earliest of the faults that were noted, borrowed: noting takes no memory.

ghost use Rattle.adl_meaning.specs.Faults.{comes_first, is_before, noted, where_true, Refuses};
ghost use Rattle.std.specs.Prelude.{◌≡◌, None, IfOk};

use cam_base::{Code, Fault, Made, Place, Refused, Text};
use std::alloc::Global;
use std::marker::Model;

/// A fault whose name is borrowed. Contracts see it as the fault.
#[derive(Drop)]
pub struct Wrong<'a> {
    pub code: Code,
    pub place: Place,
    pub name: &'a [u8],
}

impl<'a> Model for Wrong<'a> {
    ghost use Rattle.cam_base.specs.declared.place.Fault.{Fault};

    ghost Value = { Fault };

    ghost view = { λ w. record { code = w.code; place = w.place; name = w.name.now } };
}

/// The earliest of the faults that were noted; of those that stand alike, the one noted first. Contracts see it as that fault, or
/// `None`.
#[derive(Drop)]
pub struct Earliest<'a> {
    pub fault: Option<Wrong<'a>>,
}

impl<'a> Model for Earliest<'a> {
    ghost use Rattle.cam_base.specs.declared.place.Fault.{Fault};
    ghost use Rattle.std.specs.Prelude.{Option};

    ghost Value = { Option Fault };

    ghost view = { λ f. f.fault };
}

impl<'a> Wrong<'a> {
    /// The fault, with a name of its own.
    pub fn copied(&self, alloc: Global) -> Made<Fault>
        ensures { IfOk result (λ fault. fault ≡ self.now) }
    {
        Ok(Fault {
            code: self.code,
            place: self.place,
            name: Text::new(alloc, self.name)?,
        })
    }
}

/// Whether a fault of this code at this place comes before one of the other code at the other place.
pub fn is_before(code: Code, place: Place, other: Code, at: Place) -> bool
    ensures { result ≡ is_before code place other at }
{
    if place.file != at.file {
        place.file < at.file
    } else if place.first != at.first {
        place.first < at.first
    } else {
        code.number() < other.number()
    }
}

impl<'a> Earliest<'a> {
    /// No fault yet.
    pub fn none() -> Earliest<'a>
        ensures { result ≡ None }
    {
        Earliest { fault: None }
    }

    fn comes_first(&self, code: Code, place: Place) -> bool
        ensures { result ≡ comes_first self.now code place }
    {
        match &self.fault {
            None => true,
            Some(other) => is_before(code, place, other.code, other.place),
        }
    }

    /// Notes a fault, where it is one. Of faults that stand alike, the one noted first stays.
    pub fn note(&mut self, is_wrong: bool, code: Code, place: Place, name: &'a [u8])
        ensures { self.new ≡ noted self.old (where_true is_wrong (record { code = code; place = place; name = name.entry.now })) }
    {
        if is_wrong && self.comes_first(code, place) {
            self.fault = Some(Wrong { code, place, name });
        }
    }

    /// The earliest fault, with a name of its own.
    pub fn into_fault(self, alloc: Global) -> Made<Option<Fault>>
        ensures { IfOk result (λ fault. fault ≡ self.entry) }
    {
        match self.fault {
            None => Ok(None),
            Some(wrong) => Ok(Some(wrong.copied(alloc)?)),
        }
    }

    /// Refuses with the earliest fault, if one was noted.
    ///
    /// # Errors
    ///
    /// The earliest fault; want of memory.
    pub fn refuse(self, alloc: Global) -> Result<(), Refused<Fault>>
        ensures { Refuses result self.entry }
    {
        match self.into_fault(alloc)? {
            None => Ok(()),
            Some(fault) => Err(Refused::Fault(fault)),
        }
    }
}
