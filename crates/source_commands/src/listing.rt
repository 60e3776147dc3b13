//! The assigned edges of a source.

ghost use Rattle.adl_import.specs.Loaded.{AlikeInSource};
ghost use Rattle.cap_model.specs.Policies.{NumbersDiffer};
ghost use Rattle.cam_io.specs.Reading.{InAll, KeepsFiles, LearnsOnly};
ghost use Rattle.cam_io.specs.Sinks.{IsOpen, Writes};
ghost use Rattle.source_commands.specs.Listed.{IsListed, listing_text};
ghost use Rattle.std.specs.Prelude.{◌≡◌};

use cam_base::SourceError;
use cam_io::{Files, Outputs, Writer, Written};
use cap_model::{EdgeTable, Policy};
use front_end::front;
use policy_text::{Names, write_edges};
use std::alloc::Global;

/// The labels of a system and its assigned edges.
#[derive(Drop)]
pub struct Listing {
    pub names: Names,
    pub edges: EdgeTable,
}

impl Listing {
    /// The labels and the edges of a policy.
    fn of(alloc: Global, policy: Policy) -> Listing
        requires { NumbersDiffer policy.labels }
        ensures names { result.names ≡ policy.labels }
        ensures edges { result.edges ≡ policy.edges }
    {
        let Policy {
            labels,
            objects,
            edges,
        } = policy;
        let names = Names::of(Policy {
            labels,
            objects,
            edges: EdgeTable::empty(alloc),
        });
        Listing { names, edges }
    }
}

/// The labels and the assigned edges of the root's source.
///
/// # Errors
///
/// The first fault of the phases up to the settings, and where there is none the limit on edges, with the name of its file; a
/// failed read; want of memory.
pub fn list<F: Files>(alloc: Global, files: &mut F, root: &str) -> Result<Listing, SourceError>
    ensures kept { KeepsFiles F.told F.faults files.old files.new }
    ensures learned { LearnsOnly F.told (AlikeInSource root.now) files.old files.new }
    ensures listed { InAll (F.told files.new) (λ m. IsListed root.now m (F.faults files.old) (F.faults files.new) result) }
{
    match front(alloc, files, root) {
        Ok(front) => Ok(Listing::of(alloc, front.policy)),
        Err(error) => Err(error),
    }
}

/// Writes a line for each edge to an open channel, in their order. Takes no memory.
pub fn write_listing<O: Outputs>(listing: &Listing, out: &mut O, channel: u8) -> Written
    requires { IsOpen (O.sink out.old) channel }
    ensures { Writes result channel (listing_text listing.now) (O.sink out.old) (O.sink out.new) (O.faults out.old)
        (O.faults out.new) }
{
    let mut to = Writer::new(out, channel);
    write_edges(&listing.edges, &listing.names, &mut to);
    to.flush()
}
