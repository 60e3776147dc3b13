//! Edges are added until no rule asks for another.

ghost use Rattle.least_cert.specs.Closing.{Begins, Closes, IsSound};
ghost use Rattle.least_cert.specs.LeastCertificate.{CloseRefused, IsLeast};
ghost use Rattle.std.specs.Prelude.{◌≡◌, ◌≤◌, IfErr, IfOk, OnOk, length};

use crate::asking::look;
use crate::boot::{gathered, links_of};
use crate::closing::{CloseError, Closing};
use crate::replies::certificate;
use cap_model::{EdgeTable, Labels, Spec};
use std::alloc::Global;

/// The least certificate: the edges that lie in every set of edges for which the rules of certificates hold, all but the
/// one that compares it with a policy. `specs/LeastCertificate.antt` defines it.
pub fn close_cert(alloc: Global, spec: &Spec, labels: &Labels) -> Result<EdgeTable, CloseError>
    requires labelled { length labels.now.by_object ≡ length spec.now.entries }
    ensures least { IfOk result (λ cert. IsLeast spec.now labels.now.by_object cert) }
    ensures few { IfOk result (λ cert. length cert ≤ 262144) }
    ensures refused { IfErr result (CloseRefused spec.now labels.now.by_object) }
{
    let mut closing = begun(alloc, spec, labels)?;
    close(alloc, &mut closing)?;
    let table = certificate(alloc, &closing)?;
    Ok(table)
}

/// The edges that the boot state asks for.
fn begun<'a>(alloc: Global, spec: &'a Spec, labels: &'a Labels) -> Result<Closing<'a>, CloseError>
    requires { length labels.now.by_object ≡ length spec.now.entries }
    ensures begun { IfOk result (Begins spec.entry.now labels.entry.now.by_object) }
    ensures refused { IfErr result (CloseRefused spec.entry.now labels.entry.now.by_object) }
{
    let sources = gathered(alloc, spec, labels)?;
    let links = links_of(alloc, sources.others.as_slice())?;
    let mut closing = Closing::new(alloc, spec, labels);
    closing.add_all(sources.nodes.as_slice())?;
    closing.add_all(links.as_slice())?;
    Ok(closing)
}

/// Looks at all edges, also those that are found on the way.
fn close(alloc: Global, closing: &mut Closing<'_>) -> Result<(), CloseError>
    requires { IsSound closing.old }
    ensures closed { OnOk result (Closes closing.old closing.new) }
    ensures refused { IfErr result (CloseRefused closing.old.spec closing.old.labels) }
{
    let mut done = 0;
    while done < closing.count() {
        look(alloc, closing, closing.edge(done))?;
        done += 1;
    }
    Ok(())
}
