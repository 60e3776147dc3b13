//! Rows of labels that have the same edges.

ghost use Rattle.cap_model.specs.Rows.{edge_to, IsClass};
ghost use Rattle.cap_model.specs.Shared.{AreShared, PairBefore};
ghost use Rattle.std.specs.Prelude.{◌≡◌, ◌≢◌, ◌≤◌, ◌*◌, ◌^◌, length, All, AllPairs, IfOk};

use crate::Authority;
use crate::rows::{Class, Row};
use cam_base::Made;
use std::alloc::Global;

/// The class of these pairs.
pub fn class_of_pairs(alloc: Global, label: u32, pairs: &[(Authority, u32)]) -> Made<Class>
    requires rise { AllPairs PairBefore pairs.now }
    requires others { All (λ p. p.0 ≢ Authority.Reply) pairs.now }
    ensures label { IfOk result (λ class. class.label ≡ label) }
    ensures pairs { IfOk result (λ class. class.pairs.items ≡ pairs.now) }
    ensures class { IfOk result IsClass }
{
    Ok(Class {
        label,
        pairs: pairs.to_vec(alloc)?,
        before: pairs.partition_point(|(authority, _)| authority.number()
            < Authority::Reply.number()),
    })
}

/// A row of the first class for each label, where each row has so many edges.
pub fn shared_rows(alloc: Global, labels: &[u32], count: usize) -> Made<Vec<Row>>
    requires { length labels.now * count ≤ 2 ^ 40 }
    ensures { IfOk result (λ rows. AreShared labels.now count rows.items) }
{
    let mut rows = Vec::new(alloc);
    let mut first = 0;
    for label in labels {
        rows.push(Row {
            label: *label,
            first,
            replies: Vec::new(alloc),
            class: 0,
        })?;
        first += count;
    }
    Ok(rows)
}
