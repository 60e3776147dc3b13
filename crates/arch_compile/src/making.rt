//! What is made of a system whose slots and spaces are laid out.

ghost use Rattle.arch_compile.specs.Steps.{IsMadeOf, policy_tables};
ghost use Rattle.arch_policy.specs.Policies.{IsCertificateOf, IsPolicyOf};
ghost use Rattle.cap_model.specs.Tables.{IsSorted};
ghost use Rattle.std.specs.Prelude.{IfOk};
ghost use Rattle.system_spec.specs.Buildable.{IsBuildable, IsWindowed};
ghost use Rattle.system_spec.specs.Tables.{told};

use arch_policy::{Tables as PolicyTables, certificate_of};
use cam_base::{List, Made};
use cap_model::EdgeTable;
use std::alloc::Global;
use system_spec::{MapLine, System, Tables, build_with_map};

/// The spec of a system with the labels of its objects, its certificate and its map.
#[derive(Drop)]
pub struct Products {
    pub system: System,
    pub cert: EdgeTable,
    pub map: List<MapLine>,
}

/// The certificate of these tables, with the edges of a policy.
fn certificate(alloc: Global, tables: &Tables<'_>, edges: &EdgeTable) -> Made<EdgeTable>
    requires { IsPolicyOf (policy_tables (told tables.now)) edges.now }
    ensures cert { IfOk result (IsCertificateOf (policy_tables (told tables.now))) }
    ensures sorted { IfOk result IsSorted }
{
    let tables = PolicyTables {
        source: tables.source,
        flat: tables.flat,
        settled: tables.settled,
        numbers: tables.numbers,
    };
    certificate_of(alloc, &tables, edges)
}

/// What is made of these tables, with the edges of a policy.
pub fn made_of(alloc: Global, tables: &Tables<'_>, edges: &EdgeTable) -> Made<Products>
    requires buildable { IsBuildable (told tables.now) }
    requires windowed { IsWindowed (told tables.now) }
    requires assigned { IsPolicyOf (policy_tables (told tables.now)) edges.now }
    ensures { IfOk result (IsMadeOf (told tables.now)) }
{
    let cert = certificate(alloc, tables, edges)?;
    let (system, map) = build_with_map(alloc, tables)?;
    Ok(Products { system, cert, map })
}
