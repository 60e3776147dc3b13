//! Rights and badges of ends.

ghost use Rattle.std.specs.Prelude.{◌≡◌};
ghost use Rattle.system_spec.specs.Objects.{badge_at, rights_at};
ghost use Rattle.system_spec.specs.Tables.{told};

use crate::tables::Tables;
use adl_ast::Role;
use cap_model::Rights;
use conn_rules::row;
use cspace_layout::{end_of, setting_of};

/// The rights of an end on its connection's object. Takes no memory.
pub fn rights_at(tables: &Tables<'_>, connection: u32, number: u32) -> Rights
    ensures { result ≡ rights_at (told tables.now) connection number }
{
    match end_of(tables.flat, connection, number) {
        Some((connector, end)) => row(connector, end.role).0.rights,
        None => Rights::none(),
    }
}

/// The badge of an end: the settled one at a `from` end, else 0. Takes no memory.
pub fn badge_at(tables: &Tables<'_>, connection: u32, number: u32) -> u64
    ensures { result ≡ badge_at (told tables.now) connection number }
{
    let Some((_, end)) = end_of(tables.flat, connection, number) else {
        return 0;
    };
    match end.role {
        Role::From => match setting_of(tables.settled, connection, number) {
            Some(setting) => setting.badge,
            None => 0,
        },
        Role::To => 0,
    }
}
