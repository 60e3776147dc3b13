//! The connector table.

use adl_ast::Role;
use adl_meaning::Connector;
use cap_model::{Authority, AuthoritySet};
use conn_rules::{ObjectKind, RuleRow, row, rules};

fn is_row(row: &RuleRow, object: ObjectKind, letters: &[u8], authorities: AuthoritySet) -> bool {
    row.object == object && row.rights.word() == letters && row.authorities == authorities
}

fn calls() -> AuthoritySet {
    AuthoritySet::empty()
        .with(Authority::SyncSend)
        .with(Authority::Call)
        .with(Authority::Reset)
}

fn receives() -> AuthoritySet {
    AuthoritySet::empty()
        .with(Authority::Receive)
        .with(Authority::Reset)
}

#[test]
fn callers(rt: HostRuntime) {
    assert!(rt; rules().as_slice().len() == 13);
    let (first, second) = row(Connector::Rpc, Role::From);
    assert!(rt; is_row(&first, ObjectKind::OfEndpoint, b"WP", calls()));
    assert!(rt; second.is_none());
}

#[test]
fn servers(rt: HostRuntime) {
    let (first, second) = row(Connector::Rpc, Role::To);
    assert!(rt; is_row(&first, ObjectKind::OfEndpoint, b"R", receives()));
    assert!(rt; second.is_none());
}

#[test]
fn drivers(rt: HostRuntime) {
    let (first, second) = row(Connector::Interrupt, Role::To);
    assert!(rt; is_row(&first, ObjectKind::OfNotification, b"R", receives()));
    let handles = AuthoritySet::empty().with(Authority::Handle);
    assert!(rt; second.is_some_and(|row| is_row(&row, ObjectKind::OfIrq, b"", handles)));
}
