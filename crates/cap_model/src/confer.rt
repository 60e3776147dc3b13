ghost use Rattle.authorities.specs.Authorities.{number_of};
ghost use Rattle.authorities.specs.AuthoritySets.{IsSetOf};
ghost use Rattle.cap_model.specs.Confers.{confers, kind_confers};
ghost use Rattle.cap_model.specs.Kinds.{is_space_root};
ghost use Rattle.std.specs.Prelude.{◌≡◌, ◌==◌, ◌<◌, length};

use crate::{Authority, AuthoritySet, Cap, Kind, Object, Rights, Spec};

/// The authorities that a capability confers. Takes no memory.
pub fn conferred(spec: &Spec, cap: &Cap) -> AuthoritySet
    requires { cap.now.object < length spec.now.entries }
    ensures { IsSetOf (confers spec.now cap.now) result.bits }
{
    match spec.kind(cap.object) {
        Some(kind) => kind_conferred(kind, cap.rights),
        None => AuthoritySet::empty(),
    }
}

/// Whether an object is a space root: a `pd` on arm11, a `pgd` on AArch64. Takes no memory.
pub fn is_root(spec: &Spec, object: u32) -> bool
    requires { object < length spec.now.entries }
    ensures { result ≡ is_space_root spec.now object }
{
    match spec.object(object) {
        Some(Object::Pages { level, .. }) => spec.arch.is_root(*level),
        _ => false,
    }
}

fn kind_conferred(kind: Kind, rights: Rights) -> AuthoritySet
    ensures { IsSetOf (kind_confers kind rights) result.bits }
{
    match kind {
        Kind::Endpoint => endpoint_conferred(rights),
        Kind::Notification => notification_conferred(rights),
        Kind::Frame => frame_conferred(rights),
        Kind::CNode | Kind::Thread | Kind::Pages(_) => only(Authority::Control),
        Kind::Irq => only(Authority::Handle),
    }
}

fn endpoint_conferred(rights: Rights) -> AuthoritySet
    ensures { IsSetOf (kind_confers Kind.Endpoint rights) result.bits }
{
    AuthoritySet::empty()
        .with(Authority::Reset)
        .with_if(Authority::Receive, rights.read)
        .with_if(Authority::SyncSend, rights.write)
        .with_if(Authority::Grant, rights.write && rights.grant)
        .with_if(
            Authority::Call,
            rights.write && (rights.grant || rights.reply),
        )
        .with_if(Authority::GrantBack, rights.read && rights.grant)
}

fn notification_conferred(rights: Rights) -> AuthoritySet
    ensures { IsSetOf (kind_confers Kind.Notification rights) result.bits }
{
    AuthoritySet::empty()
        .with(Authority::Reset)
        .with_if(Authority::Receive, rights.read)
        .with_if(Authority::AsyncSend, rights.write)
}

/// The authorities that rights on a frame confer. Takes no memory.
pub fn frame_conferred(rights: Rights) -> AuthoritySet
    ensures { IsSetOf (kind_confers Kind.Frame rights) result.bits }
{
    AuthoritySet::empty()
        .with_if(Authority::Read, rights.read)
        .with_if(Authority::Write, rights.write)
}

fn only(authority: Authority) -> AuthoritySet
    ensures { IsSetOf (λ a. number_of a == number_of authority) result.bits }
{
    AuthoritySet::empty().with(authority)
}
