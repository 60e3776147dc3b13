//! What passes by one edge.

ghost use Rattle.flow_model.specs.Flow.{goes_along, goes_against};
ghost use Rattle.label_flow.specs.Search.{passed_to};
ghost use Rattle.std.specs.Prelude.{◌≡◌};

use cap_model::{Authority, Edge};

fn goes_along(authority: Authority) -> bool
    ensures { result ≡ goes_along authority }
{
    match authority {
        Authority::Receive | Authority::SyncSend | Authority::Control => true,
        Authority::AsyncSend | Authority::Write | Authority::Handle => true,
        _ => false,
    }
}

fn goes_against(authority: Authority) -> bool
    ensures { result ≡ goes_against authority }
{
    match authority {
        Authority::Receive | Authority::SyncSend | Authority::Control | Authority::Read => true,
        _ => false,
    }
}

/// The label to which something passes from this label by the edge, `None` where nothing does.
pub fn passed_to(edge: &Edge, label: u32) -> Option<u32>
    ensures { result ≡ passed_to edge.now label }
{
    if edge.from == label && goes_along(edge.authority) {
        Some(edge.to)
    } else if edge.to == label && goes_against(edge.authority) {
        Some(edge.from)
    } else {
        None
    }
}
