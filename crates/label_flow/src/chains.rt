//! Chains of edges as lines.

ghost use Rattle.cap_model.specs.Policies.{NumbersDiffer};
ghost use Rattle.policy_text.specs.EdgeLines.{edge_line, name_of, words_line};
ghost use Rattle.label_flow.specs.Told.{chain_text};
ghost use Rattle.std.specs.Prelude.{◌≡◌, ◌++◌, [], IfOk, OnOk};

use cam_base::{List, Made};
use cap_model::{Edge, Policy};
use itoa::Buffer;
use std::alloc::Global;
use view_text::{add, join};

/// The name of the label of that number, empty where there is none.
fn name_of(policy: &Policy, label: u32) -> &[u8]
    requires { NumbersDiffer policy.now.labels }
    ensures { result.now ≡ name_of policy.now.labels label }
{
    match policy.name_of(label) {
        Some(name) => name,
        None => b"",
    }
}

fn add_words(text: &mut List<u8>, from: &[u8], authority: &[u8], to: &[u8]) -> Made<()>
    ensures { OnOk result (text.new ≡ text.old ++ words_line [] from.now authority.now to.now) }
{
    add(text, &[b"", from, b" ", authority, b" ", to, b"\n"])
}

fn add_edge(text: &mut List<u8>, policy: &Policy, edge: &Edge) -> Made<()>
    requires { NumbersDiffer policy.now.labels }
    ensures { OnOk result (text.new ≡ text.old ++ edge_line [] policy.now.labels edge.now) }
{
    let authority = edge.authority.text().as_bytes();
    let from = name_of(policy, edge.from);
    add_words(text, from, authority, name_of(policy, edge.to))
}

/// The line that counts the edges of a chain, and their lines.
pub fn chain_text(alloc: Global, policy: &Policy, chain: &[Edge]) -> Made<List<u8>>
    requires { NumbersDiffer policy.now.labels }
    ensures { IfOk result (λ text. text ≡ chain_text policy.now.labels chain.now) }
{
    let mut digits = Buffer::new();
    let count = digits.format(chain.len() as u64).as_bytes();
    let mut text = join(alloc, &[b"flow ", count, b" edges\n"])?;
    for edge in chain {
        add_edge(&mut text, policy, edge)?;
    }
    Ok(text)
}
