ghost use Rattle.cap_model.specs.Policies.{label_name, label_number, is_label_byte, is_label_name, NumbersDiffer};
ghost use Rattle.std.specs.List.{Contains, list_all};
ghost use Rattle.std.specs.Option.{option_map};
ghost use Rattle.std.specs.Prelude.{◌≡◌, IfSome, IfNone, None};

use crate::EdgeTable;
use cam_base::{List, Name, Text, is_word_byte};

/// Labels by number and name, the labels of objects, and the edges that are allowed. `IsPolicy` of `specs/` says what
/// whoever makes a policy keeps: no number and no name stands twice, and every number that is used has a label.
#[derive(Drop)]
pub struct Policy {
    pub labels: List<(u32, Text)>,
    pub objects: List<(Name, u32)>,
    pub edges: EdgeTable,
}

/// Whether the bytes may be a label's name: 1 to 4,096 bytes among letters, digits, underscores and dots.
pub fn is_label_name(bytes: &[u8]) -> bool
    ensures { result ≡ is_label_name bytes.now }
{
    !bytes.is_empty() && bytes.len() <= 4096 && all_label_bytes(bytes)
}

fn all_label_bytes(bytes: &[u8]) -> bool
    ensures { result ≡ list_all is_label_byte bytes.now }
{
    bytes.iter().all(|b| is_word_byte(*b) || *b == b'.')
}

impl Policy {
    /// The name of the label of that number, `None` exactly where there is no such label. Takes no memory.
    pub fn name_of(&self, label: u32) -> Option<&[u8]>
        ensures found { IfSome result (λ name. Contains self.now.labels (label, name.now)) }
        ensures none { IfNone result (label_name self.now.labels label ≡ None) }
        ensures one { NumbersDiffer self.now.labels → option_map (λ n. n.now) result ≡ label_name self.now.labels label }
    {
        let labels = self.labels.as_slice();
        // Policies that are made or written here have the label of number n at place n.
        match labels.get(label as usize) {
            Some((number, name)) if *number == label => Some(name.as_bytes()),
            _ => first_name_of(labels, label),
        }
    }

    /// The number of the label of that name, `None` exactly where there is no such label. Takes no memory.
    pub fn number_of(&self, name: &[u8]) -> Option<u32>
        ensures { result ≡ label_number self.now.labels name.now }
    {
        self.labels
            .as_slice()
            .iter()
            .find(|(_, text)| text.as_bytes() == name)
            .map(|(number, _)| *number)
    }
}

/// The name of the first label of that number.
fn first_name_of(labels: &[(u32, Text)], label: u32) -> Option<&[u8]>
    ensures { option_map (λ n. n.now) result ≡ label_name labels.now label }
{
    labels
        .iter()
        .find(|(number, _)| *number == label)
        .map(|(_, name)| name.as_bytes())
}
