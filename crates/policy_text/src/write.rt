//! The writers of texts of policies and certificates. They take no memory.

ghost use Rattle.cam_io.specs.Saying.{Says};
ghost use Rattle.cam_io.specs.Sinks.{IsOpen, Writes};
ghost use Rattle.policy_text.specs.PolicyLines.{label_line, object_line, edge_line, policy_text, cert_text};
ghost use Rattle.std.specs.List.{flat_map};
ghost use Rattle.std.specs.Prelude.{◌≡◌, decimal};

use cam_base::{Name, Text, decimal};
use cam_io::{Outputs, Writer, Written};
use cap_model::{Edge, EdgeTable, Policy};
use itoa::Buffer;

/// Writes the text of a policy to an open channel: `specs/PolicyLines.antt`. After a failure the channel has a front of it.
pub fn write_policy<O: Outputs>(policy: &Policy, out: &mut O, channel: u8) -> Written
    requires { IsOpen (O.sink out.old) channel }
    ensures { Writes result channel (policy_text policy.now)
        (O.sink out.old) (O.sink out.new) (O.faults out.old) (O.faults out.new) }
{
    let mut to = Writer::new(out, channel);
    to.text(b"policy 1\n");
    write_labels(policy.labels.as_slice(), &mut to);
    write_objects(policy.objects.as_slice(), &mut to);
    write_edges(&policy.edges, &mut to);
    to.flush()
}

/// Writes the text of a certificate to an open channel: `specs/PolicyLines.antt`. After a failure the channel has a front of it.
pub fn write_cert<O: Outputs>(cert: &EdgeTable, out: &mut O, channel: u8) -> Written
    requires { IsOpen (O.sink out.old) channel }
    ensures { Writes result channel (cert_text cert.now) (O.sink out.old) (O.sink out.new) (O.faults out.old) (O.faults out.new) }
{
    let mut to = Writer::new(out, channel);
    to.text(b"certificate 1\n");
    write_edges(cert, &mut to);
    to.flush()
}

fn write_labels<O: Outputs>(labels: &[(u32, Text)], to: &mut Writer<O>)
    ensures { Says to.old (flat_map label_line labels.now) to.new }
{
    for label in labels {
        write_label(label, to);
    }
}

fn write_label<O: Outputs>(label: &(u32, Text), to: &mut Writer<O>)
    ensures { Says to.old (label_line label.now) to.new }
{
    let mut number = Buffer::new();
    let number = number.format(label.0).as_bytes();
    to.texts(&[b"label ", number, b" ", label.1.as_bytes(), b"\n"]);
}

fn write_objects<O: Outputs>(objects: &[(Name, u32)], to: &mut Writer<O>)
    ensures { Says to.old (flat_map object_line objects.now) to.new }
{
    for object in objects {
        write_object(object, to);
    }
}

fn write_object<O: Outputs>(object: &(Name, u32), to: &mut Writer<O>)
    ensures { Says to.old (object_line object.now) to.new }
{
    let mut number = Buffer::new();
    let number = number.format(object.1).as_bytes();
    to.texts(&[b"object ", object.0.as_bytes(), b" ", number, b"\n"]);
}

fn write_edges<O: Outputs>(edges: &EdgeTable, to: &mut Writer<O>)
    ensures { Says to.old (flat_map edge_line edges.now) to.new }
{
    let mut digits = [0; 20];
    let mut label = 0;
    let mut count = decimal(0, &mut digits);
    for edge in edges.iter() {
        if edge.from != label {
            label = edge.from;
            count = decimal(label as u64, &mut digits);
        }
        write_edge(&digits[..count], edge, to);
    }
}

/// Writes the line of an edge that leads out of the label with these digits.
fn write_edge<O: Outputs>(from: &[u8], edge: Edge, to: &mut Writer<O>)
    requires { from.now ≡ decimal edge.from }
    ensures { Says to.old (edge_line edge) to.new }
{
    let mut end = Buffer::new();
    let end = end.format(edge.to).as_bytes();
    let word = edge.authority.text().as_bytes();
    to.text(b"edge ");
    to.text(from);
    to.texts(&[b" ", word, b" ", end, b"\n"]);
}
