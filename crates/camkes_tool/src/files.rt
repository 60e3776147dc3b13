ghost use Rattle.camkes_tool.specs.GeneratedFiles.{client_line, from_end, generated, root_text};
ghost use Rattle.std.specs.List.{flat_map, range_with_len};
ghost use Rattle.std.specs.Prelude.{◌≡◌, ◌++◌, decimal, IfOk, OnOk};

use cam_base::{List, Made};
use cam_io::FixedFiles;
use itoa::Buffer;
use std::alloc::Global;

/// The name of the generated root.
pub const ROOT: &str = "gen.camkes";

/// The section table of both programs.
const PROGRAM: &[u8] = b"entry 0x10000\ntext 0x10000 0x1000 RX 0x1000\n";

/// What stands in front of the clients.
const HEADER: &[u8] = b"procedure P { void f(); }
component Client { control; uses P p; dataport Buf d; }
component Server { control; provides P p; dataport Buf d; }
assembly { composition {
";

/// Writes a line, or an end, for each client: its number between two texts.
fn push_clients(text: &mut List<u8>, count: u64, front: &[u8], back: &[u8]) -> Made<()>
    ensures { OnOk result (text.new ≡ text.old ++ flat_map (λ i. front.now ++ decimal i ++ back.now) (range_with_len 0 count)) }
{
    for i in 0..count {
        let mut digits = Buffer::new();
        text.extend(front)?;
        text.extend(digits.format(i).as_bytes())?;
        text.extend(back)?;
    }
    Ok(())
}

fn root_text(alloc: Global, count: u64) -> Made<List<u8>>
    ensures { IfOk result (λ text. text ≡ root_text count) }
{
    let mut text = List::new(alloc);
    text.extend(HEADER)?;
    push_clients(&mut text, count, b"component Client c", b";\n")?;
    text.extend(b"component Server s;\nconnection seL4RPCCall k(")?;
    push_clients(&mut text, count, b"from c", b".p, ")?;
    text.extend(b"to s.p);\nconnection seL4SharedData m(")?;
    push_clients(&mut text, count, b"from c", b".d, ")?;
    text.extend(b"to s.d);\n} }\n")?;
    Ok(text)
}

/// The files of the source with so many clients, in memory: its root, and the section table of both programs.
///
/// # Errors
///
/// Want of memory.
pub fn generated(alloc: Global, count: u64) -> Made<FixedFiles>
    ensures { IfOk result (λ files. files ≡ generated count) }
{
    let root = root_text(alloc, count)?;
    let mut files = FixedFiles::new(alloc);
    files.add(ROOT, root.as_slice())?;
    files.add("Client.sections", PROGRAM)?;
    files.add("Server.sections", PROGRAM)?;
    Ok(files)
}
