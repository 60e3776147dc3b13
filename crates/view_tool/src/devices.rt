//! The devices of a source.

ghost use Rattle.view_tool.specs.Devices.{connection_rows, device_row, device_rows, device_text, end_rows, is_at_device, settings_in};
ghost use Rattle.std.specs.Option.{option_map};
ghost use Rattle.std.specs.Prelude.{◌≡◌, ◌++◌, slice_get, IfOk, OnOk};
ghost use Rattle.system_spec.specs.MapText.{named};

use adl_meaning::{Connector, EndSetting, Flat, FlatConnection, FlatEnd, Settled};
use cam_base::{List, Made, hexadecimal};
use domain_table::{leaf_text, member_name, push_row};
use itoa::Buffer;
use std::alloc::Global;
use system_spec::MapNames;
use view_text::{Row, join};

fn is_at_device(flat: &Flat, end: FlatEnd) -> bool
    ensures { result ≡ is_at_device flat.now end }
{
    match flat.leaves.as_slice().get(end.leaf as usize) {
        Some(leaf) => leaf.domain.is_none(),
        None => false,
    }
}

fn device_text(
    alloc: Global,
    names: &MapNames,
    connection: &FlatConnection,
    end: FlatEnd,
) -> Made<List<u8>>
    ensures { IfOk result (λ text. text ≡ device_text (named names.now) connection.now end) }
{
    let leaf = leaf_text(alloc, names.flat, end.leaf)?;
    let path = connection.path.text(alloc)?;
    let member = member_name(names, end.leaf, end.member);
    join(
        alloc,
        &[leaf.as_bytes(), b".", member, b" ", path.as_bytes()],
    )
}

fn push_device(
    alloc: Global,
    rows: &mut List<Row>,
    connector: Connector,
    text: &[u8],
    setting: &EndSetting,
) -> Made<()>
    ensures { OnOk result (rows.new ≡ rows.old ++ device_row connector text.now setting.now) }
{
    let mut digits = [0; 18];
    let mut number = Buffer::new();
    match connector {
        Connector::Mmio => {
            let paddr = hexadecimal(setting.paddr, &mut digits);
            let bytes = number.format(setting.bytes).as_bytes();
            push_row(alloc, rows, &[text, paddr, bytes, b""])
        }
        Connector::Interrupt => {
            let irq = number.format(setting.irq).as_bytes();
            push_row(alloc, rows, &[text, b"", b"", irq])
        }
        _ => Ok(()),
    }
}

fn push_end(
    alloc: Global,
    rows: &mut List<Row>,
    names: &MapNames,
    connection: &FlatConnection,
    setting: Option<&EndSetting>,
    end: FlatEnd,
) -> Made<()>
    ensures { OnOk result (rows.new ≡ rows.old ++ end_rows (named names.now) connection.now
        (option_map (λ s. s.now) setting.entry) end) }
{
    match setting {
        Some(setting) if is_at_device(names.flat, end) => {
            let text = device_text(alloc, names, connection, end)?;
            push_device(alloc, rows, connection.connector, text.as_slice(), setting)
        }
        _ => Ok(()),
    }
}

fn settings_in(settled: &Settled, connection: usize) -> &[EndSetting]
    ensures { result.now ≡ settings_in settled.now connection }
{
    match settled.connections.as_slice().get(connection) {
        Some(settings) => settings.ends.as_slice(),
        None => &[],
    }
}

fn setting_in(settings: &[EndSetting], end: usize) -> Option<&EndSetting>
    ensures { option_map (λ s. s.now) result ≡ slice_get settings.now end }
{
    settings.get(end)
}

fn push_connection(
    alloc: Global,
    rows: &mut List<Row>,
    names: &MapNames,
    connection: &FlatConnection,
    settings: &[EndSetting],
) -> Made<()>
    ensures { OnOk result (rows.new ≡ rows.old ++ connection_rows (named names.now) settings.now connection.now) }
{
    let ends = connection.ends.as_slice();
    for (place, end) in ends.iter().enumerate() {
        let setting = setting_in(settings, place);
        push_end(alloc, rows, names, connection, setting, *end)?;
    }
    Ok(())
}

/// A row for the memory and for the interrupts of each device.
pub(crate) fn device_rows(alloc: Global, names: &MapNames, settled: &Settled) -> Made<List<Row>>
    ensures { IfOk result (λ rows. rows ≡ device_rows (named names.now) settled.now) }
{
    let mut rows = List::new(alloc);
    let connections = names.flat.connections.as_slice();
    for (place, connection) in connections.iter().enumerate() {
        let settings = settings_in(settled, place);
        push_connection(alloc, &mut rows, names, connection, settings)?;
    }
    Ok(rows)
}
