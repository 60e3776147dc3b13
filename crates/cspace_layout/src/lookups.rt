ghost use Rattle.cspace_layout.specs.Lookups.{end_of, setting_of};
ghost use Rattle.std.specs.Prelude.{◌≡◌};

use adl_meaning::{Connector, EndSetting, Flat, FlatEnd, Settled};

/// An end by number, with its connector; none where there is none. Takes no memory.
pub fn end_of(flat: &Flat, connection: u32, number: u32) -> Option<(Connector, FlatEnd)>
    ensures { result ≡ end_of flat.now connection number }
{
    let connection = flat.connections.as_slice().get(connection as usize)?;
    let end = connection.ends.as_slice().get(number as usize)?;
    Some((connection.connector, *end))
}

/// The settings of an end by number; none where there is none. Takes no memory.
pub fn setting_of(settled: &Settled, connection: u32, number: u32) -> Option<EndSetting>
    ensures { result ≡ setting_of settled.now connection number }
{
    let connection = settled.connections.as_slice().get(connection as usize)?;
    let setting = connection.ends.as_slice().get(number as usize)?;
    Some(*setting)
}
