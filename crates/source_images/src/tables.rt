//! The section tables of types.

ghost use Rattle.source_images.specs.Found.{folder_of, table_name};
ghost use Rattle.source_images.specs.Told.{names_told, table_at, tables_told};
ghost use Rattle.std.specs.Prelude.{◌≡◌, map, IfOk, string_bytes};
ghost use Rattle.std.specs.Str.{IsUtf8};

use cam_base::{Made, Name};
use std::alloc::Global;
use std::str::from_utf8;

/// The table of a type.
#[derive(Drop)]
pub struct Table<'a> {
    /// The name of the type.
    pub name: &'a Name,
    /// The name of the file.
    pub file: String,
}

fn as_text(name: &[u8]) -> &str
    requires { IsUtf8 name.now }
    ensures { result.now ≡ name.now }
{
    match from_utf8(name) {
        Ok(text) => text,
        Err(_) => unreachable!(),
    }
}

/// The folder of a file, with the slash at its end.
pub fn folder_of(name: &str) -> &str
    ensures { result.now ≡ folder_of name.now }
{
    match name.rfind('/') {
        Some(at) => &name[..at + 1],
        None => "",
    }
}

/// The name of the table of a type, in this folder.
fn table_name(alloc: Global, folder: &str, name: &Name) -> Made<String>
    ensures { IfOk result (λ file. string_bytes file ≡ table_name folder.now name.now) }
{
    let mut file = String::from_str(alloc, folder)?;
    file.push_str(as_text(name.as_bytes()))?;
    file.push_str(".sections")?;
    Ok(file)
}

/// The tables of types, in this folder.
pub fn tables_of<'a>(alloc: Global, folder: &str, names: &[&'a Name]) -> Made<Vec<Table<'a>>>
    ensures { IfOk result (λ tables. tables_told tables.items ≡ map (table_at folder.now) (names_told names.now)) }
{
    let mut tables = Vec::new(alloc);
    for name in names {
        let file = table_name(alloc, folder, name)?;
        tables.push(Table { name, file })?;
    }
    Ok(tables)
}
