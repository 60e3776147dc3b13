//! The images of a source's programs.

ghost use Rattle.front_end.specs.First.{name_of_file};
ghost use Rattle.std.specs.Prelude.{◌≡◌};
ghost use Rattle.std.specs.Str.{IsUtf8};

use adl_ast::Source;
use std::str::from_utf8;

/// The name of a source's root.
pub fn root_of(source: &Source) -> &str
    requires { IsUtf8 (name_of_file source.now 0) }
    ensures { result.now ≡ name_of_file source.now 0 }
{
    match source.files.as_slice().get(0) {
        Some(file) => match from_utf8(file.name.as_bytes()) {
            Ok(text) => text,
            Err(_) => unreachable!(),
        },
        None => "",
    }
}
