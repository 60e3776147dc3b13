ghost use Rattle.std.specs.List.{starts_with};
ghost use Rattle.std.specs.Prelude.{◌≡◌};
ghost use Rattle.std.specs.Str.{bytes_eq};

use cam_base::Path;

/// Whether the names of the one path are those with which the other begins. Takes no memory.
pub fn is_prefix(a: &Path, b: &Path) -> bool
    ensures { result ≡ starts_with bytes_eq b.now a.now }
{
    b.names().starts_with(a.names())
}
