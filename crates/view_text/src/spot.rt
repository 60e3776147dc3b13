ghost use Rattle.std.specs.Option.{option_map};
ghost use Rattle.std.specs.Prelude.{◌≡◌, ◌<◌};
ghost use Rattle.view_text.specs.Spots.{cut, range_of, spot_of};

use cam_base::read_number;

/// The first byte of a fault, and the byte behind its last.
#[derive(Clone, Copy)]
pub struct Range {
    pub first: u64,
    pub end: u64,
}

/// What stands before and behind the first such character.
fn cut(text: &str, at: char) -> Option<(&str, &str)>
    requires { at < 128 }
    ensures { option_map (λ x. (x.0.now, x.1.now)) result ≡ cut at text.now }
{
    text.split_once(at)
}

fn read_range(text: &str) -> Option<Range>
    ensures { option_map (λ r. (r.first, r.end)) result ≡ range_of text.now }
{
    let (first, end) = cut(text, '-')?;
    Some(Range {
        first: read_number(first.as_bytes())?,
        end: read_number(end.as_bytes())?,
    })
}

/// The file, the bytes and the rest of a line `FILE:FIRST-END: REST`, `None` exactly where the line isn't one.
pub fn read_spot(line: &str) -> Option<(&str, Range, &str)>
    ensures { option_map (λ x. (x.0.now, ((x.1.first, x.1.end), x.2.now))) result ≡ spot_of line.now }
{
    let (file, more) = cut(line, ':')?;
    let (range, rest) = cut(more, ':')?;
    Some((file, read_range(range)?, rest))
}
