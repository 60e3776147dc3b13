ghost use Rattle.cam_base.specs.Quoted.{inner};
ghost use Rattle.std.specs.Prelude.{◌≡◌};

/// The bytes between the first and the last: a text without its quotes, a path without its angle brackets.
pub fn inner(text: &[u8]) -> &[u8]
    ensures { result.now ≡ inner text.now }
{
    match text {
        [] => text,
        [_, rest @ ..] => &rest[..rest.len().saturating_sub(1)],
    }
}
