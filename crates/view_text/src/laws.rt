//! What follows of escaped texts.

ghost use Rattle.std.specs.Prelude.{ℕ, List};
ghost use Rattle.view_text.specs.Html.{IsPlain, escaped};

/// No byte of an escaped text begins or ends markup, whatever the text.
pub fn escaped_texts_are_plain()
    ensures { (text : List ℕ) → IsPlain (escaped text) }
{}
