ghost use Rattle.std.specs.Prelude.{◌≡◌};
ghost use Rattle.view_text.specs.Pictures.{is_drawn, shape_at, style_of};

/// As what a label is drawn.
#[derive(Clone, Copy)]
pub enum Shape {
    /// As any label.
    Plain,
    Domain,
    Connection,
    Device,
    /// Not at all.
    LeftOut,
}

impl Shape {
    pub(crate) fn is_drawn(self) -> bool
        ensures { result ≡ is_drawn self }
    {
        !matches!(self, Shape::LeftOut)
    }

    pub(crate) fn style(self) -> &'static [u8]
        ensures { result.now ≡ style_of self }
    {
        match self {
            Shape::Plain | Shape::LeftOut => b"",
            Shape::Domain => b", shape=box, style=filled, fillcolor=\"#dbe9f6\"",
            Shape::Connection => b", shape=ellipse",
            Shape::Device => b", shape=hexagon, style=filled, fillcolor=\"#fbe6cf\"",
        }
    }
}

/// The shape of the label of this number.
pub fn shape_at(shapes: &[Shape], number: u32) -> Shape
    ensures { result ≡ shape_at shapes.now number }
{
    match shapes.get(number as usize) {
        Some(shape) => *shape,
        None => Shape::Plain,
    }
}
