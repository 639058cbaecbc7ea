// Shapes of drives: one without groups, and any shape in words.
ghost use Rattle.std.specs.Prelude.{◌≡◌};

use shape::Shape;
use std::fmt;

// A drive without groups: one group of all heads. Only other crates call this.
pub fn ungrouped(cylinders: u32, heads: u32, sectors: u32) -> Shape
    ensures { result ≡ record { cylinders = cylinders; heads = heads; sectors = sectors; groups = 1; tracks = heads; offset = 0 } }
{
    Shape {
        cylinders,
        heads,
        sectors,
        groups: 1,
        tracks: heads,
        offset: 0,
    }
}

// The six numbers of a shape. Only other crates make this.
#[derive(Clone, Copy)]
pub struct Numbers(pub Shape);

impl fmt::Display for Numbers {
    fn fmt<W: fmt::Write>(&self, f: &mut fmt::Formatter<W>) -> fmt::Result {
        let Shape {
            cylinders,
            heads,
            sectors,
            groups,
            tracks,
            offset,
        } = self.0;
        write!(
            f,
            "{cylinders}, {heads}, {sectors}, groups {groups} of {tracks}, offset {offset}"
        )
    }
}
