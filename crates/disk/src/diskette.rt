// The shape of a diskette: one within the limits. Whoever makes one has shown that it is.
ghost use Rattle.laws.specs.Addresses.{Limits};

use crate::Shape;

#[derive(Clone, Copy)]
pub struct Diskette {
    pub shape: Shape,
    pub ghost limits: { Limits shape.last shape.per },
}
