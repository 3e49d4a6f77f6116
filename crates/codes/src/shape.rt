// How the values of a type lie in the bytes: fifteen types, six shapes.
ghost use Rattle.std.specs.Prelude.{◌≡◌};
ghost use Rattle.codes.specs.Shapes.{shape_of};

use crate::TType;

#[derive(Clone, Copy, Debug, PartialEq, Eq)]
pub enum Shape {
    // So many bytes: a scalar or a UUID.
    Fixed(usize),
    Text,
    Fields,
    // A list or a set.
    Items,
    Pairs,
    // No value has it: Stop, Void and Utf7.
    Unfit,
}

// How the values of a type lie in the bytes. Refuses nothing.
// I32 gives four bytes, and Set the same as List; Utf7 gives Unfit, for which the skip refuses 12.
pub fn shape_of(field_type: TType) -> Shape
    ensures { result ≡ shape_of field_type }
{
    match field_type {
        TType::Stop => Shape::Unfit,
        TType::Void => Shape::Unfit,
        TType::Bool => Shape::Fixed(1),
        TType::I08 => Shape::Fixed(1),
        TType::Double => Shape::Fixed(8),
        TType::I16 => Shape::Fixed(2),
        TType::I32 => Shape::Fixed(4),
        TType::I64 => Shape::Fixed(8),
        TType::String => Shape::Text,
        TType::Utf7 => Shape::Unfit,
        TType::Struct => Shape::Fields,
        TType::Map => Shape::Pairs,
        TType::Set => Shape::Items,
        TType::List => Shape::Items,
        TType::Uuid => Shape::Fixed(16),
    }
}
