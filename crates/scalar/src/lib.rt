// A typed scalar read: one case of the answer for each scalar type.
#![tactic(auto)]

ghost use Rattle.std.specs.Prelude.{◌≡◌};
ghost use Rattle.wire.specs.Refusals.{told};
ghost use Rattle.scalar.specs.Scalars.{scalar_at, wrong_at};

use codes::TType;
use wire::Result;
use wire::cursor::Cursor;
use wire::refusal::Kind;

#[derive(Clone, Copy, Debug, PartialEq)]
pub enum Scalar {
    Bool(bool),
    I08(i8),
    I16(i16),
    I32(i32),
    I64(i64),
    Double(f64),
}

// A type that is no scalar kind: 12, unless the start lies beyond the bytes.
#[tactic(auto, unfolding(crate::specs::Scalars::wrong_at, wire::specs::Answer::stay_at, wire::specs::Answer::refuse_if))]
fn wrong_type(bytes: &[u8], cursor: Cursor) -> Result<(Scalar, Cursor)>
    ensures { told result ≡ wrong_at bytes.now cursor.at }
{
    cursor.stay(bytes)?;
    Err(Kind::WrongType.at(cursor.at))
}

// A scalar of the type asked for. Refuses 2, then 12 for a type that is no scalar kind, else 1.
// 00 00 00 07 at 0 as I32 gives 7 and ends at 4; no byte at 0 as String is refused: 12 at 0.
pub fn read_scalar(bytes: &[u8], cursor: Cursor, scalar_type: TType) -> Result<(Scalar, Cursor)>
    ensures { told result ≡ scalar_at scalar_type bytes.now cursor.at }
{
    match scalar_type {
        TType::Bool => number::read_bool(bytes, cursor).map(|(v, next)| (Scalar::Bool(v), next)),
        TType::I08 => number::read_i8(bytes, cursor).map(|(v, next)| (Scalar::I08(v), next)),
        TType::Double => {
            number::read_double(bytes, cursor).map(|(v, next)| (Scalar::Double(v), next))
        }
        TType::I16 => number::read_i16(bytes, cursor).map(|(v, next)| (Scalar::I16(v), next)),
        TType::I32 => number::read_i32(bytes, cursor).map(|(v, next)| (Scalar::I32(v), next)),
        TType::I64 => number::read_i64(bytes, cursor).map(|(v, next)| (Scalar::I64(v), next)),
        TType::Stop
        | TType::Void
        | TType::String
        | TType::Utf7
        | TType::Struct
        | TType::Map
        | TType::Set
        | TType::List
        | TType::Uuid => wrong_type(bytes, cursor),
    }
}
