// The record's numbers for each kind of answer.
#![tactic(auto)]

ghost use Rattle.std.specs.Prelude.{◌≡◌, ℕ};
ghost use Rattle.std.specs.Int.{w8, w16, w32, w64};
ghost use Rattle.wire.specs.Refusals.{kind_number, told, told_moved};
ghost use Rattle.config.specs.Limits.{told_built};
ghost use Rattle.skip.specs.Skips.{told_skipped};
ghost use Rattle.probe_rows.specs.declared.Row.{Row};
ghost use Rattle.probe_rows.specs.Rows.{row, row_by, none_row, number_row, bool_row, bits_row, double_row, span_row, type_row, field_row, list_row, set_row, map_row, message_type_row, message_row, frame_row, scalar_bits, scalar_row, skip_row, depth_in};

use codes::{TMessageType, TType};
use config::configuration::TConfiguration;
use leaf::Halt;
use message::TMessageIdentifier;
use read::container::{TListIdentifier, TMapIdentifier, TSetIdentifier};
use read::field::TFieldIdentifier;
use scalar::Scalar;
use skip::till_depth::Skipped;
use text::Span;
use wire::cursor::Cursor;
use wire::refusal::Refusal;

// The refusal's number or 0, the place after or the refusal's, and up to four values.
#[derive(Clone, Copy, Debug, PartialEq, Eq)]
pub struct Row {
    pub number: u64,
    pub place: u64,
    pub a: u64,
    pub b: u64,
    pub c: u64,
    pub d: u64,
}

impl From<Refusal> for Row {
    ghost from_gives = { λ refusal it. it ≡ row (kind_number refusal.kind) refusal.place 0 0 0 0 };

    fn from(refusal: Refusal) -> Row {
        Row {
            number: u8::from(refusal.kind) as u64,
            place: refusal.place as u64,
            a: 0,
            b: 0,
            c: 0,
            d: 0,
        }
    }
}

// A value that a read may give, by the numbers that the record holds for it.
pub trait Kept {
    // The record of the value, with the place after it.
    ghost kept_as: { Self → ℕ → Row };

    fn kept(self, next: Cursor) -> Row
        ensures { result ≡ kept_as self next.at };
}

// The record of a read: the value's numbers, or the refusal. Refuses nothing.
pub fn of_read<T: Kept>(read: wire::Result<(T, Cursor)>) -> Row
    ensures { result ≡ row_by T.kept_as (told read) }
{
    match read {
        Ok((value, next)) => value.kept(next),
        Err(refusal) => refusal.into(),
    }
}

fn given(next: Cursor, a: u64) -> Row
    ensures { result ≡ row 0 next.at a 0 0 0 }
{
    pair(next, a, 0)
}

fn pair(next: Cursor, a: u64, b: u64) -> Row
    ensures { result ≡ row 0 next.at a b 0 0 }
{
    Row {
        number: 0,
        place: next.at as u64,
        a,
        b,
        c: 0,
        d: 0,
    }
}

// The byte.
impl Kept for u8 {
    ghost kept_as = { number_row };

    fn kept(self, next: Cursor) -> Row {
        given(next, self as u64)
    }
}

// The struct depth.
impl Kept for usize {
    ghost kept_as = { number_row };

    fn kept(self, next: Cursor) -> Row {
        given(next, self as u64)
    }
}

// 1 for true, 0 for false.
impl Kept for bool {
    ghost kept_as = { bool_row };

    fn kept(self, next: Cursor) -> Row {
        given(next, self as u64)
    }
}

// Its 8 bits.
impl Kept for i8 {
    ghost kept_as = { bits_row w8 };

    fn kept(self, next: Cursor) -> Row {
        given(next, self.cast_unsigned() as u64)
    }
}

// Its 16 bits.
impl Kept for i16 {
    ghost kept_as = { bits_row w16 };

    fn kept(self, next: Cursor) -> Row {
        given(next, self.cast_unsigned() as u64)
    }
}

// Its 32 bits.
impl Kept for i32 {
    ghost kept_as = { bits_row w32 };

    fn kept(self, next: Cursor) -> Row {
        given(next, self.cast_unsigned() as u64)
    }
}

// Its 64 bits.
impl Kept for i64 {
    ghost kept_as = { bits_row w64 };

    fn kept(self, next: Cursor) -> Row {
        given(next, self.cast_unsigned())
    }
}

// Its pattern, any NaN as 7FF8 0000 0000 0000.
impl Kept for f64 {
    ghost kept_as = { double_row };

    fn kept(self, next: Cursor) -> Row {
        given(next, sign::pattern(self))
    }
}

// The span's start and end.
impl Kept for Span {
    ghost kept_as = { span_row };

    fn kept(self, next: Cursor) -> Row {
        pair(next, self.start as u64, self.end as u64)
    }
}

// The type's byte.
impl Kept for TType {
    ghost kept_as = { type_row };

    fn kept(self, next: Cursor) -> Row {
        given(next, codes::field_type_to_u8(self) as u64)
    }
}

// The type's byte and the id's 16 bits.
impl Kept for TFieldIdentifier {
    ghost kept_as = { field_row };

    fn kept(self, next: Cursor) -> Row {
        let byte = codes::field_type_to_u8(self.field_type);
        pair(next, byte as u64, self.id.cast_unsigned() as u64)
    }
}

// The element type's byte and the size's 32 bits.
impl Kept for TListIdentifier {
    ghost kept_as = { list_row };

    fn kept(self, next: Cursor) -> Row {
        let byte = codes::field_type_to_u8(self.element_type);
        pair(next, byte as u64, self.size.cast_unsigned() as u64)
    }
}

// The element type's byte and the size's 32 bits.
impl Kept for TSetIdentifier {
    ghost kept_as = { set_row };

    fn kept(self, next: Cursor) -> Row {
        let byte = codes::field_type_to_u8(self.element_type);
        pair(next, byte as u64, self.size.cast_unsigned() as u64)
    }
}

// The key type's and the value type's byte and the size's 32 bits.
impl Kept for TMapIdentifier {
    ghost kept_as = { map_row };

    fn kept(self, next: Cursor) -> Row {
        Row {
            number: 0,
            place: next.at as u64,
            a: codes::field_type_to_u8(self.key_type) as u64,
            b: codes::field_type_to_u8(self.value_type) as u64,
            c: self.size.cast_unsigned() as u64,
            d: 0,
        }
    }
}

// The message type's byte.
impl Kept for TMessageType {
    ghost kept_as = { message_type_row };

    fn kept(self, next: Cursor) -> Row {
        given(next, u8::from(self) as u64)
    }
}

// The name's start and end, the message type's byte, the sequence number's bits.
impl Kept for TMessageIdentifier {
    ghost kept_as = { message_row };

    fn kept(self, next: Cursor) -> Row {
        Row {
            number: 0,
            place: next.at as u64,
            a: self.name.start as u64,
            b: self.name.end as u64,
            c: u8::from(self.message_type) as u64,
            d: self.sequence_number.cast_unsigned() as u64,
        }
    }
}

// A frame: 1, the payload's start and end; or 0 at the end.
impl Kept for Option<Span> {
    ghost kept_as = { frame_row };

    fn kept(self, next: Cursor) -> Row {
        match self {
            Some(payload) => Row {
                number: 0,
                place: next.at as u64,
                a: 1,
                b: payload.start as u64,
                c: payload.end as u64,
                d: 0,
            },
            None => given(next, 0),
        }
    }
}

fn scalar_bits(v: Scalar) -> u64
    ensures { result ≡ scalar_bits v }
{
    match v {
        Scalar::Bool(b) => b as u64,
        Scalar::I08(i) => i.cast_unsigned() as u64,
        Scalar::I16(i) => i.cast_unsigned() as u64,
        Scalar::I32(i) => i.cast_unsigned() as u64,
        Scalar::I64(i) => i.cast_unsigned(),
        Scalar::Double(d) => sign::pattern(d),
    }
}

// The record of a scalar: the byte of the type that it was asked for as, and the value's bits. Refuses nothing.
pub fn of_scalar(t: TType, read: wire::Result<(Scalar, Cursor)>) -> Row
    ensures { result ≡ row_by (scalar_row t) (told read) }
{
    match read {
        Ok((v, next)) => pair(next, codes::field_type_to_u8(t) as u64, scalar_bits(v)),
        Err(refusal) => refusal.into(),
    }
}

// The record of what only moves the cursor. Refuses nothing.
pub fn of_moved(moved: wire::Result<Cursor>) -> Row
    ensures { result ≡ row_by none_row (told_moved moved) }
{
    match moved {
        Ok(next) => given(next, 0),
        Err(refusal) => refusal.into(),
    }
}

// The record of building: no values, and the place 0. Refuses nothing.
pub fn of_limits(built: wire::Result<TConfiguration>) -> Row
    ensures { result ≡ row_by none_row (told_built built) }
{
    match built {
        Ok(_) => given(Cursor { at: 0 }, 0),
        Err(refusal) => refusal.into(),
    }
}

// The record of a skip: the count and the struct depth, or of a refusal the count. Refuses nothing.
pub fn of_skip(skipped: Result<Skipped, Halt>) -> Row
    ensures { result ≡ skip_row (depth_in skipped) (told_skipped skipped) }
{
    match skipped {
        Ok(passed) => pair(passed.next, passed.count as u64, passed.struct_depth as u64),
        Err(halt) => Row {
            a: halt.count as u64,
            ..Row::from(halt.refusal)
        },
    }
}
