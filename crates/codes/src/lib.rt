// The codes of types and of message types, and the least bytes that a value of a type takes.
#![tactic(auto)]

pub mod shape;

ghost use Rattle.std.specs.Prelude.{◌≡◌};
ghost use Rattle.std.specs.Result.{result_ok};
ghost use Rattle.codes.specs.Codes.{type_byte, type_of, is_stop, message_byte, message_of, least_size};

#[derive(Clone, Copy, Debug, PartialEq, Eq)]
pub enum TType {
    Stop,
    Void,
    Bool,
    I08,
    Double,
    I16,
    I32,
    I64,
    String,
    Utf7,
    Struct,
    Map,
    Set,
    List,
    Uuid,
}

#[derive(Clone, Copy, Debug, PartialEq, Eq)]
pub enum TMessageType {
    Call,
    Reply,
    Exception,
    OneWay,
}

impl TType {
    // Whether this ends a struct's fields. Refuses nothing.
    // Stop, whose byte is 00, gives true; Void, whose byte is 01, gives false.
    pub fn is_stop(self) -> bool
        ensures { result ≡ is_stop self }
    {
        self == TType::Stop
    }
}

// The byte that a message type is written as. Refuses nothing.
// Call gives 01; OneWay gives 04.
impl From<TMessageType> for u8 {
    ghost from_gives = { λ message_type b. b ≡ message_byte message_type };

    fn from(message_type: TMessageType) -> u8 {
        match message_type {
            TMessageType::Call => 0x01,
            TMessageType::Reply => 0x02,
            TMessageType::Exception => 0x03,
            TMessageType::OneWay => 0x04,
        }
    }
}

// What a byte that stands for no message type gives, for which a read refuses 4.
#[derive(Clone, Copy, Debug, PartialEq, Eq)]
pub struct NoMessageType;

// The message type that a byte stands for. Refuses nothing itself.
// 01 gives Call; 05 gives NoMessageType.
impl TryFrom<u8> for TMessageType {
    type Error = NoMessageType;

    ghost try_from_gives = { λ b r. result_ok r ≡ message_of b };

    #[tactic(auto, using(crate::proofs::Tables::missed_none))]
    fn try_from(b: u8) -> Result<TMessageType, NoMessageType> {
        match b {
            0x01 => Ok(TMessageType::Call),
            0x02 => Ok(TMessageType::Reply),
            0x03 => Ok(TMessageType::Exception),
            0x04 => Ok(TMessageType::OneWay),
            _ => Err(NoMessageType),
        }
    }
}

// The byte that a type is written as. Refuses nothing.
// Struct gives 0C; String and Utf7 both give 0B.
pub fn field_type_to_u8(field_type: TType) -> u8
    ensures { result ≡ type_byte field_type }
{
    match field_type {
        TType::Stop => 0x00,
        TType::Void => 0x01,
        TType::Bool => 0x02,
        TType::I08 => 0x03,
        TType::Double => 0x04,
        TType::I16 => 0x06,
        TType::I32 => 0x08,
        TType::I64 => 0x0A,
        TType::String => 0x0B,
        TType::Utf7 => 0x0B,
        TType::Struct => 0x0C,
        TType::Map => 0x0D,
        TType::Set => 0x0E,
        TType::List => 0x0F,
        TType::Uuid => 0x10,
    }
}

// The type that a byte stands for, or None, for which a read refuses 5. Refuses nothing.
// 0C gives Struct and 0B String; 05 gives None.
#[tactic(auto, using(crate::proofs::Tables::missed_none))]
pub fn field_type_from_u8(b: u8) -> Option<TType>
    ensures { result ≡ type_of b }
{
    match b {
        0x00 => Some(TType::Stop),
        0x01 => Some(TType::Void),
        0x02 => Some(TType::Bool),
        0x03 => Some(TType::I08),
        0x04 => Some(TType::Double),
        0x06 => Some(TType::I16),
        0x08 => Some(TType::I32),
        0x0A => Some(TType::I64),
        0x0B => Some(TType::String),
        0x0C => Some(TType::Struct),
        0x0D => Some(TType::Map),
        0x0E => Some(TType::Set),
        0x0F => Some(TType::List),
        0x10 => Some(TType::Uuid),
        _ => None,
    }
}

// The fewest bytes that a value of the type takes in the binary encoding, as the crate counts them. Refuses nothing.
// I32 gives 4 and Uuid 16; List gives 4, though a list's header has five bytes.
pub fn min_serialized_size(field_type: TType) -> usize
    ensures { result ≡ least_size field_type }
{
    match field_type {
        TType::Stop => 1,
        TType::Void => 1,
        TType::Bool => 1,
        TType::I08 => 1,
        TType::Double => 8,
        TType::I16 => 2,
        TType::I32 => 4,
        TType::I64 => 8,
        TType::String => 4,
        TType::Utf7 => 1,
        TType::Struct => 1,
        TType::Map => 4,
        TType::Set => 4,
        TType::List => 4,
        TType::Uuid => 16,
    }
}
