// What the numbers of a call stand for: steps and types.
#![tactic(auto)]

ghost use Rattle.std.specs.Prelude.{◌≡◌};
ghost use Rattle.probe_numbers.specs.Numbers.{read_step_of, write_step_of, kind_of};

use codes::TType;

// The reads that ask for nothing but a place.
#[derive(Clone, Copy, Debug, PartialEq, Eq)]
pub enum Plain {
    Byte,
    Bool,
    I8,
    I16,
    I32,
    I64,
    Double,
    Uuid,
    Type,
    Field,
    MessageType,
    MessageEnd,
    FieldEnd,
    ListEnd,
    SetEnd,
    MapEnd,
}

// The reads that limits or the struct depth bear on.
#[derive(Clone, Copy, Debug, PartialEq, Eq)]
pub enum Bounded {
    Bytes,
    String,
    List,
    Set,
    Map,
    StructBegin,
    StructEnd,
    Message,
    Frame,
    Limits,
}

#[derive(Clone, Copy, Debug, PartialEq, Eq)]
pub enum ReadStep {
    Plain(Plain),
    Bounded(Bounded),
    Scalar,
    Skip,
}

// The writes that put down a number or the text.
#[derive(Clone, Copy, Debug, PartialEq, Eq)]
pub enum Put {
    Stop,
    Byte,
    Bool,
    I8,
    I16,
    I32,
    I64,
    Double,
    Bytes,
    String,
    Frame,
}

// The writes that put down one type, and a number.
#[derive(Clone, Copy, Debug, PartialEq, Eq)]
pub enum Headed {
    Field,
    List,
    Set,
}

// The writes that put down nothing.
#[derive(Clone, Copy, Debug, PartialEq, Eq)]
pub enum Still {
    MessageEnd,
    StructBegin,
    StructEnd,
    FieldEnd,
    ListEnd,
    SetEnd,
    MapEnd,
}

#[derive(Clone, Copy, Debug, PartialEq, Eq)]
pub enum WriteStep {
    Put(Put),
    Headed(Headed),
    Map,
    Message,
    Uuid,
    Still(Still),
}

// The read that a number stands for, None from 28 on. Refuses nothing.
pub fn read_step(b: u8) -> Option<ReadStep>
    ensures { result ≡ read_step_of b }
{
    match b {
        0 => Some(ReadStep::Plain(Plain::Byte)),
        1 => Some(ReadStep::Plain(Plain::Bool)),
        2 => Some(ReadStep::Plain(Plain::I8)),
        3 => Some(ReadStep::Plain(Plain::I16)),
        4 => Some(ReadStep::Plain(Plain::I32)),
        5 => Some(ReadStep::Plain(Plain::I64)),
        6 => Some(ReadStep::Plain(Plain::Double)),
        7 => Some(ReadStep::Bounded(Bounded::Bytes)),
        8 => Some(ReadStep::Bounded(Bounded::String)),
        9 => Some(ReadStep::Plain(Plain::Uuid)),
        10 => Some(ReadStep::Plain(Plain::Type)),
        11 => Some(ReadStep::Plain(Plain::Field)),
        12 => Some(ReadStep::Bounded(Bounded::List)),
        13 => Some(ReadStep::Bounded(Bounded::Set)),
        14 => Some(ReadStep::Bounded(Bounded::Map)),
        15 => Some(ReadStep::Bounded(Bounded::StructBegin)),
        16 => Some(ReadStep::Bounded(Bounded::StructEnd)),
        17 => Some(ReadStep::Plain(Plain::MessageType)),
        18 => Some(ReadStep::Bounded(Bounded::Message)),
        19 => Some(ReadStep::Scalar),
        20 => Some(ReadStep::Plain(Plain::MessageEnd)),
        21 => Some(ReadStep::Plain(Plain::FieldEnd)),
        22 => Some(ReadStep::Plain(Plain::ListEnd)),
        23 => Some(ReadStep::Plain(Plain::SetEnd)),
        24 => Some(ReadStep::Plain(Plain::MapEnd)),
        25 => Some(ReadStep::Bounded(Bounded::Frame)),
        26 => Some(ReadStep::Skip),
        27 => Some(ReadStep::Bounded(Bounded::Limits)),
        _ => None,
    }
}

// The write that a number stands for, None from 24 on. Refuses nothing.
#[tactic(auto, using(codes::proofs::Tables::missed_none))]
pub fn write_step(b: u8) -> Option<WriteStep>
    ensures { result ≡ write_step_of b }
{
    match b {
        0 => Some(WriteStep::Message),
        1 => Some(WriteStep::Still(Still::MessageEnd)),
        2 => Some(WriteStep::Still(Still::StructBegin)),
        3 => Some(WriteStep::Still(Still::StructEnd)),
        4 => Some(WriteStep::Headed(Headed::Field)),
        5 => Some(WriteStep::Still(Still::FieldEnd)),
        6 => Some(WriteStep::Put(Put::Stop)),
        7 => Some(WriteStep::Put(Put::Byte)),
        8 => Some(WriteStep::Put(Put::Bool)),
        9 => Some(WriteStep::Put(Put::I8)),
        10 => Some(WriteStep::Put(Put::I16)),
        11 => Some(WriteStep::Put(Put::I32)),
        12 => Some(WriteStep::Put(Put::I64)),
        13 => Some(WriteStep::Put(Put::Double)),
        14 => Some(WriteStep::Put(Put::Bytes)),
        15 => Some(WriteStep::Put(Put::String)),
        16 => Some(WriteStep::Uuid),
        17 => Some(WriteStep::Headed(Headed::List)),
        18 => Some(WriteStep::Headed(Headed::Set)),
        19 => Some(WriteStep::Map),
        20 => Some(WriteStep::Still(Still::ListEnd)),
        21 => Some(WriteStep::Still(Still::SetEnd)),
        22 => Some(WriteStep::Still(Still::MapEnd)),
        23 => Some(WriteStep::Put(Put::Frame)),
        _ => None,
    }
}

// The type that an index stands for, which is not its byte; None from 15 on. Refuses nothing.
#[tactic(auto, using(codes::proofs::Tables::missed_none))]
pub fn kind(b: u8) -> Option<TType>
    ensures { result ≡ kind_of b }
{
    match b {
        0 => Some(TType::Stop),
        1 => Some(TType::Void),
        2 => Some(TType::Bool),
        3 => Some(TType::I08),
        4 => Some(TType::Double),
        5 => Some(TType::I16),
        6 => Some(TType::I32),
        7 => Some(TType::I64),
        8 => Some(TType::String),
        9 => Some(TType::Utf7),
        10 => Some(TType::Struct),
        11 => Some(TType::Map),
        12 => Some(TType::Set),
        13 => Some(TType::List),
        14 => Some(TType::Uuid),
        _ => None,
    }
}
