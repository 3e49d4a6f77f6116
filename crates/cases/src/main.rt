// Shows the codec at work: one line for each case, what was asked and what was answered.
#![tactic(auto)]

use codes::TType;
use config::configuration::TConfiguration;
use std::io;
use wire::cursor::Cursor;

fn show_i32(rt: &impl Print, bytes: &[u8], at: usize) -> io::Result<()> {
    match number::read_i32(bytes, Cursor::new(at)) {
        Ok((v, next)) => println!(rt; "{v}, end {}", next.at),
        Err(refusal) => println!(rt; "{refusal}"),
    }
}

fn show_build(rt: &impl Print, limits: TConfiguration) -> io::Result<()> {
    match limits.build() {
        Ok(_) => println!(rt; "built"),
        Err(refusal) => println!(rt; "{refusal}"),
    }
}

fn show_message(rt: &impl Print, bytes: &[u8], strict: bool) -> io::Result<()> {
    let start = Cursor::new(0);
    let limits = TConfiguration::default();
    match message::read_message_begin(bytes, start, strict, limits) {
        Ok((m, next)) => {
            let kind = u8::from(m.message_type);
            print!(rt; "type {kind}, name ")?;
            rt.write_all(text::part(bytes, m.name))?;
            println!(rt; ", number {}, end {}", m.sequence_number, next.at)
        }
        Err(refusal) => println!(rt; "{refusal}"),
    }
}

fn show_skip(rt: &impl Print, bytes: &[u8], field_type: TType, depth: usize) -> io::Result<()> {
    let limits = TConfiguration::default();
    match skip::till_depth::skip_till_depth(bytes, Cursor::new(0), field_type, depth, 0, limits) {
        Ok(passed) => println!(rt; "end {}, count {}", passed.next.at, passed.count),
        Err(halt) => println!(rt; "count {}, {}", halt.count, halt.refusal),
    }
}

fn show_skips(rt: &impl Print) -> io::Result<()> {
    print!(rt; "W4 skip Bool over 02, depth 1: ")?;
    show_skip(rt, b"\x02", TType::Bool, 1)?;
    print!(rt; "W4 skip Bool over 02, depth 0: ")?;
    show_skip(rt, b"\x02", TType::Bool, 0)?;
    print!(rt; "W5 skip List over 03 00 00 00 02 05 06, depth 2: ")?;
    show_skip(rt, b"\x03\x00\x00\x00\x02\x05\x06", TType::List, 2)?;
    print!(rt; "W6 the same at depth 1: ")?;
    show_skip(rt, b"\x03\x00\x00\x00\x02\x05\x06", TType::List, 1)?;
    print!(rt; "W7 skip List over 01 00 00 00 00, depth 1: ")?;
    show_skip(rt, b"\x01\x00\x00\x00\x00", TType::List, 1)?;
    print!(rt; "W8 skip List over 01 00 00 00 01, depth 2: ")?;
    show_skip(rt, b"\x01\x00\x00\x00\x01", TType::List, 2)?;
    print!(rt; "W9 skip Struct over 08 00 01 00 00 00 09 00, depth 2: ")?;
    show_skip(rt, b"\x08\x00\x01\x00\x00\x00\x09\x00", TType::Struct, 2)?;
    print!(rt; "W10 skip String over FF FF FF FF, depth 64: ")?;
    show_skip(rt, b"\xFF\xFF\xFF\xFF", TType::String, 64)
}

fn show_frame(rt: &impl Print, bytes: &[u8]) -> io::Result<()> {
    match framed::read_frame(bytes, Cursor::new(0), TConfiguration::default()) {
        Ok((Some(payload), next)) => {
            let len = text::part(bytes, payload).len();
            println!(rt; "payload of {len}, place {}", next.at)
        }
        Ok((None, _)) => println!(rt; "end"),
        Err(refusal) => println!(rt; "{refusal}"),
    }
}

fn show_field(rt: &impl Print, field_type: TType, id: Option<i16>) -> io::Result<()> {
    let mut out = [0xFF; 4];
    match write_headers::field::write_field_begin(&mut out, Cursor::new(0), field_type, id) {
        Ok(next) => {
            let [a, b, c, d] = out;
            println!(rt; "{} bytes, the buffer then {a} {b} {c} {d}", next.at)
        }
        Err(refusal) => println!(rt; "{refusal}"),
    }
}

fn show_all(rt: &impl Print) -> io::Result<()> {
    print!(rt; "W1 strict read of 80 01 00 01 00 00 00 02 61 62 00 00 00 07: ")?;
    show_message(
        rt,
        b"\x80\x01\x00\x01\x00\x00\x00\x02ab\x00\x00\x00\x07",
        true,
    )?;
    print!(rt; "W2 non-strict read of 00 00 00 02 61 62 01 00 00 00 07: ")?;
    show_message(rt, b"\x00\x00\x00\x02ab\x01\x00\x00\x00\x07", false)?;
    print!(rt; "W3 strict read of W2: ")?;
    show_message(rt, b"\x00\x00\x00\x02ab\x01\x00\x00\x00\x07", true)?;
    show_skips(rt)?;
    print!(rt; "W11 frame 00 00 00 00: ")?;
    show_frame(rt, b"\x00\x00\x00\x00")?;
    print!(rt; "W12 field Stop with id 5 written: ")?;
    show_field(rt, TType::Stop, Some(5))?;
    print!(rt; "field Stop without an id written: ")?;
    show_field(rt, TType::Stop, None)?;
    print!(rt; "field I32 without an id written: ")?;
    show_field(rt, TType::I32, None)?;
    print!(rt; "i32 of FF FF FF FE: ")?;
    show_i32(rt, b"\xFF\xFF\xFF\xFE", 0)?;
    print!(rt; "i32 of 00 00 00: ")?;
    show_i32(rt, b"\x00\x00\x00", 0)?;
    print!(rt; "i32 at 4 of 00 00 00: ")?;
    show_i32(rt, b"\x00\x00\x00", 4)?;
    print!(rt; "frame limit equal to message limit: ")?;
    show_build(
        rt,
        TConfiguration::default().max_message_size(Some(16_384_000)),
    )?;
    print!(rt; "frame limit one above message limit: ")?;
    show_build(
        rt,
        TConfiguration::default().max_message_size(Some(16_383_999)),
    )
}

// What can't be printed is let go, as there is no one to tell.
fn main(rt: HostRuntime) {
    let _ = show_all(&rt);
}
