// One line: the call that it stands for, made, and the answer held against the line's.
use crate::line;
use probe_rows::Row;

// Bytes that differ from place to place, so that a stray write shows.
fn untouched() -> [u8; 64] {
    std::array::from_fn(|i| ((i % 64 * 37 + 165) % 256) as u8)
}

// The same with some bytes put at a place.
fn with(bytes: &[u8], place: u64) -> [u8; 64] {
    let mut out = untouched();
    if let Some(part) = out.get_mut(place as usize..) {
        put::put_bytes(part, bytes);
    }
    out
}

fn small(n: u64) -> u8 {
    (n % 256) as u8
}

// The answer, which comes first in a line, `REFUSAL PLACE A B C D`, and the line behind it.
fn answer(line: &[u8]) -> (Row, &[u8]) {
    let ([number, place, a, b, c, d], rest) = line::numbers::<6>(line);
    let row = Row {
        number,
        place,
        a,
        b,
        c,
        d,
    };
    (row, rest)
}

// The answer, then `STEP STRICT KIND DEPTH STRUCT_DEPTH MESSAGE FRAME STRUCTS CONTAINER STRING PLACE BYTES`
fn same_read(line: &[u8]) -> bool {
    let (row, rest) = answer(line);
    let (
        [
            step,
            strict,
            kind,
            depth,
            struct_depth,
            message,
            frame,
            structs,
            container,
            string,
            at,
        ],
        rest,
    ) = line::numbers::<11>(rest);
    let (input, _) = line::bytes(rest);
    let call = probe_reads::asked_with(
        at as usize,
        small(strict),
        small(kind),
        depth as usize,
        struct_depth as usize,
        message as usize,
        frame as usize,
        structs as usize,
        container as usize,
        string as usize,
    );
    probe_reads::by_number(input.as_slice(), small(step), call) == Some(row)
}

// The answer, then `STEP STRICT KIND OTHER ABSENT NUMBER STRUCT_DEPTH STRUCTS PLACE LENGTH 0 TEXT WRITTEN`
fn same_write(line: &[u8]) -> bool {
    let (row, rest) = answer(line);
    let (
        [
            step,
            strict,
            kind,
            other,
            absent,
            number,
            struct_depth,
            structs,
            at,
            length,
            _,
        ],
        rest,
    ) = line::numbers::<11>(rest);
    let (text, rest) = line::bytes(rest);
    let (written, _) = line::bytes(rest);
    let call = probe_writes::asked_with(
        at as usize,
        small(strict),
        small(kind),
        small(other),
        small(absent),
        number,
        struct_depth as usize,
        structs as usize,
    );
    let mut out = untouched();
    let Some(lent) = out.get_mut(..length as usize) else {
        return false;
    };
    let row_is_same = probe_writes::by_number(lent, small(step), call, text.as_slice())
        == Some(row);
    row_is_same && out == with(written.as_slice(), at)
}

// `r` or `w`, a space, and the call.
pub(crate) fn same_answer(line: &[u8]) -> bool {
    match line {
        [b'r', _, call @ ..] => same_read(call),
        [_, _, call @ ..] => same_write(call),
        _ => false,
    }
}
