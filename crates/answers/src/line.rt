// A line of the kept list, cut into words: numbers and strings of bytes, both in hex, with a space between two.
ghost use Rattle.std.specs.Prelude.{◌≤◌};

use arrayvec::ArrayVec;

// The value of a digit; what is none counts as some digit.
fn digit(b: u8) -> u8
    ensures { result ≤ 15 }
{
    if b < b'a' {
        return b % 16;
    }
    (b % 16 + 9) % 16
}

// The first byte, a space where there is none: so a word ends with the line.
fn first(line: &[u8]) -> u8 {
    line.first().copied().unwrap_or(b' ')
}

// The line behind its first byte.
fn behind(line: &[u8]) -> &[u8] {
    line.get(1..).unwrap_or(&[])
}

// A word ends with a space, the line's end, or where there is a dash for no bytes.
fn ends(b: u8) -> bool {
    matches!(b, b' ' | b'\n' | b'-')
}

// A number, and the line behind it.
pub(crate) fn number(line: &[u8]) -> (u64, &[u8]) {
    let end = line.iter().position(|b| ends(*b)).unwrap_or(line.len());
    let (word, rest) = line.split_at(end);
    let mut value = 0;
    for b in word {
        value = value % 0x1000_0000_0000_0000 * 16 + digit(*b) as u64;
    }
    (value, behind(rest))
}

// As many numbers as are asked for, and the line behind them.
pub(crate) fn numbers<const N: usize>(line: &[u8]) -> ([u64; N], &[u8]) {
    let mut numbers = [0; N];
    let mut rest = line;
    for cell in &mut numbers {
        (*cell, rest) = number(rest);
    }
    (numbers, rest)
}

// A string of at most 64 bytes, and the line behind it. An empty one is a dash.
pub(crate) fn bytes(line: &[u8]) -> (ArrayVec<u8, 64>, &[u8]) {
    let mut bytes = ArrayVec::new();
    let mut rest = line;
    while !bytes.is_full() && !ends(first(rest)) {
        let low = behind(rest);
        bytes.push(digit(first(rest)) * 16 + digit(first(low)));
        rest = behind(low);
    }
    if first(rest) == b'-' {
        rest = behind(rest);
    }
    (bytes, behind(rest))
}
