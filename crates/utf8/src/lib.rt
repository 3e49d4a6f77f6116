// Whether a text is UTF-8 (RFC 3629), and how far.
#![tactic(auto)]

ghost use Rattle.std.specs.Prelude.{◌≡◌, ◌<◌, MatchOption};
ghost use Rattle.utf8.specs.UpTo.{table, width, up_to};

// How many bytes the character at the front has, if one stands there: the table of RFC 3629, row by row.
// The first row, ASCII, is a guard, which is tested before the patterns: so it passes fastest.
#[tactic(auto, unfolding(crate::specs::UpTo::width, crate::specs::UpTo::fits, crate::specs::UpTo::table))]
fn char_width(s: &[u8]) -> Option<usize>
    ensures { MatchOption result (width table s.now ≡ 0) (λ w. (0 < w) × (width table s.now ≡ w)) }
{
    match s.split_first()? {
        (first, _) if first.is_ascii() => Some(1),
        (0xC2..=0xDF, [0x80..=0xBF, ..]) => Some(2),
        (0xE0, [0xA0..=0xBF, 0x80..=0xBF, ..]) => Some(3),
        (0xE1..=0xEC, [0x80..=0xBF, 0x80..=0xBF, ..]) => Some(3),
        (0xED, [0x80..=0x9F, 0x80..=0xBF, ..]) => Some(3),
        (0xEE..=0xEF, [0x80..=0xBF, 0x80..=0xBF, ..]) => Some(3),
        (0xF0, [0x90..=0xBF, 0x80..=0xBF, 0x80..=0xBF, ..]) => Some(4),
        (0xF1..=0xF3, [0x80..=0xBF, 0x80..=0xBF, 0x80..=0xBF, ..]) => Some(4),
        (0xF4, [0x80..=0x8F, 0x80..=0xBF, 0x80..=0xBF, ..]) => Some(4),
        _ => None,
    }
}

// The place of the first character that is not well formed, or the length where all are.
// 61 C3 A9 gives 3; 61 C3 A9 FF gives 3; ED A0 80 gives 0.
#[tactic(auto, using(std::proofs::lemmas::List::take_rest, crate::proofs::UpTo::past_char, crate::proofs::UpTo::no_char, crate::proofs::UpTo::within))]
pub fn valid_up_to(text: &[u8]) -> usize
    ensures { result ≡ up_to text.now }
{
    let mut rest = text;
    while let Some(width) = char_width(rest) {
        rest = &rest[width..];
    }
    text.len() - rest.len()
}
