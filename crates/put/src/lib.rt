// The leaf writers: a number, or bytes alone and behind their size, at the front of a lent slice. Where there is no
// room for all of it, nothing is written, and nothing is told: the writers that call them have judged room and length.
#![tactic(auto)]

ghost use Rattle.std.specs.Prelude.{◌≡◌, [], ◌∷◌};
ghost use Rattle.wire.specs.Writes.{in_front};
ghost use Rattle.number.specs.BigEndian.{bytes_of};
ghost use Rattle.text.specs.Texts.{sized_layout};

// A byte in front. Refuses nothing.
// 07 into AA AA leaves 07 AA; into no bytes it writes nothing.
pub fn put8(out: &mut [u8], v: u8)
    ensures { out.new ≡ in_front (v ∷ []) out.old }
{
    put_bytes(out, &[v]);
}

// A number of 32 bits in front, big-endian. Refuses nothing.
// 7 into 5 bytes AA leaves 00 00 00 07 AA; into 3 bytes AA it writes nothing.
#[tactic(auto, unfolding(number::specs::BigEndian::bytes_of))]
pub fn put32(out: &mut [u8], v: u32)
    ensures { out.new ≡ in_front (bytes_of 4 v) out.old }
{
    put_bytes(out, &u32::to_be_bytes(v));
}

// A number of 64 bits in front, big-endian. Refuses nothing.
// 7 into 9 bytes AA leaves 00 00 00 00 00 00 00 07 AA; into 7 bytes AA it writes nothing.
#[tactic(auto, unfolding(number::specs::BigEndian::bytes_of))]
pub fn put64(out: &mut [u8], v: u64)
    ensures { out.new ≡ in_front (bytes_of 8 v) out.old }
{
    put_bytes(out, &v.to_be_bytes());
}

// Bytes in front. Refuses nothing.
// 61 62 into AA AA AA leaves 61 62 AA; into AA it writes nothing.
#[tactic(auto, using(wire::proofs::Writes::no_front))]
pub fn put_bytes(out: &mut [u8], src: &[u8])
    ensures { out.new ≡ in_front src.now out.old }
{
    if out.len() < src.len() {
        return;
    }
    out[..src.len()].copy_from_slice(src);
}

// Bytes in front, behind their length in 32 bits: texts, names and frames are written here. Refuses nothing.
// 61 into 6 bytes AA leaves 00 00 00 01 61 AA; into 4 bytes AA it writes nothing.
// A length above 32 bits is cut to its low 32, which no writer asks for: 16 comes first.
pub fn put_sized(out: &mut [u8], src: &[u8])
    ensures { out.new ≡ in_front (sized_layout src.now) out.old }
{
    if out.len() < 4 {
        return;
    }
    if out.len() - 4 < src.len() {
        return;
    }
    put32(out, (src.len() % 4_294_967_296) as u32);
    put_bytes(&mut out[4..], src);
}
