// Numbers, parts and fields of a lent list of bytes. What is read past the end is 0, and a part has no more bytes than
// are there. A field is a tag byte, a two-byte length and its content (01, "Rule file").
#![tactic(auto)]

ghost use Rattle.std.specs.Prelude.{◌≡◌, ◌+◌, ◌<◌, ◌^◌, get_or, take, drop};
ghost use Rattle.fields.specs.Bytes.{two_at, four_at, part_at, same};
ghost use Rattle.fields.specs.Field.{field_at};
ghost use Rattle.fields.specs.Seen.{seen};

// The byte at i, and 0 past the end.
pub fn byte(s: &[u8], i: usize) -> u8
    ensures { result ≡ get_or s.now i 0 }
{
    s.get(i).copied().unwrap_or(0)
}

// The bytes from `start` on, and none where that is past the end.
pub fn after(s: &[u8], start: usize) -> &[u8]
    ensures { result.now ≡ drop start s.now }
{
    &s[start.min(s.len())..]
}

// The two-byte number at i.
pub fn two(s: &[u8], i: usize) -> u32
    ensures { (result ≡ two_at s.now i) × (result < 65536) }
{
    let rest = after(s, i);
    u32::from(u16::from_be_bytes([byte(rest, 0), byte(rest, 1)]))
}

// The four-byte number at i. Most often all bytes are there, which is asked once.
pub fn four(s: &[u8], i: usize) -> u32
    ensures { result ≡ four_at s.now i }
{
    match after(s, i) {
        [a, b, c, d, ..] => u32::from_be_bytes([*a, *b, *c, *d]),
        rest => two(rest, 0) * 65536 + two(rest, 2),
    }
}

// The first n bytes, or all where there are fewer.
fn first(s: &[u8], n: usize) -> &[u8]
    ensures { result.now ≡ take n s.now }
{
    &s[..n.min(s.len())]
}

pub fn part(s: &[u8], start: usize, length: usize) -> &[u8]
    ensures { result.now ≡ part_at s.now start length }
{
    first(after(s, start), length)
}

// A tag byte and a two-byte length stand before the content of a field.
pub const HEADER: usize = 3;

// A field of a file. One that is not whole has as much content as is there.
#[derive(Clone, Copy)]
pub struct Field<'a> {
    // Where the content begins in the file.
    pub start: usize,
    pub tag: u8,
    pub whole: bool,
    pub content: &'a [u8],
}

// The field that begins at `at`. Its tag, whether it is whole and its content are asked for at any place; where its
// content begins, at each that a file can have.
#[tactic(auto, unfolding(crate::specs::Field::field_at))]
pub fn field_at(file: &[u8], at: usize) -> Field<'_>
    ensures tag { result.tag ≡ (field_at at (drop at file.now)).tag }
    ensures whole { result.whole ≡ (field_at at (drop at file.now)).whole }
    ensures content { result.content.now ≡ (field_at at (drop at file.now)).content }
    ensures seen { at < 2 ^ 63 → seen result ≡ field_at at (drop at file.now) }
{
    let rest = after(file, at);
    let length = two(rest, 1) as usize;
    Field {
        start: at.saturating_add(HEADER),
        tag: byte(rest, 0),
        whole: HEADER + length <= rest.len(),
        content: part(rest, HEADER, length),
    }
}

// Past the field at `at`, whole or not.
pub fn next_field(file: &[u8], at: usize) -> usize
    requires { at < 2 ^ 63 }
    ensures { result ≡ at + (3 + two_at (drop at file.now) 1) }
{
    at + (HEADER + two(after(file, at), 1) as usize)
}

// By the definition's name: files of another layout compare parts too.
pub fn same_bytes(a: &[u8], b: &[u8]) -> bool
    ensures { result ≡ same a.now b.now }
{
    a == b
}
