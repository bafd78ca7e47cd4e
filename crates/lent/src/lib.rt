// Work on lent bytes that every floor above shares: bytes put at a place in lent room, read at a place that may lie past the end, compared.
#![tactic(auto)]

ghost use Rattle.std.specs.Prelude.{◌≡◌, drop, get_or, length, take};
ghost use Rattle.lent.specs.Lent.{all_are, left, put_of, same};

// The room was short; then nothing was changed.
#[derive(Clone, Copy, Debug, PartialEq, Eq)]
pub struct Short;

pub fn put(room: &mut [u8], at: usize, s: &[u8]) -> Result<(), Short>
    ensures { left result room.new ≡ put_of room.old at s.now }
{
    if room.len() < s.len() {
        return Err(Short);
    }
    if room.len() - s.len() < at {
        return Err(Short);
    }
    room[at..at + s.len()].copy_from_slice(s);
    Ok(())
}

// The test carries its answer and never returns early: the loop takes many bytes at once.
#[tactic(auto, using(crate::proofs::Laws::all_are_more), unfolding(crate::specs::Lent::all_are))]
pub fn are_all(bytes: &[u8], value: u8) -> bool
    ensures { result ≡ all_are value bytes.now }
{
    let mut ok = true;
    for &b in bytes {
        ok &= b == value;
    }
    ok
}

#[tactic(auto, using(crate::proofs::Laws::same_is_pointwise))]
pub fn is_same(bytes: &[u8], others: &[u8]) -> bool
    ensures { result ≡ same bytes.now others.now }
{
    bytes == others
}

// The byte at the place i; 0 where there is none.
pub fn byte_at(bytes: &[u8], i: usize) -> u8
    ensures { result ≡ get_or bytes.now i 0 }
{
    bytes.get(i).copied().unwrap_or(0)
}

// Whether the bytes from a place on are these; not where there are fewer.
#[tactic(auto, using(crate::proofs::Laws::same_is_pointwise))]
pub fn is_same_at(bytes: &[u8], at: usize, others: &[u8]) -> bool
    ensures { result ≡ same (take (length others.now) (drop at bytes.now)) others.now }
{
    span(bytes, at, others.len()) == others
}

// The bytes of a stretch that may run past the end.
pub fn span(bytes: &[u8], from: usize, n: usize) -> &[u8]
    ensures { result.now ≡ take n (drop from bytes.now) }
{
    let rest = &bytes[from.min(bytes.len())..];
    &rest[..n.min(rest.len())]
}
