// Numbers as bytes, low byte first, as the documents' numbers travel. In two, four and eight bytes the library's `from_le_bytes` and `to_le_bytes` read and write them,
// from the bytes that `bytes_at` finds; three bytes, as an address has, are no type's.
#![tactic(auto)]

ghost use Rattle.std.specs.Prelude.{◌≡◌};
ghost use Rattle.numbers.specs.Numbers.{bytes_at, low_first, number_at};

// The bytes from a place on, as many as are wanted: one test for all of them, and a byte that is not there counts as 0.
pub fn bytes_at<const N: usize>(bytes: &[u8], at: usize) -> [u8; N]
    ensures { result ≡ bytes_at N at bytes.now }
{
    let there = lent::span(bytes, at, N);
    if let Some(all) = there.as_array() {
        return *all;
    }
    let mut all = [0; N];
    all[..there.len()].copy_from_slice(there);
    all
}

// The number that three bytes from a place on are.
pub fn number3(bytes: &[u8], at: usize) -> usize
    ensures { result ≡ number_at 3 at bytes.now }
{
    let [first, second, third] = bytes_at::<3>(bytes, at);
    u32::from_le_bytes([first, second, third, 0]) as usize
}

// A number in three bytes.
pub fn low3(n: usize) -> [u8; 3]
    ensures { result ≡ low_first 3 n }
{
    let [low, middle, high, ..] = n.to_le_bytes();
    [low, middle, high]
}
