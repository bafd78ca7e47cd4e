// What only drops what is collected, or only adds a byte to it, written where the state lies: the count, and the byte. Nothing else of a state is read or written.
ghost use Rattle.std.specs.Prelude.{◌≡◌};
ghost use Rattle.chip_layout.specs.InPlace.{byte_laid, count_laid, is_added};

// Another count of what is collected: 0 for a gap.
pub fn lay_count(state: &mut [u8; super::STATE_SIZE], n: usize)
    ensures { state.new ≡ count_laid n state.old }
{
    state[25..33].copy_from_slice(&n.to_le_bytes());
}

// Whether the next byte is only added: past header and LEN, and not the last of its frame.
#[tactic(auto, unfolding(crate::specs::InPlace::is_added))]
pub fn is_added(state: &[u8; super::STATE_SIZE]) -> bool
    ensures { result ≡ is_added state.now }
{
    let count = super::number8(state, 25);
    0 < frame::lacking(count, state[34], 1)
}

// One byte more.
pub fn add_byte(state: &mut [u8; super::STATE_SIZE], b: u8)
    ensures { state.new ≡ byte_laid b state.old }
{
    let n = super::number8(state, 25);
    if n < frame::LONGEST {
        lay_count(state, n + 1);
        state[33 + n] = b;
    }
}
