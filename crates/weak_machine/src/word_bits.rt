//! Single bits of words.
ghost use Rattle.std.specs.Prelude.{◌≡◌, ◌*◌, ◌/◌, ◌^◌, ◌<◌, ◌≤◌, true, false, Some, length, count_ones, slice_get};
ghost use Rattle.weak_machine.specs.NodeSets.{ChangesBit, has_bit, bits_of, set_below};

/// Sets the bit of the number.
pub fn set_bit(words: &mut [u64], n: u32)
    requires { n / 64 < length words.old }
    ensures { ChangesBit words.old words.new n true }
{
    words[n as usize / 64] |= 1 << (n % 64);
}

/// Clears the bit of the number.
pub fn clear_bit(words: &mut [u64], n: u32)
    requires { n / 64 < length words.old }
    ensures { ChangesBit words.old words.new n false }
{
    words[n as usize / 64] &= !(1 << (n % 64));
}

/// Whether the bit of the number is set.
pub fn has_bit(words: &[u64], n: u32) -> bool
    requires { n / 64 < length words.now }
    ensures { result ≡ has_bit words.now n }
{
    (words[n as usize / 64] >> (n % 64)) & 1 == 1
}

/// The place of the bit with a number among the bits of a word that are set, counted from 0 at the lowest.
pub fn nth_bit(word: u64, k: u32) -> u32
    requires { k < count_ones word }
    ensures { slice_get (bits_of word) k ≡ Some result }
{
    let mut rest = word;
    for cleared in 0..k {
        // Without the lowest.
        rest &= !(1 << rest.trailing_zeros());
    }
    rest.trailing_zeros()
}

/// The number with a place among those whose bits are set, counted from 0 at the least.
pub fn nth_set(words: &[u64], k: u32) -> u32
    requires few { length words.now ≤ 2 ^ 20 }
    requires within { k < length (set_below words.now (64 * length words.now)) }
    ensures { slice_get (set_below words.now (64 * length words.now)) k ≡ Some result }
{
    let mut left = k;
    for (i, word) in words.iter().enumerate() {
        let ones = word.count_ones();
        if left < ones {
            return 64 * i as u32 + nth_bit(*word, left);
        }
        left -= ones;
    }
    unreachable!()
}
