//! Single bits of a slice of words, and of one that a second slice sums up.
ghost use Rattle.std.specs.Prelude.{◌≡◌, ◌<◌, ◌≤◌, ◌/◌, ◌*◌, ◌^◌, length};
ghost use Rattle.std.specs.Bool.{OnTrue, OnFalse};
ghost use Rattle.full_sort.specs.Bits.{bit_of, ChangesBit, IsFirstBit, IsSummed};

/// Sets the bit of the number.
pub fn set_bit(words: &mut [u64], n: usize)
    requires { n / 64 < length words.old }
    ensures { ChangesBit words.old words.new n 1 }
{
    words[n / 64] |= 1 << (n % 64);
}

/// Clears the bit of the number where the condition holds. Both ways take the same steps, since which one comes is hard to foresee.
pub fn clear_bit_if(words: &mut [u64], n: usize, condition: bool)
    requires { n / 64 < length words.old }
    ensures cleared { OnTrue condition (ChangesBit words.old words.new n 0) }
    ensures kept { OnFalse condition (words.new ≡ words.old) }
{
    let bit = if condition { 1 << (n % 64) } else { 0 };
    words[n / 64] &= !bit;
}

/// The least number whose bit is set.
pub fn first_bit(words: &[u64]) -> Option<usize>
    requires { length words.now ≤ 2 ^ 32 }
    ensures { IsFirstBit words.now result }
{
    for (i, word) in words.iter().enumerate() {
        if *word != 0 {
            return Some(64 * i + word.trailing_zeros() as usize);
        }
    }
    None
}

/// Sets the bit of a node, and that of its word in the summary.
pub fn set_both(low: &mut [u64], high: &mut [u64], node: u32)
    requires summed { IsSummed low.old high.old }
    requires room { node < 64 * length low.old }
    ensures summed { IsSummed low.new high.new }
    ensures change { ChangesBit low.old low.new node 1 }
{
    set_bit(low, node as usize);
    set_bit(high, node as usize / 64);
}

/// Clears the bit of a node of the set, and that of its word in the summary where that is then 0.
pub fn clear_both(low: &mut [u64], high: &mut [u64], node: u32)
    requires summed { IsSummed low.old high.old }
    requires has { bit_of low.old node ≡ 1 }
    ensures summed { IsSummed low.new high.new }
    ensures change { ChangesBit low.old low.new node 0 }
{
    let word = node as usize / 64;
    clear_bit_if(low, node as usize, true);
    clear_bit_if(high, word, low[word] == 0);
}

/// The least node of the set.
pub fn least_of(low: &[u64], high: &[u64]) -> Option<u32>
    requires { IsSummed low.now high.now }
    ensures { IsFirstBit low.now result }
{
    match first_bit(high) {
        None => None,
        Some(word) => Some((64 * word + low[word].trailing_zeros() as usize) as u32),
    }
}
