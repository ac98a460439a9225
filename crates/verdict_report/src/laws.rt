//! A law of the text of words, over the definitions alone.
ghost use Rattle.std.specs.Prelude.{ℕ, ◌^◌, ◌<◌};
ghost use Rattle.verdict_report.specs.Numbers.{IsHexWord, hex_word};

/// The text of a word of 64 bits spells it. Of a larger number it would be the last digits alone.
pub fn words_are_spelled()
    ensures { (word : ℕ) → word < 2 ^ 64 → IsHexWord word (hex_word word) }
{}
