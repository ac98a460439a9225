//! Where rows of words stand in one list.
ghost use Rattle.std.specs.Prelude.{◌≡◌, take, drop};

use std::cmp::Ordering;

/// Where a row begins among the words, its first word, or 0 where it has none, and how often it waits.
#[derive(Clone, Copy)]
pub(crate) struct Place {
    pub first_word: u64,
    pub start: usize,
    pub times: u64,
}

/// The row of this width that begins there.
pub(crate) fn row_at(words: &[u64], width: usize, start: usize) -> &[u64]
    ensures { result.now ≡ take width (drop start words.now) }
{
    let rest = if start <= words.len() {
        &words[start..]
    } else {
        &[]
    };
    if width <= rest.len() {
        &rest[..width]
    } else {
        rest
    }
}

/// The order of two rows: by their first words, and then as lists.
pub(crate) fn compare(words: &[u64], width: usize, left: &Place, right: &Place) -> Ordering {
    if left.first_word != right.first_word {
        return left.first_word.cmp(&right.first_word);
    }
    let left = row_at(words, width, left.start);
    let right = row_at(words, width, right.start);
    left.cmp(&right)
}
