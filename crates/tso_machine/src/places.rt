//! The places of a buffer without order from which an entry may leave.
ghost use Rattle.std.specs.Prelude.{◌≡◌, ◌<◌, ◌≤◌, All, Some, length, slice_get};
ghost use Rattle.test_lang.specs.Actions.{is_store_fence, op_of};
ghost use Rattle.test_lang.specs.Program.{HasWordBelow, op_count};
ghost use Rattle.test_lang.specs.Play.Machines.{holds_back};
ghost use Rattle.tso_machine.specs.Places.{free_places, is_free, passes, with_met};

use test_lang::op::{Action, FenceKind};
use test_lang::test::{MAX_WORDS, Test};

/// Whether an action that waits keeps one behind it from passing: a store fence passes nothing and nothing passes it, and no store passes one to its word.
fn holds_back(first: Action, second: Action) -> bool
    ensures { result ≡ holds_back first second }
{
    match (first, second) {
        (
            Action::Fence {
                kind: FenceKind::Store,
            },
            _,
        ) => true,
        (
            _,
            Action::Fence {
                kind: FenceKind::Store,
            },
        ) => true,
        (
            Action::Load { word } | Action::Store { word },
            Action::Load { word: other } | Action::Store { word: other },
        ) => word == other,
        _ => false,
    }
}

/// Whether nothing that stands before the entry at the place holds it back.
pub fn is_free(test: &Test, entries: &[u32], place: u32) -> bool
    requires nodes { All (λ node. node < op_count test.now) entries.now }
    requires place { place < length entries.now }
    ensures { result ≡ is_free test.now entries.now place }
{
    let second = test.action(entries[place as usize]);
    for node in &entries[..place as usize] {
        if holds_back(test.action(*node), second) {
            return false;
        }
    }
    true
}

fn is_store_fence(action: Action) -> bool
    ensures { result ≡ is_store_fence action }
{
    matches!(
        action,
        Action::Fence {
            kind: FenceKind::Store
        }
    )
}

/// Whether the next entry may leave, by the words that were met before it and its place. No store fence was met. Its word is met then.
fn passes(met: &mut [bool], action: Action, place: u32) -> bool
    requires long { length met.old ≡ MAX_WORDS }
    requires word { HasWordBelow MAX_WORDS (op_of action) }
    ensures passes { result ≡ passes met.old action place }
    ensures met { met.new ≡ with_met met.old action }
{
    match action {
        Action::Load { word } | Action::Store { word } => {
            let passes = !met[word as usize];
            met[word as usize] = true;
            passes
        }
        Action::Fence { kind } => match kind {
            FenceKind::Store => place == 0,
            FenceKind::Full | FenceKind::Load => true,
        },
    }
}

/// How many places there are from which an entry may leave. It looks at each entry once, and at none behind a store fence.
pub fn count_free(test: &Test, entries: &[u32]) -> u32
    requires nodes { All (λ node. node < op_count test.now) entries.now }
    requires few { length entries.now ≤ 2048 }
    requires words { test.now.words ≤ MAX_WORDS }
    ensures { result ≡ length (free_places test.now entries.now) }
{
    let mut met = [false; MAX_WORDS as usize];
    let mut count = 0;
    for place in 0..entries.len() as u32 {
        let action = test.action(entries[place as usize]);
        count += u32::from(passes(&mut met, action, place));
        if is_store_fence(action) {
            return count;
        }
    }
    count
}

/// The place with a number among them, counted from 0.
pub fn nth_free(test: &Test, entries: &[u32], k: u32) -> u32
    requires nodes { All (λ node. node < op_count test.now) entries.now }
    requires few { length entries.now ≤ 2048 }
    requires words { test.now.words ≤ MAX_WORDS }
    requires k { k < length (free_places test.now entries.now) }
    ensures { slice_get (free_places test.now entries.now) k ≡ Some result }
{
    let mut met = [false; MAX_WORDS as usize];
    let mut left = k;
    for place in 0..entries.len() as u32 {
        let action = test.action(entries[place as usize]);
        let free = u32::from(passes(&mut met, action, place));
        if left < free {
            return place;
        }
        left -= free;
        if is_store_fence(action) {
            break;
        }
    }
    unreachable!()
}
