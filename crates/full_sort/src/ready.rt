//! Ready nodes: a set, and the least of those that came last, which is kept apart. In most orders that one comes next, so it needn't pass through the set.
ghost use Rattle.std.specs.Prelude.{◌≡◌, ◌↔◌, ◌⊎◌, ℕ, ◌*◌, ◌<◌, length};
ghost use Rattle.full_sort.specs.Ready.{HasRoom, IsHeld, TakesHeld};

use crate::node_set::NodeSet;

/// Adds a node. The least of it and the one kept apart is kept apart then, which is the result; the other is in the set.
pub fn add_ready(ready: &mut NodeSet, kept: Option<u32>, node: u32) -> Option<u32>
    requires node { node < 64 * length ready.old }
    requires kept { HasRoom ready.old kept }
    ensures added { (t : ℕ) → IsHeld ready.new result t ↔ (IsHeld ready.old kept t ⊎ (t ≡ node)) }
    ensures kept { HasRoom ready.new result }
    ensures room { length ready.new ≡ length ready.old }
{
    match kept {
        None => Some(node),
        Some(other) if other < node => {
            ready.insert(node);
            Some(other)
        }
        Some(other) => {
            ready.insert(other);
            Some(node)
        }
    }
}

/// Takes the least node. None is kept apart then.
pub fn take_ready(ready: &mut NodeSet, kept: Option<u32>) -> Option<u32>
    requires { HasRoom ready.old kept }
    ensures { TakesHeld ready.old kept ready.new result }
{
    let least = ready.least();
    match (kept, least) {
        (None, None) => None,
        (Some(node), None) => Some(node),
        (None, Some(node)) => {
            ready.remove(node);
            Some(node)
        }
        (Some(node), Some(other)) if node < other => Some(node),
        (Some(node), Some(other)) => {
            ready.insert(node);
            ready.remove(other);
            Some(other)
        }
    }
}
