//! Which operations were performed, and which can be.
ghost use Rattle.std.specs.Prelude.{◌≡◌, ℕ, ◌+◌, ◌<◌, ◌≤◌, ◌^◌, ◌==◌, ◌&&◌, ◌||◌, [], true, false, length, All, Contains, IfOk, sum_by, count_by, slice_index, slice_index_or, slice_set};
ghost use Rattle.test_lang.specs.Play.States.{has};
ghost use Rattle.weak_machine.specs.NodeSets.{has_flag, no_flags};
ghost use Rattle.weak_machine.specs.Progress.{missing_of, IsProgress};

use crate::lists::Lists;
use crate::node_set::NodeSet;
use std::alloc::{AllocError, Global};

/// How far a play has come.
#[derive(Debug, Drop)]
pub struct Progress {
    pub performed: Vec<bool>,
    /// By node: in how many lists of nodes that weren't performed it is.
    pub missing: Vec<u32>,
    /// The nodes that weren't performed and miss none.
    pub ready: NodeSet,
    /// How many nodes weren't performed.
    pub left: u32,
}

/// Adds one for each node of a list.
fn raise(missing: &mut [u32], nodes: &[u32])
    requires inside { All (λ n. n < length missing.old) nodes.now }
    requires room { (t : ℕ) → t < length missing.old →
        slice_index missing.old t + count_by (λ n. n == t) nodes.now < 2 ^ 32 }
    ensures more { (t : ℕ) → t < length missing.old →
        slice_index missing.new t ≡ slice_index missing.old t + count_by (λ n. n == t) nodes.now }
{
    for node in nodes {
        missing[*node as usize] += 1;
    }
}

/// Takes one away for each node of a list, and takes the nodes that miss none then into the set.
fn release(missing: &mut [u32], ready: &mut NodeSet, nodes: &[u32])
    requires inside { All (λ n. n < length missing.old) nodes.now }
    requires same { length ready.old ≡ length missing.old }
    requires enough { (t : ℕ) → t < length missing.old →
        count_by (λ n. n == t) nodes.now ≤ slice_index missing.old t }
    requires apart { (t : ℕ) → Contains nodes.now t → has_flag ready.old t ≡ false }
    ensures less { (t : ℕ) → t < length missing.old →
        slice_index missing.new t + count_by (λ n. n == t) nodes.now ≡ slice_index missing.old t }
    ensures ready { (t : ℕ) → t < length missing.old →
        has_flag ready.new t ≡ (has_flag ready.old t || (has nodes.now t && (slice_index missing.new t == 0))) }
    ensures same { length ready.new ≡ length ready.old }
{
    for node in nodes {
        let count = missing[*node as usize] - 1;
        missing[*node as usize] = count;
        if count == 0 {
            ready.insert(*node);
        }
    }
}

/// In how many lists each node is.
fn count_missing(alloc: Global, lists: &Lists) -> Result<Vec<u32>, AllocError>
    requires inside { All (λ list. All (λ n. n < length lists.now) list) lists.now }
    requires nodes { length lists.now ≤ 2048 }
    requires few { sum_by length lists.now < 2 ^ 32 }
    ensures one_each { IfOk result (λ missing. length missing.items ≡ length lists.now) }
    ensures counts { IfOk result (λ missing. (n : ℕ) → n < length lists.now →
        slice_index missing.items n ≡ missing_of lists.now [] n) }
{
    let mut missing = vec![in alloc; 0u32; lists.len()]?;
    for place in 0..lists.len() as u32 {
        raise(&mut missing, lists.at(place));
    }
    Ok(missing)
}

/// The nodes that miss none.
fn find_ready(alloc: Global, missing: &[u32]) -> Result<NodeSet, AllocError>
    requires { length missing.now ≤ 2048 }
    ensures one_each { IfOk result (λ ready. length ready ≡ length missing.now) }
    ensures found { IfOk result (λ ready. (n : ℕ) → n < length missing.now →
        has_flag ready n ≡ (slice_index missing.now n == 0)) }
{
    let mut ready = NodeSet::new(alloc, missing.len() as u32)?;
    for (node, count) in missing.iter().enumerate() {
        if *count == 0 {
            ready.insert(node as u32);
        }
    }
    Ok(ready)
}

impl Progress {
    /// Nothing was performed.
    pub fn new(alloc: Global, lists: &Lists) -> Result<Progress, AllocError>
        requires inside { All (λ list. All (λ n. n < length lists.now) list) lists.now }
        requires nodes { length lists.now ≤ 2048 }
        requires few { sum_by length lists.now < 2 ^ 32 }
        ensures progress { IfOk result (λ p.
            IsProgress lists.now p.performed.items p.missing.items p.ready p.left) }
        ensures none { IfOk result (λ p. p.performed.items ≡ no_flags (length lists.now)) }
    {
        let missing = count_missing(alloc, lists)?;
        let ready = find_ready(alloc, &missing)?;
        Ok(Progress {
            performed: vec![in alloc; false; lists.len()]?,
            missing,
            ready,
            left: lists.len() as u32,
        })
    }

    /// Performs a node that can be.
    pub fn perform(&mut self, lists: &Lists, node: u32)
        requires progress { IsProgress lists.now self.old.performed.items self.old.missing.items self.old.ready self.old.left }
        requires ready { has_flag self.old.ready node ≡ true }
        requires inside { All (λ n. n < length lists.now) (slice_index_or lists.now node []) }
        requires apart { (t : ℕ) → Contains (slice_index_or lists.now node []) t →
            has_flag self.old.performed.items t ≡ false }
        requires other { has (slice_index_or lists.now node []) node ≡ false }
        ensures progress { IsProgress lists.now self.new.performed.items self.new.missing.items self.new.ready self.new.left }
        ensures performed { self.new.performed.items
            ≡ slice_set self.old.performed.items node true }
    {
        self.ready.remove(node);
        self.performed[node as usize] = true;
        self.left -= 1;
        release(&mut self.missing, &mut self.ready, lists.at(node));
    }

    /// Becomes the other one, of as many nodes.
    pub fn copy_from(&mut self, other: &Progress)
        requires performed { length self.old.performed.items ≡ length other.now.performed.items }
        requires missing { length self.old.missing.items ≡ length other.now.missing.items }
        requires ready { length self.old.ready ≡ length other.now.ready }
        ensures performed { self.new.performed.items ≡ other.now.performed.items }
        ensures missing { self.new.missing.items ≡ other.now.missing.items }
        ensures ready { self.new.ready ≡ other.now.ready }
        ensures left { self.new.left ≡ other.now.left }
    {
        self.performed.copy_from_slice(&other.performed);
        self.missing.copy_from_slice(&other.missing);
        self.ready.copy_from(&other.ready);
        self.left = other.left;
    }
}
