//! A test: threads of operations over a number of words, with tables that answer for each node in constant time.
ghost use Rattle.std.specs.Prelude.{◌≡◌, ◌<◌, ◌≤◌, length, IsTrue, OnOk, OnErr};
ghost use Rattle.test_lang.specs.Actions.{op_of, allows, allows_kind};
ghost use Rattle.test_lang.specs.Program.{empty_program, with_thread, with_action, with_op, op_count, HasWord, IsWithinLimits};
ghost use Rattle.test_lang.specs.Values.{load_count, store_count};

use crate::op::{Action, FenceKind, Op};
use std::alloc::{AllocError, Global};
use std::marker::Model;

mod copies;
mod lookups;
#[cfg(test)]
pub(crate) mod tests;

/// The last version of tests. The first is 1. Only this one has store fences and load fences.
pub const LAST_VERSION: u32 = 2;

/// The most words that a test may have.
pub const MAX_WORDS: u32 = 256;

/// The most threads that a test may have.
pub const MAX_THREADS: u32 = 16;

/// The most operations that a test may have, in all its threads.
pub const MAX_OPS: u32 = 2048;

/// What the accessors answer of one node.
#[derive(Clone, Copy, Debug, Drop)]
struct Row {
    thread: u32,
    action: Action,
    /// One more than the number of stores before the node: its value, where it is a store.
    value: u32,
    /// The number of loads before the node: its rank, where it is a load.
    rank: u32,
}

/// A test: a version, 1 to `MAX_WORDS` words, and at most `MAX_THREADS` threads of at most `MAX_OPS` operations in all.
///
/// Its operations, numbered from 0 in text order, fences included, are its nodes. Loads have ranks from 0, and stores have values from 1,
/// both in text order.
#[derive(Debug, Drop)]
pub struct Test {
    version: u32,
    words: u32,
    rows: Vec<Row>,
    load_nodes: Vec<u32>,
    store_nodes: Vec<u32>,
    first_nodes: Vec<u32>,
}

impl Model for Test {
    ghost use Rattle.std.specs.Prelude.{length};
    ghost use Rattle.test_lang.specs.Program.{Program};
    ghost use Rattle.test_lang.specs.Tables.{program_of, TabulatesTest};

    ghost Value = { Program };

    ghost view = { λ t. program_of t.version t.words (length t.first_nodes.items) t.rows.items };

    ghost invariant = { λ t. TabulatesTest (program_of t.version t.words (length t.first_nodes.items) t.rows.items)
        t.rows.items t.load_nodes.items t.store_nodes.items t.first_nodes.items };
}

impl Test {
    /// A test of version 1 without threads. It takes no memory.
    pub fn new(alloc: Global, words: u32) -> Test
        requires some { 1 ≤ words }
        requires few { words ≤ MAX_WORDS }
        ensures { result ≡ empty_program 1 words }
    {
        Test::new_version(alloc, 1, words)
    }

    /// A test of this version without threads. It takes no memory.
    pub fn new_version(alloc: Global, version: u32, words: u32) -> Test
        requires first { 1 ≤ version }
        requires last { version ≤ LAST_VERSION }
        requires some { 1 ≤ words }
        requires few { words ≤ MAX_WORDS }
        ensures { result ≡ empty_program version words }
    {
        Test {
            version,
            words,
            rows: Vec::new(alloc),
            load_nodes: Vec::new(alloc),
            store_nodes: Vec::new(alloc),
            first_nodes: Vec::new(alloc),
        }
    }

    /// Adds an empty thread at the end. The error is want of memory.
    pub fn add_thread(&mut self) -> Result<(), AllocError>
        requires { length self.old.threads < MAX_THREADS }
        ensures ok { OnOk result (self.new ≡ with_thread self.old) }
        ensures err { OnErr result (self.new ≡ self.old) }
    {
        self.first_nodes.push(self.rows.len() as u32)?;
        Ok(())
    }

    /// Adds the operation at the end of the last thread. A fence is a full one. The error is want of memory.
    pub fn add_op(&mut self, op: Op) -> Result<(), AllocError>
        requires thread { 0 < length self.old.threads }
        requires room { op_count self.old < MAX_OPS }
        requires word { HasWord self.old op }
        ensures ok { OnOk result (self.new ≡ with_op self.old op) }
        ensures err { OnErr result (self.new ≡ self.old) }
    {
        self.add_action(op.action())
    }

    /// Adds a fence of this kind at the end of the last thread. The error is want of memory.
    pub fn add_fence(&mut self, kind: FenceKind) -> Result<(), AllocError>
        requires thread { 0 < length self.old.threads }
        requires room { op_count self.old < MAX_OPS }
        requires kind { IsTrue (allows_kind self.old.version kind) }
        ensures ok { OnOk result (self.new ≡ with_action self.old (Action.Fence kind)) }
        ensures err { OnErr result (self.new ≡ self.old) }
    {
        self.add_action(Action::Fence { kind })
    }

    /// Adds the action at the end of the last thread. The error is want of memory.
    pub fn add_action(&mut self, action: Action) -> Result<(), AllocError>
        requires thread { 0 < length self.old.threads }
        requires room { op_count self.old < MAX_OPS }
        requires word { HasWord self.old (op_of action) }
        requires kind { IsTrue (allows self.old.version action) }
        ensures ok { OnOk result (self.new ≡ with_action self.old action) }
        ensures err { OnErr result (self.new ≡ self.old) }
    {
        let node = self.rows.len() as u32;
        let row = Row {
            thread: self.first_nodes.len() as u32 - 1,
            action,
            value: self.store_nodes.len() as u32 + 1,
            rank: self.load_nodes.len() as u32,
        };
        // Room for the row comes first, so that nothing has to be undone.
        self.rows.reserve(1)?;
        match action {
            Action::Load { .. } => self.load_nodes.push(node)?,
            Action::Store { .. } => self.store_nodes.push(node)?,
            Action::Fence { .. } => {}
        }
        self.rows.push(row).unwrap();
        Ok(())
    }

    /// The version.
    pub fn version(&self) -> u32
        ensures version { result ≡ self.now.version }
        ensures first { 1 ≤ result }
        ensures last { result ≤ LAST_VERSION }
    {
        self.version
    }

    /// The number of words.
    pub fn words(&self) -> u32
        ensures count { result ≡ self.now.words }
        ensures some { 1 ≤ result }
        ensures few { result ≤ MAX_WORDS }
        ensures limits { IsWithinLimits self.now }
    {
        self.words
    }

    /// The number of threads.
    pub fn threads(&self) -> u32
        ensures count { result ≡ length self.now.threads }
        ensures few { result ≤ MAX_THREADS }
    {
        self.first_nodes.len() as u32
    }

    /// The number of operations.
    pub fn ops(&self) -> u32
        ensures count { result ≡ op_count self.now }
        ensures few { result ≤ MAX_OPS }
    {
        self.rows.len() as u32
    }

    /// The number of loads.
    pub fn loads(&self) -> u32
        ensures count { result ≡ load_count self.now }
        ensures few { result ≤ op_count self.now }
        ensures room { op_count self.now ≤ MAX_OPS }
    {
        self.load_nodes.len() as u32
    }

    /// The number of stores.
    pub fn stores(&self) -> u32
        ensures count { result ≡ store_count self.now }
        ensures few { result ≤ op_count self.now }
        ensures room { op_count self.now ≤ MAX_OPS }
    {
        self.store_nodes.len() as u32
    }
}
