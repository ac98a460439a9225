//! Keys in a row, each linked to the place before it that has the same key.
ghost use Rattle.std.specs.Prelude.{◌≡◌, ◌+◌, ◌-◌, ◌<◌, ◌≤◌, [], ◌∷◌, ◌++◌, length, take, map, IfOk, All, slice_index};
ghost use Rattle.digraph.specs.Digraph.{IsLastBelow};
ghost use Rattle.digraph.specs.KeyList.{IsKeyList, IsLinked, place_of};
ghost use Rattle.digraph.specs.LinkRows.{PutsKeys, keys_of, previous_of};

use std::alloc::{AllocError, Global};
use std::marker::Model;

/// A link to no place.
pub const NONE: u32 = u32::MAX;

/// A key, and a link to the place before it that has the same key.
#[derive(Clone, Copy, Drop)]
pub struct Link {
    key: u32,
    previous: u32,
}

/// A list of keys below a fixed number, of fixed room.
/// All but `with_room`, `truncate_to` and `push_ends` take constant time.
#[derive(Drop)]
pub struct Links {
    count: u32,
    links: Vec<Link>,
    last: Vec<u32>,
}

impl Model for Links {
    ghost use Rattle.digraph.specs.KeyList.{KeyList, IsLinked, key_list_of};
    ghost use Rattle.digraph.specs.LinkRows.{keys_of, previous_of};

    ghost Value = { KeyList };

    ghost view = { λ l. key_list_of l.count (keys_of l.links.items) l.last.items };

    ghost invariant = { λ l. IsLinked l.count (keys_of l.links.items) l.last.items (previous_of l.links.items) };
}

/// Puts a key at the place behind the others, and links it.
#[inline(always)]
fn put_link(key: u32, place: u32, links: &mut [Link], last: &mut [u32])
    requires linked { IsLinked place (keys_of links.old) last.old (previous_of links.old) }
    requires room { place < length links.old }
    requires key { key < length last.old }
    ensures { PutsKeys place (key ∷ []) links.old last.old links.new last.new }
{
    links[place as usize] = Link {
        key,
        previous: last[key as usize],
    };
    last[key as usize] = place;
}

/// Puts the sources of edges at the places from `first` on, behind the others, and links them, and their targets likewise.
fn link_ends(
    edges: &[(u32, u32)],
    first: u32,
    source_links: &mut [Link],
    source_last: &mut [u32],
    target_links: &mut [Link],
    target_last: &mut [u32],
)
    requires sources { IsLinked first (keys_of source_links.old) source_last.old
        (previous_of source_links.old) }
    requires targets { IsLinked first (keys_of target_links.old) target_last.old
        (previous_of target_links.old) }
    requires source_room { first + length edges.now ≤ length source_links.old }
    requires target_room { first + length edges.now ≤ length target_links.old }
    requires source_keys { All (λ edge. edge.0 < length source_last.old) edges.now }
    requires target_keys { All (λ edge. edge.1 < length target_last.old) edges.now }
    ensures sources { PutsKeys first (map (λ edge. edge.0) edges.now) source_links.old
        source_last.old source_links.new source_last.new }
    ensures targets { PutsKeys first (map (λ edge. edge.1) edges.now) target_links.old
        target_last.old target_links.new target_last.new }
{
    let mut place = first;
    for edge in edges {
        let (from, to) = *edge;
        put_link(from, place, source_links, source_last);
        put_link(to, place, target_links, target_last);
        place += 1;
    }
}

impl Links {
    pub fn with_room(alloc: Global, kinds: u32, room: u32) -> Result<Links, AllocError>
        ensures empty { IfOk result (λ l. l ≡ record { kinds = kinds; room = room; keys = [] }) }
        ensures sound { IfOk result IsKeyList }
    {
        let none = Link {
            key: 0,
            previous: NONE,
        };
        Ok(Links {
            count: 0,
            links: vec![in alloc; none; room as usize]?,
            last: vec![in alloc; NONE; kinds as usize]?,
        })
    }

    pub fn kinds(&self) -> u32
        ensures { result ≡ self.now.kinds }
    {
        self.last.len() as u32
    }

    pub fn len(&self) -> u32
        ensures count { result ≡ length self.now.keys }
        ensures sound { IsKeyList self.now }
    {
        self.count
    }

    pub fn push(&mut self, key: u32)
        requires room { length self.old.keys < self.old.room }
        requires key { key < self.old.kinds }
        ensures pushed { self.new ≡ record self.old { keys = self.old.keys ++ key ∷ [] } }
        ensures sound { IsKeyList self.new }
    {
        put_link(key, self.count, &mut self.links, &mut self.last);
        self.count += 1;
    }

    /// Takes the last key away.
    pub fn pop(&mut self) -> u32
        requires { 0 < length self.old.keys }
        ensures taken { let count = length self.old.keys in self.new
            ≡ record self.old { keys = take (count - 1) self.old.keys } }
        ensures key { let count = length self.old.keys in result
            ≡ slice_index self.old.keys (count - 1) }
        ensures inside { result < self.old.kinds }
        ensures sound { IsKeyList self.new }
    {
        let place = self.count - 1;
        let link = self.links[place as usize];
        self.last[link.key as usize] = link.previous;
        self.count = place;
        link.key
    }

    /// Takes the last keys away until those of `start` are left, with which the list begins. The time is that of the kinds.
    pub fn truncate_to(&mut self, start: &Links)
        requires kinds { start.now.kinds ≡ self.old.kinds }
        requires begins { take (length start.now.keys) self.old.keys ≡ start.now.keys }
        ensures begun { self.new ≡ record self.old { keys = start.now.keys } }
        ensures sound { IsKeyList self.new }
    {
        self.last.copy_from_slice(&start.last);
        self.count = start.count;
    }

    /// Puts the sources of edges at the end of the one list, and their targets at the end of the other, which is as long.
    pub fn push_ends(sources: &mut Links, targets: &mut Links, edges: &[(u32, u32)])
        requires same { length targets.old.keys ≡ length sources.old.keys }
        requires room { length sources.old.keys + length edges.now ≤ sources.old.room }
        requires target_room { length targets.old.keys + length edges.now ≤ targets.old.room }
        requires keys { All (λ edge. edge.0 < sources.old.kinds) edges.now }
        requires target_keys { All (λ edge. edge.1 < targets.old.kinds) edges.now }
        ensures sources { sources.new ≡ record sources.old {
          keys = sources.old.keys ++ map (λ edge. edge.0) edges.now;
        } }
        ensures targets { targets.new ≡ record targets.old {
          keys = targets.old.keys ++ map (λ edge. edge.1) edges.now;
        } }
        ensures sound { IsKeyList sources.new }
        ensures sound_targets { IsKeyList targets.new }
    {
        let first = sources.count;
        link_ends(
            edges,
            first,
            &mut sources.links,
            &mut sources.last,
            &mut targets.links,
            &mut targets.last,
        );
        let count = first + edges.len() as u32;
        sources.count = count;
        targets.count = count;
    }

    pub fn key(&self, place: u32) -> u32
        requires { place < length self.now.keys }
        ensures value { result ≡ slice_index self.now.keys place }
        ensures inside { result < self.now.kinds }
    {
        self.links[place as usize].key
    }

    /// The last place that has the key.
    pub fn last(&self, key: u32) -> Option<u32>
        requires { key < self.now.kinds }
        ensures { IsLastBelow (slice_index self.now.keys) key (length self.now.keys) result }
    {
        at(self.last[key as usize])
    }

    /// The last place before this one that has the same key.
    pub fn previous(&self, place: u32) -> Option<u32>
        requires { place < length self.now.keys }
        ensures { let keys = self.now.keys in IsLastBelow (slice_index keys) (slice_index keys place) place result }
    {
        at(self.links[place as usize].previous)
    }
}

/// The place that a link stands for.
fn at(link: u32) -> Option<u32>
    ensures { result ≡ place_of link }
{
    if link == NONE { None } else { Some(link) }
}
