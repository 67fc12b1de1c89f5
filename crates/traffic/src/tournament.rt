//! Which of many streams comes next, found by a tournament: a frame costs as many comparisons as the streams have bits
//! to count them.

ghost use Rattle.std.specs.Prelude.{◌≡◌, ◌<◌, ◌≤◌, ◌+◌, ℕ, None, nat_lt, if◌then◌else◌, length, get_or, drop, slice_set, IfOk, IfSome};
ghost use Rattle.traffic.specs.Words.{IsBefore, IsNode, IsTournament, first_of_two, first_place, found_at, head_of, heads_from, is_before};

use crate::turn::Turn;
use std::alloc::{AllocError, Allocator};
use std::marker::Model;

/// A stream by its place in the table, and the moment of its next frame, in picoseconds.
#[derive(Clone, Copy)]
pub(crate) struct Head {
    /// The moment.
    pub moment: u128,
    /// The place.
    pub place: usize,
}

/// How many places there are: more than the streams of any table.
const PLACES: u128 = 4_294_967_296;

/// The key of a stream that has no next frame: after all others.
const NEVER: u128 = u128::MAX;

/// A stream, if it has a next frame: its moment and its place in one number, whose order is that of moments, and at one
/// moment that of places.
#[derive(Clone, Copy)]
pub struct Node {
    key: u128,
}

/// A contract sees the head of the stream, or none.
impl Model for Node {
    ghost use Rattle.std.specs.Prelude.{◌≡◌, ◌≤◌, Option};
    ghost use Rattle.traffic.specs.Head.{head_kept, key_back, key_kept};
    ghost use Rattle.traffic.specs.declared.tournament.Head.{Head};
    ghost use Rattle.traffic.specs.declared.tournament.TheConstants.{NEVER};

    ghost Value = { Option Head };

    ghost view = { λ n. head_kept n.key };

    ghost invariant = { λ n. n.key ≤ NEVER };

    ghost inverse = { λ head. record { key = key_kept head } };

    ghost inverse_ok = { λ n h. Prim.rw (key_back n.key) };
}

impl Node {
    /// A stream that has no next frame.
    fn none() -> Node
        ensures { result ≡ None }
    {
        Node { key: NEVER }
    }

    /// The head of the stream, if it has a next frame.
    fn head(&self) -> Option<Head>
        ensures head { result ≡ self.now }
        ensures few { IfSome result (λ head. head.place < PLACES) }
    {
        if self.key == NEVER {
            return None;
        }
        Some(Head {
            moment: self.key / PLACES,
            place: (self.key % PLACES) as usize,
        })
    }
}

/// A stream at a place.
fn head_of(place: usize, turn: &Turn) -> Node
    requires few { place < PLACES }
    ensures { result ≡ head_of place turn.now }
{
    match turn.next_moment() {
        Some(moment) => Node {
            key: moment * PLACES + place as u128,
        },
        None => Node::none(),
    }
}

/// The lesser of two numbers, with no branch: a processor can't guess which of two streams comes first.
#[inline(always)]
fn lesser(left: u128, right: u128) -> u128
    ensures { result ≡ (if nat_lt right left then right else left) }
{
    // (all ones where the right one is less: of words, since of the whole number the compiler makes a branch again)
    let word = 0u64.wrapping_sub(u64::from(right < left));
    let mask = u128::from(word) * 0x1_0000_0000_0000_0001;
    left.wrapping_sub(left.wrapping_sub(right) & mask)
}

/// The first of two.
#[inline(always)]
fn first_of_two(left: Node, right: Node) -> Node
    ensures { result ≡ first_of_two left right }
{
    Node {
        key: lesser(left.key, right.key),
    }
}

/// Sets a stream, and the nodes over it.
fn climb(nodes: &mut [Node], streams: usize, place: usize, head: Node)
    requires long { length nodes.old ≡ streams + streams }
    requires place { place < streams }
    requires inner { (k : ℕ) → 0 < k → k < streams → IsNode nodes.old k }
    ensures long { length nodes.new ≡ length nodes.old }
    ensures leaves { drop streams nodes.new ≡ slice_set (drop streams nodes.old) place head }
    ensures inner { (k : ℕ) → 0 < k → k < streams → IsNode nodes.new k }
{
    let mut at = streams + place;
    let mut head = head;
    nodes[at] = head;
    'up: while at > 1 {
        let beside = at + 1 - at % 2 * 2;
        head = first_of_two(head, nodes[beside]);
        at /= 2;
        nodes[at] = head;
    }
}

/// The streams among the nodes.
fn put_leaves(nodes: &mut [Node], turns: &[Turn])
    requires long { length nodes.old ≡ length turns.now + length turns.now }
    requires few { length turns.now ≤ PLACES }
    ensures long { length nodes.new ≡ length nodes.old }
    ensures leaves { drop (length turns.now) nodes.new ≡ heads_from 0 turns.now }
{
    let mut place = 0;
    'leaves: while place < turns.len() {
        nodes[turns.len() + place] = head_of(place, &turns[place]);
        place += 1;
    }
}

/// The nodes over the streams.
fn put_inner(nodes: &mut [Node], streams: usize)
    requires { length nodes.old ≡ streams + streams }
    ensures long { length nodes.new ≡ length nodes.old }
    ensures leaves { drop streams nodes.new ≡ drop streams nodes.old }
    ensures inner { (k : ℕ) → 0 < k → k < streams → IsNode nodes.new k }
{
    let mut at = streams;
    'inner: while at > 1 {
        at -= 1;
        nodes[at] = first_of_two(nodes[at + at], nodes[at + at + 1]);
    }
}

/// The tournament of streams; of more streams than there are places it fails as where memory is short.
pub fn tournament<A: Allocator>(alloc: A, turns: &[Turn]) -> Result<Vec<Node, A>, AllocError>
    ensures { IfOk result (λ nodes. IsTournament turns.now nodes.items) }
{
    if turns.len() as u128 > PLACES {
        return Err(AllocError);
    }
    let count = turns.len() * 2;
    let mut nodes = vec![in alloc; Node::none(); count]?;
    let slice = nodes.as_mut_slice();
    put_leaves(slice, turns);
    put_inner(slice, turns.len());
    Ok(nodes)
}

/// The stream that comes next, if one does.
pub(crate) fn first(nodes: &[Node], turns: &[Turn]) -> Option<Head>
    requires { IsTournament turns.now nodes.now }
    ensures found { found_at result ≡ first_place 0 turns.now }
    ensures within { IfSome result (λ head. head.place < length turns.now) }
    ensures few { IfSome result (λ head. head.place < PLACES) }
{
    if turns.is_empty() {
        return None;
    }
    nodes[1].head()
}

/// Has the tournament follow what became of the stream at a place.
pub(crate) fn follow(nodes: &mut [Node], turns: &[Turn], place: usize)
    requires place { place < length turns.now }
    requires few { place < PLACES }
    requires before { IsBefore turns.now place nodes.old }
    ensures { IsTournament turns.now nodes.new }
{
    let head = head_of(place, &turns[place]);
    climb(nodes, turns.len(), place, head);
}
