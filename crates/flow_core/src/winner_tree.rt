//! The bytes that wait in each flow, and the flow that has the most, in a tree of winners. All flows with bytes stand
//! below one node, the top: a change of one flow's bytes is at most one walk between its leaf and the top, and the
//! winner of all flows is read there. So a few busy flows whose leaves are near each other pay only for the levels
//! among them.
//!
//! It is a tree, and not a scan at an overflow: a scan looks at all flows each time, under an overload, when time is
//! shortest. Here each packet pays for one walk at most, and an overflow for none.

ghost use Rattle.std.specs.Prelude.{◌≡◌, ◌≢◌, ℕ, [], ◌+◌, ◌-◌, ◌*◌, ◌^◌, ◌<◌, ◌≤◌, ◌↔◌, All, IfOk, IfSome, IsNone, IsTrue, length, min, replicate, slice_index, slice_set, vec_len};
ghost use Rattle.flow_core.specs.Winners.{CountsFew, HasMostBytes, IsLevels};
ghost use Rattle.flow_core.specs.WinnerNodes.{AreBelowFrom, beside, IsBelow, IsTree, WinsOver};

use crate::limits::{MAX_FLOWS, Memory};
use std::alloc::Global;
use std::marker::Model;

/// The bytes of each flow, and the flow with the most bytes (RFC 8290, section 4.1: packets are dropped from it
/// at overload). All memory is taken by `try_new`.
#[derive(Debug, Drop)]
pub(crate) struct WinnerTree {
    // A count for each leaf, 0 where it has no flow, so that what a node holds always has one.
    bytes: Vec<u64>,
    // The top and each node below it hold the winner among the flows with bytes below the node; where there are none,
    // and at each other node, some leaf's flow below it. Node 1 is the root, 2 * n and 2 * n + 1 are the nodes below
    // node n, and what stands at place 0 is of no use. A flow's leaf is the node of the number of leaves and the flow's
    // number, added. The leaves stand here too, so that no branch tells them from inner nodes.
    winners: Vec<u32>,
    top: Top,
    flows: u32,
    levels: u32,
    comparisons: u64,
}

// A node that each flow with bytes stands below, and how many levels it is above the leaves.
#[derive(Clone, Copy, Debug)]
struct Top {
    node: usize,
    height: u32,
}

impl Top {
    // A leaf alone.
    fn of_leaf(leaf: usize) -> Top
        ensures { result ≡ record { node = leaf; height = 0 } }
    {
        Top {
            node: leaf,
            height: 0,
        }
    }
}

impl Model for WinnerTree {
    ghost use Rattle.flow_core.specs.Winners.{ByteCounts};

    ghost Value = { ByteCounts };

    ghost use Rattle.flow_core.specs.WinnersKept.{counts_of, HasWinners};

    ghost view = { counts_of };

    ghost invariant = { HasWinners };
}

impl WinnerTree {
    /// That many flows, from 1 to 65,536, with no bytes.
    pub(crate) fn try_new(alloc: Global, flows: u32) -> Result<WinnerTree, Memory>
        requires least { 1 ≤ flows }
        requires most { flows ≤ MAX_FLOWS }
        ensures { IfOk result (λ t. t ≡ record { bytes = replicate flows 0; comparisons = 0 }) }
    {
        let levels = levels_over(flows);
        let leaves = 1 << levels;
        Ok(WinnerTree {
            bytes: vec![in alloc; 0; leaves]?,
            winners: first_winners(alloc, leaves)?,
            top: Top::of_leaf(leaves),
            flows,
            levels,
            comparisons: 0,
        })
    }

    /// Bytes come to a flow.
    #[inline(always)]
    pub(crate) fn add(&mut self, flow: u32, bytes: u64)
        requires flow { flow < length self.old.bytes }
        requires fits { slice_index self.old.bytes flow + bytes < 2 ^ 63 }
        ensures bytes { self.new.bytes ≡ slice_set self.old.bytes flow (slice_index self.old.bytes flow + bytes) }
        ensures few_comparisons { CountsFew (length self.old.bytes) 1 self.old.comparisons self.new.comparisons }
        ensures compares { 2 ≤ length self.old.bytes → min (self.old.comparisons + 1) u64.MAX ≤ self.new.comparisons }
    {
        let own = self.bytes[flow as usize] + bytes;
        let made = raise(&self.bytes, &mut self.winners, &mut self.top, flow, own);
        self.bytes[flow as usize] = own;
        count(&mut self.comparisons, made);
    }

    /// Bytes leave a flow.
    #[inline(always)]
    pub(crate) fn take(&mut self, flow: u32, bytes: u64)
        requires flow { flow < length self.old.bytes }
        requires there { bytes ≤ slice_index self.old.bytes flow }
        ensures bytes { self.new.bytes ≡ slice_set self.old.bytes flow (slice_index self.old.bytes flow - bytes) }
        ensures few_comparisons { CountsFew (length self.old.bytes) 1 self.old.comparisons self.new.comparisons }
    {
        // A flow that has none may stand outside of the top.
        if bytes > 0 {
            let own = self.bytes[flow as usize] - bytes;
            lower(
                &self.bytes,
                &mut self.winners,
                self.top,
                flow,
                own,
                &mut self.comparisons,
            );
            self.bytes[flow as usize] = own;
        }
    }

    /// How many flows there are, from 1 to 65,536.
    pub(crate) fn flows(&self) -> u32
        ensures value { result ≡ length self.now.bytes }
        ensures least { 1 ≤ result }
        ensures most { result ≤ MAX_FLOWS }
    {
        self.flows
    }

    /// The bytes of a flow.
    pub(crate) fn bytes(&self, flow: u32) -> u64
        requires { flow < length self.now.bytes }
        ensures { result ≡ slice_index self.now.bytes flow }
    {
        self.bytes[flow as usize]
    }

    /// The flow with the most bytes, and of those that have as many the one of the least number. None where no
    /// flow has any. It compares nothing.
    pub(crate) fn winner(&self) -> Option<u32>
        ensures none { IsNone result ↔ All (λ b. b ≡ 0) self.now.bytes }
        ensures winner { IfSome result (HasMostBytes self.now.bytes) }
    {
        let most = self.winners[self.top.node];
        if self.bytes[most as usize] > 0 {
            Some(most)
        } else {
            None
        }
    }

    /// The levels of the tree above its leaves: 0 for one flow, 10 for 1,024, 16 for 65,536.
    pub(crate) fn levels(&self) -> u32
        ensures { IsLevels (length self.now.bytes) result }
    {
        self.levels
    }

    /// How often two counts of bytes were compared since `clear_comparisons`, or since `try_new` before its first
    /// call. At `u64::MAX` it stays there.
    pub(crate) fn comparisons(&self) -> u64
        ensures { result ≡ self.now.comparisons }
    {
        self.comparisons
    }

    /// No comparison has been made.
    pub(crate) fn clear_comparisons(&mut self)
        ensures { self.new ≡ record self.old { comparisons = 0 } }
    {
        self.comparisons = 0;
    }
}

// The least number of doublings of one leaf that gives each flow a leaf.
fn levels_over(flows: u32) -> u32
    requires least { 1 ≤ flows }
    requires most { flows ≤ MAX_FLOWS }
    ensures { IsLevels flows result }
{
    let mut levels = 0;
    let mut leaves = 1;
    while leaves < flows {
        leaves *= 2;
        levels += 1;
    }
    levels
}

// What the nodes hold in a tree of so many leaves, where no flow has bytes: a leaf holds its flow, and an inner node
// what the left one of the nodes below it does.
fn first_winners(alloc: Global, leaves: usize) -> Result<Vec<u32>, Memory>
    requires { leaves ≤ MAX_FLOWS }
    ensures nodes { IfOk result (λ w. vec_len w ≡ 2 * leaves) }
    ensures below { IfOk result (λ w. AreBelowFrom leaves 1 w.items) }
{
    let mut winners = vec![in alloc; 0; 2 * leaves]?;
    let mut node = 2 * leaves;
    while node > 1 {
        node -= 1;
        let held = if node < leaves {
            winners[2 * node]
        } else {
            (node - leaves) as u32
        };
        winners[node] = held;
    }
    Ok(winners)
}

// So many comparisons more. At `u64::MAX` the number stays there.
fn count(comparisons: &mut u64, made: u64)
    ensures sum { comparisons.new ≡ min (comparisons.old + made) u64.MAX }
    ensures none_lost { comparisons.old ≤ comparisons.new }
{
    *comparisons = comparisons.saturating_add(made);
}

// How many bytes more than another one a flow needs to win over it: none where its number is less, since it wins a tie.
fn margin_over(flow: u32, other: u32) -> u64
    ensures { result ≡ min 1 (flow - other) }
{
    u64::from(other < flow)
}

// Whether a flow's count wins over that of another one, by a margin that a tie needs or not: one sum, which was faster
// than two conditions. Each comparison of two counts is made here, and counted.
fn wins_over(comparisons: &mut u64, bytes: u64, other_bytes: u64, margin: u64) -> bool
    requires few { comparisons.old < 2 ^ 32 }
    requires other { other_bytes < 2 ^ 63 }
    requires margin { margin ≤ 1 }
    ensures wins { IsTrue result ↔ (other_bytes + margin ≤ bytes) }
    ensures counted { comparisons.new ≡ comparisons.old + 1 }
{
    *comparisons += 1;
    other_bytes + margin <= bytes
}

// The node beside one, below the same node.
fn node_beside(node: usize) -> usize
    ensures { result ≡ beside node }
{
    node ^ 1
}

// A flow's count grows to that one, which isn't among the bytes yet: it wins at each node above its leaf, up to the
// first where another flow still does, or to the top. The result is how often two counts were compared.
#[inline(always)]
fn raise(bytes: &[u64], winners: &mut [u32], top: &mut Top, flow: u32, own: u64) -> u64
    requires flow { flow < length bytes.now }
    requires small { All (λ b. b < 2 ^ 63) bytes.now }
    requires tree { IsTree (length bytes.now) bytes.now winners.old top.old.node top.old.height }
    requires grows { slice_index bytes.now flow ≤ own }
    ensures tree { IsTree (length bytes.now) (slice_set bytes.now flow own) winners.new top.new.node top.new.height }
    ensures few { (levels : ℕ) → length bytes.now ≡ 2 ^ levels → result ≤ levels }
    ensures compares { 2 ≤ length bytes.now → 1 ≤ result }
{
    // One flow has no node above its leaf.
    if bytes.len() < 2 {
        return 0;
    }
    if bytes[flow as usize] == 0 {
        return raise_from_none(bytes, winners, top, flow, own);
    }
    // It has bytes, and so it stands below the top.
    raise_below_top(bytes, winners, *top, flow, own)
}

// The same of a flow that had no bytes, which may stand outside of the top. Then the top moves: to its leaf if no flow
// had bytes, else up. It is kept out of an enqueue, where most flows have bytes.
#[inline(never)]
fn raise_from_none(bytes: &[u64], winners: &mut [u32], top: &mut Top, flow: u32, own: u64) -> u64
    requires flow { flow < length bytes.now }
    requires several { 2 ≤ length bytes.now }
    requires small { All (λ b. b < 2 ^ 63) bytes.now }
    requires tree { IsTree (length bytes.now) bytes.now winners.old top.old.node top.old.height }
    requires none { slice_index bytes.now flow ≡ 0 }
    ensures tree { IsTree (length bytes.now) (slice_set bytes.now flow own) winners.new top.new.node top.new.height }
    ensures few { (levels : ℕ) → length bytes.now ≡ 2 ^ levels → result ≤ levels }
    ensures compares { 1 ≤ result }
{
    let leaf = bytes.len() + flow as usize;
    let most = winners[top.node];
    let most_bytes = bytes[most as usize];
    if most_bytes == 0 {
        // No flow had bytes, and so no other one has. Where it doesn't win it got none either, and all stays as it was.
        let mut comparisons = 0;
        if wins_over(&mut comparisons, own, most_bytes, margin_over(flow, most)) {
            *top = Top::of_leaf(leaf);
        }
        return comparisons;
    }
    if leaf >> top.height != top.node {
        return rise(bytes, winners, top, flow, own);
    }
    raise_below_top(bytes, winners, *top, flow, own)
}

// The same of a flow below the top, where some flow has bytes.
#[inline(always)]
fn raise_below_top(bytes: &[u64], winners: &mut [u32], top: Top, flow: u32, own: u64) -> u64
    requires flow { flow < length bytes.now }
    requires several { 2 ≤ length bytes.now }
    requires small { All (λ b. b < 2 ^ 63) bytes.now }
    requires tree { IsTree (length bytes.now) bytes.now winners.old top.node top.height }
    requires below { IsBelow (length bytes.now) top.node flow }
    requires waits { 0 < slice_index bytes.now (slice_index winners.old top.node) }
    requires grows { slice_index bytes.now flow ≤ own }
    ensures tree { IsTree (length bytes.now) (slice_set bytes.now flow own) winners.new top.node top.height }
    ensures few { (levels : ℕ) → length bytes.now ≡ 2 ^ levels → result ≤ levels }
    ensures compares { 1 ≤ result }
{
    let most = winners[top.node];
    let mut comparisons = 0;
    let wins = wins_over(
        &mut comparisons,
        own,
        bytes[most as usize],
        margin_over(flow, most),
    );
    // The winner of all flows has no less than it had: no node changes.
    if most == flow {
        return comparisons;
    }
    if !wins {
        return climb(bytes, winners, top, flow, own);
    }
    // It wins over the winner of all flows, and so over each one, up to the top.
    let mut node = bytes.len() + flow as usize;
    loop {
        node /= 2;
        winners[node] = flow;
        if node == top.node {
            return comparisons;
        }
    }
}

// The same where another flow still wins at the top, which isn't compared again: that one comparison is in the result.
fn climb(bytes: &[u64], winners: &mut [u32], top: Top, flow: u32, own: u64) -> u64
    requires flow { flow < length bytes.now }
    requires small { All (λ b. b < 2 ^ 63) bytes.now }
    requires tree { IsTree (length bytes.now) bytes.now winners.old top.node top.height }
    requires below { IsBelow (length bytes.now) top.node flow }
    requires grows { slice_index bytes.now flow ≤ own }
    requires another { slice_index winners.old top.node ≢ flow }
    requires loses { WinsOver (slice_set bytes.now flow own) (slice_index winners.old top.node) flow }
    ensures tree { IsTree (length bytes.now) (slice_set bytes.now flow own) winners.new top.node top.height }
    ensures few { (levels : ℕ) → length bytes.now ≡ 2 ^ levels → result ≤ levels }
    ensures compares { 1 ≤ result }
{
    let mut comparisons = 1;
    let mut node = bytes.len() + flow as usize;
    while node / 2 > top.node {
        node /= 2;
        let winner = winners[node];
        // Where it won already it still does, with nothing to compare.
        if winner != flow {
            let margin = margin_over(flow, winner);
            if !wins_over(&mut comparisons, own, bytes[winner as usize], margin) {
                return comparisons;
            }
            winners[node] = flow;
        }
    }
    comparisons
}

// The top rises to the lowest node above it and above the leaf of a flow outside of it. On the way up there the nodes
// above the old top get its winner and those above the leaf get the flow, and where both ways meet the two are
// compared. It is seldom called, and so kept out of its caller: the top only rises while any flow has bytes.
#[inline(never)]
fn rise(bytes: &[u64], winners: &mut [u32], top: &mut Top, flow: u32, own: u64) -> u64
    requires flow { flow < length bytes.now }
    requires small { All (λ b. b < 2 ^ 63) bytes.now }
    requires tree { IsTree (length bytes.now) bytes.now winners.old top.old.node top.old.height }
    requires waits { 0 < slice_index bytes.now (slice_index winners.old top.old.node) }
    requires outside { ¬ IsBelow (length bytes.now) top.old.node flow }
    ensures tree { IsTree (length bytes.now) (slice_set bytes.now flow own) winners.new top.new.node top.new.height }
    ensures counted { result ≡ 1 }
{
    let most = winners[top.node];
    let mut node = bytes.len() + flow as usize;
    // Neither goes past the node where they meet: the one of the lesser number waits.
    while node != top.node {
        if node > top.node {
            node /= 2;
            winners[node] = flow;
        } else {
            top.node /= 2;
            top.height += 1;
            winners[top.node] = most;
        }
    }
    let mut comparisons = 0;
    let wins = wins_over(
        &mut comparisons,
        own,
        bytes[most as usize],
        margin_over(flow, most),
    );
    winners[node] = if wins { flow } else { most };
    comparisons
}

// A flow's count falls to that one, which isn't among the bytes yet: each node from its leaf to the top gets its
// winner anew, up to the first where another flow won. Two counts are compared once at each node where the flow had
// won.
#[inline(always)]
fn lower(bytes: &[u64], winners: &mut [u32], top: Top, flow: u32, own: u64, comparisons: &mut u64)
    requires flow { flow < length bytes.now }
    requires small { All (λ b. b < 2 ^ 63) bytes.now }
    requires tree { IsTree (length bytes.now) bytes.now winners.old top.node top.height }
    requires waits { 0 < slice_index bytes.now flow }
    requires falls { own ≤ slice_index bytes.now flow }
    ensures tree { IsTree (length bytes.now) (slice_set bytes.now flow own) winners.new top.node top.height }
    ensures none_lost { comparisons.old ≤ comparisons.new }
    ensures few { (levels : ℕ) → length bytes.now ≡ 2 ^ levels → comparisons.new ≤ comparisons.old + levels }
{
    let leaf = bytes.len() + flow as usize;
    // Where its leaf is the top, or another flow won at the node above it, no node changes.
    if leaf > top.node && winners[leaf / 2] == flow {
        let made = lower_from(bytes, winners, top, leaf, flow, own);
        count(comparisons, made);
    }
}

// The same from the flow's leaf on. The result is how often two counts were compared. Its loop wants all registers, and
// so it is kept out of a dequeue, which has a packet in hand.
#[inline(never)]
fn lower_from(bytes: &[u64], winners: &mut [u32], top: Top, leaf: usize, flow: u32, own: u64) -> u64
    requires flow { flow < length bytes.now }
    requires leaf { leaf ≡ length bytes.now + flow }
    requires small { All (λ b. b < 2 ^ 63) bytes.now }
    requires tree { IsTree (length bytes.now) bytes.now winners.old top.node top.height }
    requires waits { 0 < slice_index bytes.now flow }
    requires falls { own ≤ slice_index bytes.now flow }
    ensures tree { IsTree (length bytes.now) (slice_set bytes.now flow own) winners.new top.node top.height }
    ensures few { (levels : ℕ) → length bytes.now ≡ 2 ^ levels → result ≤ levels }
{
    let mut node = leaf;
    let mut comparisons = 0;
    // The winner so far and its bytes are carried along, so that no level waits for what the one below wrote.
    let mut winner = flow;
    let mut most = own;
    while node > top.node {
        let beside = node_beside(node);
        // The flows below the left one of two nodes have the lesser numbers, and win each tie.
        let margin = (node % 2) as u64;
        node /= 2;
        if winners[node] != flow {
            return comparisons;
        }
        let other = winners[beside];
        let other_bytes = bytes[other as usize];
        if !wins_over(&mut comparisons, most, other_bytes, margin) {
            winner = other;
            most = other_bytes;
        }
        winners[node] = winner;
    }
    comparisons
}
