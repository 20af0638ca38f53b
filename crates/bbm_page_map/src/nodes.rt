//! The nodes, of 64 slots each, which lead from the number of a page to that of its entry.

ghost use Rattle.std.specs.Prelude.{◌≡◌, ℕ, ◌+◌, ◌*◌, ◌/◌, ◌%◌, ◌^◌, ◌<◌, ◌≤◌, length, if◌then◌else◌};
ghost use Rattle.std.specs.Prelude.{nat_eq, vec_len, vec_capacity, IsOk, OnOk};
ghost use Rattle.bbm_page_map.specs.SlotNodes.{Fits, HasSlots, IsTree, LeadsAlike, reached, slot};

use bbm_regimes::NoMemory;

/// The base of the digits of a page's number, each of which chooses a slot of a node.
pub const BASE: u64 = 64;

/// The number of slots of a node: one for each digit.
pub const NODE_SLOTS: usize = 64;

/// How many digits of a page's number, those between the first and the last, lead from a node to a further one.
pub const DEPTH: usize = 4;

/// The number of slots of the first nodes, and of node 0 before them, which leads nowhere.
const FIRST_SLOTS: usize = 65 * NODE_SLOTS;

/// The number of slots that a further page may take.
const MORE_SLOTS: usize = DEPTH * NODE_SLOTS;

/// The number of slots that there may be.
const MAX_SLOTS: usize = 1 << 32;

/// What stands in a node's slot for the last digit of a prefix of a page's number.
#[inline(always)]
pub fn step(slots: &[u32], node: u32, prefix: u64) -> u32
    requires { NODE_SLOTS * node + NODE_SLOTS ≤ length slots.now }
    ensures { result ≡ slot slots.now (NODE_SLOTS * node + prefix % BASE) }
{
    slots[NODE_SLOTS * node as usize + (prefix % BASE) as usize]
}

/// A node for the last digit of numbers, and the five digits before that, which lead to it.
#[derive(Clone, Copy)]
pub struct LastNode {
    /// The five digits.
    pub prefix: u64,
    /// The number of the node.
    pub node: u32,
}

/// The node that five digits lead to, the first of 64 nodes by the first of them; 0 where they lead nowhere.
#[inline(always)]
fn last_node(slots: &[u32], prefix: u64) -> u32
    requires tree { IsTree slots.now }
    requires some { 0 < length slots.now }
    requires fits { Fits 4 prefix }
    ensures { result ≡ reached slots.now 4 prefix }
{
    let three = prefix / BASE;
    let two = three / BASE;
    let one = two / BASE;
    let node = step(slots, 1 + (one / BASE) as u32, one);
    let node = step(slots, node, two);
    let node = step(slots, node, three);
    step(slots, node, prefix)
}

/// `last_node`; the digits of the node that is known aren't followed again.
#[inline(always)]
pub fn node_of(slots: &[u32], last: &LastNode, prefix: u64) -> u32
    requires tree { IsTree slots.now }
    requires some { 0 < length slots.now }
    requires last { last.now.node ≡ reached slots.now 4 last.now.prefix }
    requires fits { Fits 4 prefix }
    ensures { result ≡ reached slots.now 4 prefix }
{
    if prefix == last.prefix {
        return last.node;
    }
    last_node(slots, prefix)
}

/// What the six digits of a page's number lead to; 0 where the number isn't there. The digits of the node that is known
/// aren't followed again.
#[inline(always)]
pub fn find(slots: &[u32], last: &LastNode, number: u64) -> u32
    requires tree { IsTree slots.now }
    requires last { last.now.node ≡ reached slots.now 4 last.now.prefix }
    requires fits { Fits 5 number }
    ensures { result ≡ reached slots.now 5 number }
{
    if slots.is_empty() {
        return 0;
    }
    step(slots, node_of(slots, last, number / BASE), number)
}

/// Adds slots that are empty, so many, where there is room for them.
fn add_slots(slots: &mut Vec<u32>, count: usize)
    requires { vec_len slots.old + count ≤ vec_capacity slots.old }
    ensures len { vec_len slots.new ≡ vec_len slots.old + count }
    ensures room { vec_capacity slots.new ≡ vec_capacity slots.old }
    ensures slots { (i : ℕ) → slot slots.new.items i ≡ slot slots.old.items i }
{
    for i in 0..count {
        let _ = i;
        slots.push_reserved(0);
    }
}

/// Makes the first nodes, where there are none yet. `NoMemory` where there is none.
fn begin(slots: &mut Vec<u32>) -> Result<(), NoMemory>
    requires { IsTree slots.old.items }
    ensures some { OnOk result (0 < vec_len slots.new) }
    ensures tree { IsTree slots.new.items }
    ensures slots { (i : ℕ) → slot slots.new.items i ≡ slot slots.old.items i }
{
    if slots.len() > 0 {
        return Ok(());
    }
    match slots.reserve(FIRST_SLOTS) {
        Ok(()) => {
            add_slots(slots, FIRST_SLOTS);
            Ok(())
        }
        Err(_) => Err(NoMemory),
    }
}

/// Makes room for the nodes that a further page may take. `NoMemory` where there is none, and where there would be more
/// than 2^32 slots.
pub fn reserve_slots(slots: &mut Vec<u32>) -> Result<(), NoMemory>
    requires { IsTree slots.old.items }
    ensures room { OnOk result (HasSlots slots.new) }
    ensures tree { IsTree slots.new.items }
    ensures slots { (i : ℕ) → slot slots.new.items i ≡ slot slots.old.items i }
{
    begin(slots)?;
    if slots.len() > MAX_SLOTS - MORE_SLOTS {
        return Err(NoMemory);
    }
    slots.reserve(MORE_SLOTS).map_err(|_| NoMemory)
}

/// Adds a node, to which this slot then leads, where there is room for it; tells its number.
fn add_node(slots: &mut Vec<u32>, at: usize) -> u32
    requires within { at < vec_len slots.old }
    requires whole { vec_len slots.old % NODE_SLOTS ≡ 0 }
    requires few { vec_len slots.old < 2 ^ 32 }
    requires room { vec_len slots.old + NODE_SLOTS ≤ vec_capacity slots.old }
    ensures number { NODE_SLOTS * result ≡ vec_len slots.old }
    ensures len { vec_len slots.new ≡ vec_len slots.old + NODE_SLOTS }
    ensures room { vec_capacity slots.new ≡ vec_capacity slots.old }
    ensures slots { (i : ℕ) → slot slots.new.items i ≡ (if nat_eq i at then result else slot slots.old.items i) }
{
    let number = (slots.len() / NODE_SLOTS) as u32;
    add_slots(slots, NODE_SLOTS);
    slots[at] = number;
    number
}

/// The node that the first digits of a page's number lead to, one and `depth` more, 0 to 4, where there is room for the
/// nodes on the way that aren't there yet.
pub fn node_for(slots: &mut Vec<u32>, depth: usize, prefix: u64) -> u32
    requires tree { IsTree slots.old.items }
    requires some { 0 < vec_len slots.old }
    requires depth { depth < 5 }
    requires fits { Fits depth prefix }
    requires few { vec_len slots.old + NODE_SLOTS * depth ≤ 2 ^ 32 }
    requires room { vec_len slots.old + NODE_SLOTS * depth ≤ vec_capacity slots.old }
    ensures node { reached slots.new.items depth prefix ≡ result }
    ensures some { 0 < result }
    ensures tree { IsTree slots.new.items }
    ensures alike { LeadsAlike slots.old.items slots.new.items }
    ensures longer { vec_len slots.old ≤ vec_len slots.new }
    ensures len { vec_len slots.new ≤ vec_len slots.old + NODE_SLOTS * depth }
    ensures room { vec_capacity slots.new ≡ vec_capacity slots.old }
{
    if depth == 0 {
        return 1 + prefix as u32;
    }
    let above = node_for(slots, depth - 1, prefix / BASE);
    let at = NODE_SLOTS * above as usize + (prefix % BASE) as usize;
    let node = slots[at];
    if node != 0 {
        return node;
    }
    add_node(slots, at)
}

/// An empty slot of a last node leads to an entry then, by its number and one.
pub fn put_number(slots: &mut Vec<u32>, at: usize, number: u32)
    requires { at < vec_len slots.old }
    ensures len { vec_len slots.new ≡ vec_len slots.old }
    ensures room { vec_capacity slots.new ≡ vec_capacity slots.old }
    ensures slots { (i : ℕ) → slot slots.new.items i ≡ (if nat_eq i at then number else slot slots.old.items i) }
{
    slots[at] = number;
}
