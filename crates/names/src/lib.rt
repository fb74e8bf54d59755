// Names to node numbers: node 0 is the source, node k the "to" of branch row k. Refusals 20, 21 and 23 are in faults.rt.
#![tactic(auto)]

ghost use Rattle.std.specs.Prelude.{◌≡◌, ◌∷◌, map, ◌+◌, ◌≤◌, length, replicate, take};
ghost use Rattle.feeder.specs.Feeder.{branch_of, load_of, no_branch, place_of};
ghost use Rattle.feeder.specs.Layout.{Rows};
ghost use Rattle.feeder.specs.Network.{Tabled, kept, no_branch_row, no_load, no_load_row};
ghost use Rattle.names.specs.Numbered.{nodes_in};
ghost use Rattle.names.specs.Slots.{Slotted, slot_of};

pub mod faults;

use feeder::{Branch, Load, Tables, device_of};

// The place of a name among the first n, or n where it is not there.
fn place_of(name: u64, nodes: &[u64], n: usize) -> usize
    requires { n ≤ length nodes.now }
    ensures { result ≡ place_of name (take n nodes.now) }
{
    for i in 0..n {
        if name == nodes[i] {
            return i;
        }
    }
    n
}

// The slot of a name. 4093 is a prime above 255, so that names which differ in one letter have different slots.
fn slot_of(name: u64) -> usize
    ensures { result ≡ slot_of name }
{
    (name % 4093) as usize
}

// For each slot the first place whose name has that slot: where to look before searching. A search among 200 names for each of 500 rows is
// slow. It goes from the last name to the first, so that the first of those with one slot stays. Only a guess: a slot that no name
// has holds 0, since `find` compares the name.
pub fn slots_of(nodes: &[u64; 201], n: usize) -> [u8; 4093]
    requires { n ≤ 201 }
    ensures { Slotted nodes.now result }
{
    let mut slots = [0u8; 4093];
    for i in (0..n).rev() {
        slots[slot_of(nodes[i])] = i as u8;
    }
    slots
}

fn wide(b: u8) -> usize
    ensures { result ≡ b }
{
    b as usize
}

// What `place_of` gives: the place in the name's slot if it has that name, and otherwise (two names with one slot, or a name that is not there) by the search.
fn find(name: u64, nodes: &[u64], n: usize, slots: &[u8; 4093]) -> usize
    requires n_in_bounds { n ≤ length nodes.now }
    requires slotted { Slotted nodes.now slots.now }
    ensures { result ≡ place_of name (take n nodes.now) }
{
    let guess = wide(slots[slot_of(name)]);
    if guess < n {
        let there = nodes[guess];
        if name == there {
            return guess;
        }
    }
    place_of(name, nodes, n)
}

// The names of the nodes, which stand by their numbers.
pub fn name_nodes(tables: &Tables, nodes: &mut [u64; 201])
    requires rows_bound { tables.now.rows ≤ 200 }
    requires nodes_value { nodes.old ≡ replicate 201 0 }
    ensures { (r : Rows) → Tabled r tables.now → nodes.new ≡ nodes_in r }
{
    nodes[0] = tables.source;
    for k in 1..tables.rows + 1 {
        nodes[k] = tables.branches[k - 1].to;
    }
}

// The branches, each with the number of its from-node.
pub fn number_branches(
    tables: &Tables,
    nodes: &[u64; 201],
    slots: &[u8; 4093],
    branches: &mut [Branch; 201],
)
    requires rows_bound { tables.now.rows ≤ 200 }
    requires slotted { Slotted nodes.now slots.now }
    ensures { (r : Rows) → tables.now.branches ≡ kept no_branch_row 200 r.branches → tables.now.rows ≡ length r.branches → branches.old ≡ replicate 201 no_branch → branches.new ≡ kept no_branch 201 (no_branch ∷ map (branch_of (take (tables.now.rows + 1) nodes.now)) r.branches) }
{
    for k in 1..tables.rows + 1 {
        let row = &tables.branches[k - 1];
        let from = find(row.from, nodes, tables.rows + 1, slots);
        branches[k] = Branch {
            from,
            phases: row.phases,
            device: device_of(row.kind, &row.p),
        };
    }
}

// The loads, each with the number of its node among the first n.
pub fn number_loads_among(
    tables: &Tables,
    nodes: &[u64; 201],
    n: usize,
    slots: &[u8; 4093],
    loads: &mut [Load; 300],
)
    requires count_bound { tables.now.count ≤ 300 }
    requires n_bound { n ≤ 201 }
    requires slotted { Slotted nodes.now slots.now }
    ensures { (r : Rows) → tables.now.loads ≡ kept no_load_row 300 r.loads → tables.now.count ≡ length r.loads → loads.old ≡ replicate 300 no_load → loads.new ≡ kept no_load 300 (map (load_of (take n nodes.now)) r.loads) }
{
    for i in 0..tables.count {
        let row = &tables.loads[i];
        let node = find(row.node, nodes, n, slots);
        loads[i] = Load {
            node,
            phase: row.phase,
            kind: row.kind,
            vn: row.vn,
            s: row.s,
        };
    }
}

// The loads, each with the number of its node among the source and the nodes of the branch rows.
pub fn number_loads(
    tables: &Tables,
    nodes: &[u64; 201],
    slots: &[u8; 4093],
    loads: &mut [Load; 300],
)
    requires rows_bound { tables.now.rows ≤ 200 }
    requires count_bound { tables.now.count ≤ 300 }
    requires slotted { Slotted nodes.now slots.now }
    ensures { (r : Rows) → tables.now.loads ≡ kept no_load_row 300 r.loads → tables.now.count ≡ length r.loads → loads.old ≡ replicate 300 no_load → loads.new ≡ kept no_load 300 (map (load_of (take (tables.now.rows + 1) nodes.now)) r.loads) }
{
    number_loads_among(tables, nodes, tables.rows + 1, slots, loads);
}

#[cfg(test)]
mod tests;
