// Refusals 20, 21 and 23: the first line with each fault, by node numbers. Branch row k stands in line 4 + k.
ghost use Rattle.std.specs.Prelude.{◌≡◌, ℕ, ◌+◌, ◌<◌, ◌≤◌, cond, true, get_or, length, take};
ghost use Rattle.feeder.specs.Feeder.{all_of, first_row, no_branch, phase_absent, second_to, stands_on, unknown_from};
ghost use Rattle.feeder.specs.Layout.{Rows};
ghost use Rattle.names.specs.Numbered.{branch_absent, branches_in, load_absent, loads_in, node_phases, nodes_in, three_phase_of};
ghost use Rattle.names.specs.Rest.{rest};
ghost use Rattle.names.specs.Slots.{Slotted};

use crate::find;
use feeder::{Device, Network, Phases, Terminals, signs_of};
use integers::whole;

// 20: a from-name that no node has got the number behind the last, rows + 1.
pub fn first_unknown_from(network: &Network) -> Option<usize>
    ensures { (r : Rows) → network.now.branches ≡ branches_in r → network.now.rows ≡ length r.branches → result ≡ unknown_from r }
{
    for k in 1..network.rows + 1 {
        if network.rows < network.branches[k].from {
            return Some(4 + k);
        }
    }
    None
}

// 21: the name of node k stands before place k.
pub fn first_second_to(network: &Network, slots: &[u8; 4093]) -> Option<usize>
    requires { Slotted network.now.nodes slots.now }
    ensures { (r : Rows) → network.now.nodes ≡ nodes_in r → network.now.rows ≡ length r.branches → result ≡ second_to r }
{
    for k in 1..network.rows + 1 {
        let place = find(network.nodes[k], &network.nodes, network.rows + 1, slots);
        if place < k {
            return Some(4 + k);
        }
    }
    None
}

// Whether a phase is absent in f, or there in g.
fn covers(f: bool, g: bool) -> bool
    ensures { result ≡ cond f g true }
{
    !f || g
}

// Whether all phases of f are among g's.
#[tactic(auto, using(crate::specs::NumberedLaws::phases_among))]
fn all_of(f: Phases, g: Phases) -> bool
    ensures { result ≡ all_of f g }
{
    f.zip(g, covers).all()
}

// The phases that a load stands on: those whose sign is not 0.
fn stands_on(terminals: Terminals) -> Phases
    ensures { result ≡ stands_on terminals }
{
    let s = signs_of(terminals);
    Phases {
        a: !whole::inside(s.a, 0),
        b: !whole::inside(s.b, 0),
        c: !whole::inside(s.c, 0),
    }
}

// Whether all phases that a load stands on are among these.
fn has_phases(phases: Phases, terminals: Terminals) -> bool
    ensures { result ≡ all_of (stands_on terminals) phases }
{
    all_of(stands_on(terminals), phases)
}

const ALL: Phases = Phases {
    a: true,
    b: true,
    c: true,
};

// The phases of node k, which is fed by a branch with phases f: the source has all.
fn node_phases(k: usize, f: Phases) -> Phases
    ensures { result ≡ node_phases k f }
{
    if k == 0 { ALL } else { f }
}

// A transformer has all phases.
fn three_phase(device: Device, f: Phases) -> bool
    ensures { result ≡ three_phase_of device f }
{
    match device {
        Device::Line(_) | Device::Regulator(_) => true,
        Device::Transformer(_) => all_of(ALL, f),
    }
}

// 23, of a branch: its phases are not all at its from-node, or it is a transformer without all.
fn first_branch_absent(network: &Network) -> Option<usize>
    requires { (k : ℕ) → (get_or network.now.branches k no_branch).from ≤ network.now.rows }
    ensures { result ≡ first_row (branch_absent network.now.branches) 4 1 (rest 1 (network.now.rows + 1) network.now.branches) }
{
    for k in 1..network.rows + 1 {
        let b = &network.branches[k];
        let there = node_phases(b.from, network.branches[b.from].phases);
        if !all_of(b.phases, there) || !three_phase(b.device, b.phases) {
            return Some(4 + k);
        }
    }
    None
}

// 23, of a load: its node is unknown, or a phase of it is not there.
fn first_load_absent(network: &Network) -> Option<usize>
    ensures { ((k : ℕ) → network.now.rows < k → get_or network.now.branches k no_branch ≡ no_branch) → result ≡ first_row (load_absent network.now.branches) (network.now.rows + 6) 1 (take network.now.count network.now.loads) }
{
    for i in 0..network.count {
        let l = &network.loads[i];
        if network.rows < l.node {
            return Some(network.rows + 7 + i);
        }
        let there = node_phases(l.node, network.branches[l.node].phases);
        if !has_phases(there, l.phase) {
            return Some(network.rows + 7 + i);
        }
    }
    None
}

// 23
pub fn first_phase_absent(network: &Network) -> Option<usize>
    requires { (k : ℕ) → (get_or network.now.branches k no_branch).from ≤ network.now.rows }
    ensures { (r : Rows) → network.now.branches ≡ branches_in r → network.now.rows ≡ length r.branches → network.now.loads ≡ loads_in r → network.now.count ≡ length r.loads → result ≡ phase_absent r }
{
    // A match, since the proof over or_else did not close: what its closure ensures has no name that an answer can cite.
    match first_branch_absent(network) {
        Some(line) => Some(line),
        None => first_load_absent(network),
    }
}
