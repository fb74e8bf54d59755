// The solution of a feeder in floats, with no rounding: sweeps of currents upward and voltages downward until the voltages stand still.
ghost use Rattle.std.specs.Prelude.{◌<◌, ◌≡◌, drop, take};

use crate::component::{Quantity, far_voltages, near_currents};
use crate::phasor::{Phasor, PhasorRows, Phasors, Solution, ZERO, no_rows, real};
use feeder::{Branch, Load, LoadKind, Network, PerPhase, Terminals, Three};
use std::ops::Add;

// What the floats are given of a feeder: the load rows, and the nodes in the order of work. Nothing is asked of it: a number that is no node's is cut (`place`).
#[derive(Clone, Copy)]
pub struct Feeder<'a> {
    pub source: Three,
    pub tol: u64,
    pub branches: &'a [Branch; 201],
    pub loads: &'a [Load],
    pub order: &'a [usize],
}

// Of a feeder in memory the floats are given the load rows that it has, and the order of work behind the source.
impl<'a> From<&'a Network> for Feeder<'a> {
    fn from(network: &'a Network) -> Feeder<'a>
        ensures source { result.source ≡ network.now.source }
        ensures tol { result.tol ≡ network.now.tol }
        ensures branches { result.branches.now ≡ network.now.branches }
        ensures loads { result.loads.now ≡ take network.now.count network.now.loads }
        ensures order { result.order.now ≡ take network.now.rows (drop 1 network.now.order) }
    {
        Feeder {
            source: network.source,
            tol: network.tol,
            branches: &network.branches,
            loads: &network.loads[..network.count],
            order: &network.order[1..network.rows + 1],
        }
    }
}

// A node's number, which is at most 200 in every feeder.
pub fn place(k: usize) -> usize
    ensures { result < 201 }
{
    k.min(200)
}

// The voltage across a load, from those of its node: that of its phase, or the first phase's minus the second's.
// The signs are not taken from crate feeder, since the study reads them there: were one of them wrong, both would work with it.
pub fn voltage_across(terminals: Terminals, v: Phasors) -> Phasor {
    match terminals {
        Terminals::OnA => v.a,
        Terminals::OnB => v.b,
        Terminals::OnC => v.c,
        Terminals::AB => v.a - v.b,
        Terminals::BC => v.b - v.c,
        Terminals::CA => v.c - v.a,
    }
}

// What a load has on its first phase and on its second, where it has one, for each phase of its node.
pub fn on_phases(terminals: Terminals, first: Phasor, second: Phasor) -> Phasors {
    let (a, b, c) = match terminals {
        Terminals::OnA => (first, ZERO, ZERO),
        Terminals::OnB => (ZERO, first, ZERO),
        Terminals::OnC => (ZERO, ZERO, first),
        Terminals::AB => (first, second, ZERO),
        Terminals::BC => (ZERO, first, second),
        Terminals::CA => (second, ZERO, first),
    };
    PerPhase { a, b, c }
}

// Whether the voltage across a load is below 70 per cent of vn, where constant power acts as an impedance.
pub fn low(vn: f64, v: Phasor) -> bool {
    100.0 * v.square() < 49.0 * (vn * vn)
}

// By what conj(S)·V is divided: constant power, constant current and constant impedance.
fn divisor(kind: LoadKind, vn: f64, v: Phasor) -> f64 {
    match kind {
        LoadKind::Power if !low(vn, v) => v.square(),
        LoadKind::Current => v.length() * vn,
        LoadKind::Power | LoadKind::Impedance => vn * vn,
    }
}

// The current of a load row on each phase, from the voltages of its node: it counts into its first phase and, with the sign changed, into its second where it has
// one. A VA is 100,000 times 1 cV times 1 mA.
fn load_currents(l: Load, voltages: Phasors) -> Phasors {
    let v = voltage_across(l.phase, voltages);
    let i = Phasor::from(l.s).conj() * v * (100000.0 / divisor(l.kind, real(l.vn), v));
    on_phases(l.phase, i, -i)
}

// What the loads draw at each node, from its voltages: it stands in the currents.
fn drawn(feeder: Feeder<'_>, s: &mut Solution) {
    s.currents = no_rows();
    for row in 0..feeder.loads.len() {
        let l = feeder.loads[row];
        let node = place(l.node);
        let added = load_currents(l, s.voltages[node]);
        s.currents[node] = s.currents[node].zip(added, Add::add);
    }
}

// The currents, from what the loads draw at each node: upward, what the branches take is added.
fn upward(feeder: Feeder<'_>, quantity: Quantity, i: &mut PhasorRows) {
    for &node in feeder.order.iter().rev() {
        let m = place(node);
        let b = feeder.branches[m];
        let n = place(b.from);
        i[n] = i[n].zip(near_currents(b, quantity, i[m]), Add::add);
    }
}

// The voltages from the currents, from the source downward.
fn downward(
    feeder: Feeder<'_>,
    quantity: Quantity,
    source: Phasors,
    i: &PhasorRows,
    v: &mut PhasorRows,
) {
    *v = no_rows();
    v[0] = source;
    for &node in feeder.order {
        let m = place(node);
        let b = feeder.branches[m];
        v[m] = far_voltages(b, quantity, v[place(b.from)], i[m]);
    }
}

// Whether x and y are less than 10^-7 cV apart on each phase.
fn still(x: Phasors, y: Phasors) -> bool {
    let least = 0.0000001;
    x.zip(y, |p, q| p.distance(q) < least).all()
}

fn all_still(rows: usize, v: &PhasorRows, w: &PhasorRows) -> bool {
    (1..place(rows) + 1).all(|k| still(v[k], w[k]))
}

// One sweep, from what the loads draw at each node, which the currents hold: the currents there, the voltages to which they lead, and whether these stand still.
pub fn sweep_feeder(
    feeder: Feeder<'_>,
    quantity: Quantity,
    source: Phasors,
    s: &mut Solution,
) -> bool {
    let mut w = no_rows();
    upward(feeder, quantity, &mut s.currents);
    downward(feeder, quantity, source, &s.currents, &mut w);
    let settled = all_still(feeder.order.len(), &s.voltages, &w);
    s.voltages = w;
    settled
}

// One sweep of a feeder in memory.
pub fn sweep(network: &Network, quantity: Quantity, source: Phasors, s: &mut Solution) -> bool {
    sweep_feeder(Feeder::from(network), quantity, source, s)
}

// The solution, if 1,000 sweeps are enough. The answer is the number of sweeps. Regulators have the taps that the branches hold.
pub fn solve_feeder(feeder: Feeder<'_>, s: &mut Solution) -> Option<usize> {
    let source = feeder.source.map(Phasor::from);
    downward(feeder, Quantity::Value, source, &no_rows(), &mut s.voltages);
    for sweeps in 1..1001 {
        drawn(feeder, s);
        if sweep_feeder(feeder, Quantity::Value, source, s) {
            return Some(sweeps);
        }
    }
    None
}

// The solution of a feeder in memory.
pub fn solve(network: &Network, s: &mut Solution) -> Option<usize> {
    solve_feeder(Feeder::from(network), s)
}
