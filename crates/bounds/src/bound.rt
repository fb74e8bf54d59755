// How far a report may lie from the solution in floats. The study's numbers differ from that for four reasons only:
//
// - a voltage or a current is rounded: re and im each move by at most 1/2, so a phasor by at most the root of 1/2. A voltage is rounded once on its way
//   through a line or a regulator and twice through a transformer; a current once in a load, a regulator or a transformer;
// - the whole root in a load of constant current is less than 1 below the root;
// - the reported voltages are those before the last sweep, which moved re and im by at most tol, so a phasor by at most the root of 2 times tol;
// - a load of constant power may be below 70 per cent of vn, where it is an impedance, in the one and not in the other.
//
// The bound on a voltage or a current is the largest length to which these can add up. It is worked by the solver's sweeps, with lengths in the place of
// phasors and no minus, so that nothing cancels (component.rt of crate floats). The same holds of a load between two phases: the voltage across it is off by at
// most the sum of what its two phases are off by, each of which the last sweep has moved, and what its current is off by counts in full, with no minus, on both
// phases.
//
// Where the voltage across a load is off by e, its current is off by its slope times e and its own rounding. With V the voltage across it in floats and W the
// reported one, the slope is |S| / (|V|·|W|) for constant power, at most 2·|S| / (vn·(|V| + |W|)) for constant current, and |S| / vn² for constant impedance.
// Where V and W are both below 70 per cent of vn, the slope of constant power is that of an impedance. Where one of them is, the current is off by at most that
// slope times e, and what the two currents, as an impedance and at constant power, differ by at the voltage that is not so low.
// Where these sweeps settle, no report that follows documents 01 and 02 is further off: what a report is off by is at most one more sweep of itself. Where they
// do not, as near a collapse of the voltage, there is no bound.
use arrays::Threes;
use feeder::{Load, LoadKind, Network, PerPhase, Terminals, Three};
use floats::component::{Quantity, rounding};
use floats::phasor::{Phasor, PhasorRows, Phasors, Solution, ZERO, no_rows, real, root};
use floats::solver::{Feeder, low, on_phases, place, sweep_feeder, voltage_across};
use std::ops::Add;

// What the currents at constant power and as an impedance differ by, at a voltage of length x.
fn step(s: f64, vn: f64, x: f64) -> f64 {
    (s / x - s * x / (vn * vn)).abs()
}

// How far the current of a load of constant power is off where the voltage across it is off by at most e, its rounding left out.
fn power_bound(s: f64, vn: f64, solved: Phasor, reported: Phasor, e: f64) -> f64 {
    let v = solved.length();
    let w = reported.length();
    let as_impedance = s / (vn * vn) * e;
    match (low(vn, solved), low(vn, reported)) {
        (true, true) => as_impedance,
        (true, false) => as_impedance + step(s, vn, w),
        (false, true) => as_impedance + step(s, vn, v),
        (false, false) => s / (v * w) * e,
    }
}

// How far the current of a load is off where the voltage across it is off by at most e: its slope times e, its rounding, and for constant current its whole root.
fn load_bound(l: Load, solved: Phasor, reported: Phasor, e: f64) -> f64 {
    let s = 100000.0 * Phasor::from(l.s).length();
    let vn = real(l.vn);
    match l.kind {
        LoadKind::Power => power_bound(s, vn, solved, reported, e) + rounding(),
        LoadKind::Current => {
            let v = solved.length();
            let w = reported.length();
            let least_root = if w < 2.0 { 1.0 } else { w - 1.0 };
            2.0 * s / (vn * (v + w)) * e + s / (vn * least_root) + rounding()
        }
        LoadKind::Impedance => s / (vn * vn) * e + rounding(),
    }
}

// How far the voltage across a load is off, from the bounds on the voltages of its node: for two phases the sum of both, with the last sweep's movement of each.
fn bound_across(terminals: Terminals, bounds: Phasors, moved: f64) -> f64 {
    let e = bounds.map(|bound| bound.re + moved);
    match terminals {
        Terminals::OnA => e.a,
        Terminals::OnB => e.b,
        Terminals::OnC => e.c,
        Terminals::AB => e.a + e.b,
        Terminals::BC => e.b + e.c,
        Terminals::CA => e.c + e.a,
    }
}

// How far a load's current is off on each phase, on the second as on the first, from the voltages of its node and the bounds on them.
fn load_bounds(l: Load, solved: Phasors, reported: Three, bounds: Phasors, moved: f64) -> Phasors {
    let v = voltage_across(l.phase, solved);
    let w = voltage_across(l.phase, reported.map(Phasor::from));
    let e = bound_across(l.phase, bounds, moved);
    let bound = Phasor::of_length(load_bound(l, v, w, e));
    on_phases(l.phase, bound, bound)
}

// The sum over the loads at each node, from the bounds on its voltages: it stands in the currents.
fn drawn_bounds(
    feeder: Feeder<'_>,
    solved: &PhasorRows,
    reported: &Threes,
    moved: f64,
    bounds: &mut Solution,
) {
    bounds.currents = no_rows();
    for row in 0..feeder.loads.len() {
        let l = feeder.loads[row];
        let node = place(l.node);
        let e = bounds.voltages[node];
        let added = load_bounds(l, solved[node], reported[node], e, moved);
        bounds.currents[node] = bounds.currents[node].zip(added, Add::add);
    }
}

// The bounds on the voltages at each node in cV and on the currents of each branch in mA, from the voltages in floats and the reported ones, if 1,000 sweeps are
// enough. They stand in re, and are 0 before the first sweep. The source is not off. The answer is what is added to the bounds on the voltages for the last
// sweep's movement.
pub fn bounds_on_feeder(
    feeder: Feeder<'_>,
    solved: &PhasorRows,
    reported: &Threes,
    bounds: &mut Solution,
) -> Option<f64> {
    let none = PerPhase::same(ZERO);
    let moved = root(2.0) * std::num::nearest_u64_to_f64(feeder.tol);
    bounds.voltages = no_rows();
    for _ in 0..1000 {
        drawn_bounds(feeder, solved, reported, moved, bounds);
        if sweep_feeder(feeder, Quantity::Bound, none, bounds) {
            return Some(moved);
        }
    }
    None
}

// The bounds for a feeder in memory.
pub fn bounds_on(
    network: &Network,
    solved: &PhasorRows,
    reported: &Threes,
    bounds: &mut Solution,
) -> Option<f64> {
    bounds_on_feeder(Feeder::from(network), solved, reported, bounds)
}
