// One line of 1 Ω on A, from 2,400 V to a load with the impedance of 3 Ω: 1,800 V at the load and 600 A, by hand. What stands behind the last rows is not read.
use crate::component::Quantity;
use crate::phasor::{Phasor, Phasors, Solution, ZERO};
use crate::solver::{Feeder, solve, solve_feeder, sweep};
use feeder::{Branch, Device, LineZ, Load, LoadKind, Network, PerPhase, Terminals};
use integers::Pair;

fn pair(re: i64) -> Pair {
    Pair { re, im: 0 }
}

fn line() -> Branch {
    let none = pair(0);
    let z = LineZ {
        aa: pair(1_000_000),
        ab: none,
        ac: none,
        bb: none,
        bc: none,
        cc: none,
    };
    Branch {
        from: 0,
        phases: PerPhase {
            a: true,
            b: false,
            c: false,
        },
        device: Device::Line(z),
    }
}

fn load() -> Load {
    Load {
        node: 1,
        phase: Terminals::OnA,
        kind: LoadKind::Impedance,
        vn: 240_000,
        s: pair(1_920_000),
    }
}

fn one_line() -> Network {
    let mut network = Network::empty();
    network.source.a = pair(240_000);
    network.rows = 1;
    network.count = 1;
    network.order[1] = 1;
    network.order[2] = 2;
    network.branches = [line(); 201];
    network.loads = [load(); 300];
    network
}

fn on_a(x: i64) -> Phasors {
    PerPhase {
        a: Phasor::from(pair(x)),
        b: ZERO,
        c: ZERO,
    }
}

fn near(x: Phasors, y: Phasors) -> bool {
    x.zip(y, |p: Phasor, q: Phasor| p.distance(q) < 0.000001)
        .all()
}

#[test]
fn a_line_and_a_load_are_solved(rt: HostRuntime) {
    let network = one_line();
    let mut s = Solution::zero();
    let sweeps = solve(&network, &mut s);
    assert!(rt; sweeps.is_some(), "the voltages settle");
    assert!(rt; near(s.voltages[0], on_a(240_000)), "the source");
    assert!(rt; near(s.voltages[1], on_a(180_000)), "the load's node");
    assert!(rt; near(s.currents[1], on_a(600_000)), "the line");
    assert!(rt; near(s.voltages[2], on_a(0)), "behind the last node");
    let mut same = Solution::zero();
    assert_eq!(rt; solve_feeder(Feeder::from(&network), &mut same), sweeps);
}

#[test]
fn a_second_sweep_stands_still(rt: HostRuntime) {
    let network = one_line();
    let source = on_a(240_000);
    let mut s = Solution::zero();
    for still in [false, true] {
        s.currents[1] = on_a(600_000);
        assert_eq!(rt; sweep(&network, Quantity::Value, source, &mut s), still);
        assert!(rt; near(s.voltages[0], source), "the source");
        assert!(rt; near(s.voltages[1], on_a(180_000)), "the load's node");
        assert!(rt; near(s.voltages[2], on_a(0)), "behind the last node");
    }
}
