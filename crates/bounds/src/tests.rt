// A load with the impedance of 3 Ω at the source: 1,920 kW at a vn of 2,400 V. With r the root of 1/2, which a rounding moves at most, and tol 1, so that the last
// sweep moved a voltage by 2·r at most: the source's voltage is not off, and the current is off by r, and by 10/3 mA for each cV of 2·r, which is 23/3·r, by hand.
// What stands behind the last load row is not read.
use crate::bound::bounds_on;
use feeder::{Load, LoadKind, NO_THREE, Network, Terminals};
use floats::phasor::{Solution, no_rows};
use integers::Pair;

fn near(x: f64, y: f64) -> bool {
    (x - y).abs() < 0.000001
}

#[test]
fn a_load_is_bounded(rt: HostRuntime) {
    let r = 0.5f64.sqrt();
    let load = Load {
        node: 0,
        phase: Terminals::OnA,
        kind: LoadKind::Impedance,
        vn: 240_000,
        s: Pair {
            re: 1_920_000,
            im: 0,
        },
    };
    let mut network = Network::empty();
    network.tol = 1;
    network.count = 1;
    network.loads = [load; 300];
    let mut bounds = Solution::zero();
    let moved = bounds_on(&network, &no_rows(), &[NO_THREE; 201], &mut bounds);
    assert!(rt;
        near(moved.unwrap_or(0.0), 2.0 * r),
        "the last sweep's movement"
    );
    assert!(rt; near(bounds.voltages[0].a.re, 0.0), "the source's voltage");
    assert!(rt;
        near(bounds.currents[0].a.re, 23.0 / 3.0 * r),
        "the load's current"
    );
}
