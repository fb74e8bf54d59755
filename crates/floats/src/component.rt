// A branch from n to m as a general component, V_m = A.V_n − B.I and J = typeof.d.I, with I the current at m and J what is taken at n: three matrices
// for each device, where the study goes by the kind of device.
//
// The same form says how far V_m and J are off where V_n and I are off by so much: lengths stand in the place of phasors, with no minus, so that nothing
// cancels, and the study's roundings are added.
use crate::phasor::{Phasor, Phasors, Reals, ZERO, present, real, root};
use feeder::{Branch, Connection, Device, LineZ, PerPhase, Phases, Taps, Windings};
use std::ops::Add;

// Matrices of real numbers and of impedances, by rows.
type Ratios = PerPhase<Reals>;

type Impedances = PerPhase<Phasors>;

// `voltage` is A, `drop` B, and `current` d. A row of A is 0 for a phase that is absent at m, so its voltage there is 0.
#[derive(Clone, Copy)]
pub struct Component {
    pub voltage: Ratios,
    pub drop: Impedances,
    pub current: Ratios,
}

// What a sweep works with: voltages and currents, or bounds on how far they are off, which are lengths and stand in re.
#[derive(Clone, Copy)]
pub enum Quantity {
    Value,
    Bound,
}

fn diagonal<T: Copy>(x: PerPhase<T>, zero: T) -> PerPhase<PerPhase<T>> {
    let none = PerPhase::same(zero);
    PerPhase {
        a: PerPhase { a: x.a, ..none },
        b: PerPhase { b: x.b, ..none },
        c: PerPhase { c: x.c, ..none },
    }
}

// The symmetric matrix of a line.
fn line_impedances(z: LineZ) -> Impedances {
    PerPhase {
        a: PerPhase {
            a: z.aa,
            b: z.ab,
            c: z.ac,
        },
        b: PerPhase {
            a: z.ab,
            b: z.bb,
            c: z.bc,
        },
        c: PerPhase {
            a: z.ac,
            b: z.bc,
            c: z.cc,
        },
    }
    .map(|row| row.map(Phasor::from))
}

fn line(phases: Phases, z: LineZ) -> Component {
    let kept = diagonal(present(phases), 0.0);
    Component {
        voltage: kept,
        drop: line_impedances(z),
        current: kept,
    }
}

// What a regulator makes of 1 on a phase. A positive tap raises the voltage.
fn raised(there: f64, tap: i64) -> f64 {
    there * 160.0 / (160.0 - real(tap))
}

fn regulator(phases: Phases, taps: Taps) -> Component {
    let ratios = diagonal(present(phases).zip(taps, raised), 0.0);
    Component {
        voltage: ratios,
        drop: PerPhase::same(PerPhase::same(ZERO)),
        current: ratios,
    }
}

// Delta to grounded wye: each phase at m has the voltage between two phases at n.
fn delta_voltage(k: f64) -> Ratios {
    PerPhase {
        a: PerPhase {
            a: k,
            b: 0.0,
            c: -k,
        },
        b: PerPhase {
            a: -k,
            b: k,
            c: 0.0,
        },
        c: PerPhase {
            a: 0.0,
            b: -k,
            c: k,
        },
    }
}

// And each phase at n feeds two phases at m.
fn delta_current(k: f64) -> Ratios {
    PerPhase {
        a: PerPhase {
            a: k,
            b: -k,
            c: 0.0,
        },
        b: PerPhase {
            a: 0.0,
            b: k,
            c: -k,
        },
        c: PerPhase {
            a: -k,
            b: 0.0,
            c: k,
        },
    }
}

fn transformer(t: Windings) -> Component {
    let turns = real(t.m) / real(t.n);
    let (voltage, current) = match t.connection {
        Connection::Wye => {
            let through = diagonal(PerPhase::same(turns), 0.0);
            (through, through)
        }
        Connection::Delta => (delta_voltage(turns), delta_current(turns)),
    };
    Component {
        voltage,
        drop: diagonal(t.z.map(Phasor::from), ZERO),
        current,
    }
}

fn values_of(b: Branch) -> Component {
    match b.device {
        Device::Line(z) => line(b.phases, z),
        Device::Regulator(x) => regulator(b.phases, x.taps),
        Device::Transformer(windings) => transformer(windings),
    }
}

// How far one rounding moves a phasor at most: by 1/2 in re and in im.
pub fn rounding() -> f64 {
    root(0.5)
}

// What the study's roundings of a voltage on its way through add to a bound. To a value they add nothing.
fn voltage_roundings(device: Device, quantity: Quantity) -> f64 {
    match (quantity, device) {
        (Quantity::Value, _) => 0.0,
        (Quantity::Bound, Device::Line(_) | Device::Regulator(_)) => rounding(),
        (Quantity::Bound, Device::Transformer(_)) => 2.0 * rounding(),
    }
}

// And those of a current.
fn current_roundings(device: Device, quantity: Quantity) -> f64 {
    match (quantity, device) {
        (Quantity::Value, _) | (Quantity::Bound, Device::Line(_)) => 0.0,
        (Quantity::Bound, Device::Regulator(_) | Device::Transformer(_)) => rounding(),
    }
}

// A length on each phase that is there.
fn on_phases(phases: Phases, x: f64) -> Phasors {
    present(phases).map(|there| Phasor::of_length(x * there))
}

fn absolute(x: Ratios) -> Ratios {
    x.map(|row| row.map(|ratio| ratio.abs()))
}

// The drop is taken away, so for bounds it is the length with a minus.
fn minus_lengths(x: Impedances) -> Impedances {
    x.map(|row| row.map(|z| Phasor::of_length(-z.length())))
}

fn bounds_of(b: Branch) -> Component {
    let k = values_of(b);
    Component {
        voltage: absolute(k.voltage),
        drop: minus_lengths(k.drop),
        current: absolute(k.current),
    }
}

fn component_of(b: Branch, quantity: Quantity) -> Component {
    match quantity {
        Quantity::Value => values_of(b),
        Quantity::Bound => bounds_of(b),
    }
}

// A row of ratios times x.
fn mixed(row: Reals, x: Phasors) -> Phasor {
    x.a * row.a + x.b * row.b + x.c * row.c
}

// A row of impedances times the currents. µΩ times mA is 10^-7 cV.
fn drop(row: Phasors, i: Phasors) -> Phasor {
    (row.a * i.a + row.b * i.b + row.c * i.c) * 0.0000001
}

// V_m, from the voltages at n and the currents at m.
pub fn far_voltages(b: Branch, quantity: Quantity, u: Phasors, i: Phasors) -> Phasors {
    let k = component_of(b, quantity);
    let added = on_phases(b.phases, voltage_roundings(b.device, quantity));
    k.voltage
        .zip(k.drop, |row, z| mixed(row, u) - drop(z, i))
        .zip(added, Add::add)
}

// J, from the currents at m.
pub fn near_currents(b: Branch, quantity: Quantity, i: Phasors) -> Phasors {
    let k = component_of(b, quantity);
    let added = on_phases(b.phases, current_roundings(b.device, quantity));
    k.current.map(|row| mixed(row, i)).zip(added, Add::add)
}
