// Lines, regulators and transformers: what passes through, the drop and what is taken; both ends of a branch, and its loss.
#![tactic(auto)]

ghost use Rattle.std.specs.Prelude.{◌≡◌, ◌<◌, ◌≤◌, ◌-ℤ◌, nat_abs, pos};
ghost use Rattle.integers.specs.Pairs.{◌·c◌, rnd_pair, scaled};
ghost use Rattle.integers.specs.PairLaws.{Within};
ghost use Rattle.integers.specs.Lists.{csum};
ghost use Rattle.feeder.specs.Feeder.{abc};
ghost use Rattle.equations.specs.Equations.{at, drop_of, each, far_voltage, mix, near_current, power, row_at, sign_table, taken_of, through_of};
ghost use Rattle.equations.specs.Sizes.{MatrixOk, SignsOk, Within3};
ghost use Rattle.equations.specs.Limits.{ChangerOk, DeviceOk, LineOk, WindingsOk};

use equations::{Matrix, SignTable};
use feeder::{Branch, Connection, Device, LineZ, PerPhase, Signs, TapChanger, Three, Windings};
use integers::{Pair, pairs, whole};

pub mod threes;

// The signs of A and d: of grounded wye to grounded wye, then of delta to grounded wye.
const SIGNS: [SignTable; 2] = [
    SignTable {
        voltage: Matrix {
            a: Signs { a: 1, b: 0, c: 0 },
            b: Signs { a: 0, b: 1, c: 0 },
            c: Signs { a: 0, b: 0, c: 1 },
        },
        current: Matrix {
            a: Signs { a: 1, b: 0, c: 0 },
            b: Signs { a: 0, b: 1, c: 0 },
            c: Signs { a: 0, b: 0, c: 1 },
        },
    },
    SignTable {
        voltage: Matrix {
            a: Signs { a: 1, b: 0, c: -1 },
            b: Signs { a: -1, b: 1, c: 0 },
            c: Signs { a: 0, b: -1, c: 1 },
        },
        current: Matrix {
            a: Signs { a: 1, b: -1, c: 0 },
            b: Signs { a: 0, b: 1, c: -1 },
            c: Signs { a: -1, b: 0, c: 1 },
        },
    },
];

// Each arm gives a value of the subject, its table of signs, and none is a step to run.
fn signs_of(c: Connection) -> SignTable
    ensures { result ≡ sign_table c }
{
    match c {
        Connection::Wye => SIGNS[0],
        Connection::Delta => SIGNS[1],
    }
}

// ---- regulators

// m / d times x.
fn ratio(m: i64, d: u64, x: Pair) -> Pair
    requires m_bound { nat_abs m ≤ 1000000 }
    requires d_nonzero { 0 < d }
    requires d_bound { d ≤ 1000000 }
    requires within { Within 6300000 x }
    ensures { result ≡ rnd_pair (scaled m x) d }
{
    let y = pairs::scale(m, x);
    pairs::round(y, d)
}

// 160 / (160 - tap) times x.
fn regulate(tap: i64, x: Pair) -> Pair
    requires tap_bound { nat_abs tap ≤ 16 }
    requires within { Within 2100000 x }
    ensures { result ≡ rnd_pair (scaled (pos 160) x) (nat_abs (pos 160 -ℤ tap)) }
{
    let k = whole::sub(160, tap);
    let d = whole::size(k);
    ratio(160, d, x)
}

fn regulated(d: TapChanger, x: Three) -> Three
    requires changer_ok { ChangerOk d }
    requires within3 { Within3 2100000 x }
    ensures { result ≡ through_of (Device.Regulator d) x }
{
    d.taps.zip(x, regulate)
}

// ---- transformers

// m / d times what a row of signs makes of x.
fn turn(row: Signs, m: i64, d: u64, x: Three) -> Pair
    requires signs_ok { SignsOk row }
    requires m_bound { nat_abs m ≤ 1000000 }
    requires d_nonzero { 0 < d }
    requires d_bound { d ≤ 1000000 }
    requires within3 { Within3 2100000 x }
    ensures { result ≡ rnd_pair (scaled m (mix row x)) d }
{
    ratio(m, d, threes::mix(row, x))
}

// M / N times what the signs make of x.
fn turned(s: Matrix, t: Windings, x: Three) -> Three
    requires matrix_ok { MatrixOk s }
    requires windings_ok { WindingsOk t }
    requires within3 { Within3 2100000 x }
    ensures { result ≡ each (λ p. rnd_pair (scaled t.m (mix (row_at s p) x)) (nat_abs t.n)) }
{
    let m = t.m;
    let d = whole::size(t.n);
    s.map(|row| turn(row, m, d, x))
}

// voltage_through and current_through are alike but for the table of signs and the promise.

fn voltage_through(t: Windings, u: Three) -> Three
    requires windings_ok { WindingsOk t }
    requires within3 { Within3 2100000 u }
    ensures { result ≡ through_of (Device.Transformer t) u }
{
    let c = t.connection;
    let s = signs_of(c);
    turned(s.voltage, t, u)
}

fn current_through(t: Windings, i: Three) -> Three
    requires windings_ok { WindingsOk t }
    requires within3 { Within3 2000000 i }
    ensures { result ≡ taken_of (Device.Transformer t) i }
{
    let c = t.connection;
    let s = signs_of(c);
    turned(s.current, t, i)
}

// ---- drops

// z times i in cV: µΩ times mA is 10 to the 7 times as fine.
fn ohm(z: Pair, i: Pair) -> Pair
    requires within { Within 100000000 z }
    requires within_2 { Within 2000000 i }
    ensures { result ≡ rnd_pair (z ·c i) 10000000 }
{
    let p = pairs::mul(z, i);
    pairs::round(p, 10000000)
}

// The drop on one phase of a line: z of that phase with each, summed and then rounded.
fn ohms(z: Three, i: Three) -> Pair
    requires within3 { Within3 100000000 z }
    requires within3_2 { Within3 2000000 i }
    ensures { result ≡ rnd_pair (csum (λ j. at z j ·c at i j) abc) 10000000 }
{
    pairs::round(threes::total(z.zip(i, pairs::mul)), 10000000)
}

fn line_drop(z: LineZ, i: Three) -> Three
    requires line_ok { LineOk z }
    requires within3 { Within3 2000000 i }
    ensures { result ≡ drop_of (Device.Line z) i }
{
    let LineZ {
        aa,
        ab,
        ac,
        bb,
        bc,
        cc,
    } = z;
    let rows = PerPhase {
        a: Three {
            a: aa,
            b: ab,
            c: ac,
        },
        b: Three {
            a: ab,
            b: bb,
            c: bc,
        },
        c: Three {
            a: ac,
            b: bc,
            c: cc,
        },
    };
    rows.map(|row| ohms(row, i))
}

fn winding_drop(t: Windings, i: Three) -> Three
    requires windings_ok { WindingsOk t }
    requires within3 { Within3 2000000 i }
    ensures { result ≡ drop_of (Device.Transformer t) i }
{
    t.z.zip(i, ohm)
}

// ---- a device, and a branch

// The matches on a device in through, taken and drop_of: each arm gives a value of the subject, and none is a step to run.
// through and taken are alike but for the table of signs that a transformer has in each, and the promise.

// What passes through the device, before the drop.
pub fn through(d: Device, u: Three) -> Three
    requires device_ok { DeviceOk d }
    requires within3 { Within3 2100000 u }
    ensures { result ≡ through_of d u }
{
    match d {
        Device::Line(_) => u,
        Device::Regulator(t) => regulated(t, u),
        Device::Transformer(t) => voltage_through(t, u),
    }
}

// J, with I at the far end.
pub fn taken(d: Device, i: Three) -> Three
    requires device_ok { DeviceOk d }
    requires within3 { Within3 2000000 i }
    ensures { result ≡ taken_of d i }
{
    match d {
        Device::Line(_) => i,
        Device::Regulator(t) => regulated(t, i),
        Device::Transformer(t) => current_through(t, i),
    }
}

// D, with I at the far end.
pub fn drop_of(d: Device, i: Three) -> Three
    requires device_ok { DeviceOk d }
    requires within3 { Within3 2000000 i }
    ensures { result ≡ drop_of d i }
{
    match d {
        Device::Line(z) => line_drop(z, i),
        Device::Regulator(_) => {
            let z = Pair { re: 0, im: 0 };
            Three { a: z, b: z, c: z }
        }
        Device::Transformer(t) => winding_drop(t, i),
    }
}

// V at the far end, from V at the near end and I at the far end.
pub fn far_voltage(b: Branch, u: Three, i: Three) -> Three
    requires device_ok { DeviceOk b.device }
    requires within3 { Within3 2100000 u }
    requires within3_2 { Within3 2000000 i }
    ensures { result ≡ far_voltage b u i }
{
    let d = b.device;
    let v = through(d, u);
    let e = drop_of(d, i);
    let w = threes::minus(v, e);
    threes::keep(b.phases, w)
}

// J at the near end, from I at the far end.
pub fn near_current(b: Branch, i: Three) -> Three
    requires device_ok { DeviceOk b.device }
    requires within3 { Within3 2000000 i }
    ensures { result ≡ near_current b i }
{
    let d = b.device;
    let j = taken(d, i);
    threes::keep(b.phases, j)
}

// The sum over the phases of x·conj(y): a drop with its current, or the source's voltage with all current taken there.
pub fn power(x: Three, y: Three) -> Pair
    requires within3 { Within3 200000000 x }
    requires within3_2 { Within3 2000000000 y }
    ensures { result ≡ power x y }
{
    threes::total(x.zip(y, pairs::mul_conj))
}

pub fn loss(d: Device, i: Three) -> Pair
    requires device_ok { DeviceOk d }
    requires within3 { Within3 2000000 i }
    ensures { result ≡ power (drop_of d i) i }
{
    let e = drop_of(d, i);
    power(e, i)
}
