// Load rows: the current that a row draws at a voltage, and its power. specs/Loads.antt says what is drawn.
#![tactic(auto)]

ghost use Rattle.std.specs.Prelude.{◌≡◌, false, ◌≤◌, nat_abs};
ghost use Rattle.integers.specs.Pairs.{◌·*◌, rnd_pair, scaled};
ghost use Rattle.integers.specs.PairLaws.{Within};
ghost use Rattle.equations.specs.Equations.{acts_as, each, mix, rated, sign_at, weight};
ghost use Rattle.equations.specs.Sizes.{Within3};
ghost use Rattle.equations.specs.Limits.{LoadOk};
ghost use Rattle.feeder.specs.Feeder.{phase_signs};
ghost use Rattle.loads.specs.Loads.{drawn_by, lacks_voltage};

use devices::threes;
use feeder::{Load, LoadKind, Three, signs_of};
use integers::{Pair, pairs, whole};

// Why a load row draws nothing: document 01's refusals 30 and 31. An error enum, the Err of a Result, and not of the shape of Option: it says which of the two.
#[derive(Clone, Copy, PartialEq, Eq)]
pub enum LoadError {
    ZeroVoltage,
    Beyond,
}

// voltage_on and spread are alike but for what they do with the signs, and the promise: the one makes one voltage of three, the other three currents of one.

// The voltage at which the row stands: its phase's, or the first phase's minus the second's.
pub fn voltage_on(l: Load, v: Three) -> Pair
    requires { Within3 2000000 v }
    ensures { result ≡ mix (phase_signs l.phase) v }
{
    let phase = l.phase;
    let s = signs_of(phase);
    threes::mix(s, v)
}

// What counts of the row's current into each phase: all of it, or all into the first and with the sign changed into the second.
pub fn spread(l: Load, i: Pair) -> Three
    requires { Within 2000000 i }
    ensures { result ≡ each (λ p. scaled (sign_at (phase_signs l.phase) p) i) }
{
    let phase = l.phase;
    let s = signs_of(phase);
    threes::spread(s, i)
}

// The matches on a kind in weigh, acts_as and lacks_voltage: each arm gives a value of the subject, and none is a step to run.

// w, by which conj(S)·V is divided.
fn weigh(kind: LoadKind, vn: i64, u: Pair) -> u64
    requires vn_bound { nat_abs vn ≤ 4000000 }
    requires within { Within 4000000 u }
    ensures { result ≡ weight kind vn u }
{
    match kind {
        LoadKind::Power => pairs::square(u),
        LoadKind::Current => {
            let n = pairs::square(u);
            let m = whole::root(n).root;
            let k = whole::size(vn);
            m * k
        }
        LoadKind::Impedance => {
            let k = whole::size(vn);
            k * k
        }
    }
}

// The kind as which a row acts at the voltage u: constant power below 70 per cent of vn acts as an impedance.
fn acts_as(kind: LoadKind, vn: i64, u: Pair) -> LoadKind
    requires vn_bound { nat_abs vn ≤ 4000000 }
    requires within { Within 4000000 u }
    ensures { result ≡ acts_as kind vn u }
{
    match kind {
        LoadKind::Power => {
            let n = pairs::square(u);
            let k = whole::size(vn);
            if 100 * n < 49 * (k * k) {
                LoadKind::Impedance
            } else {
                LoadKind::Power
            }
        }
        LoadKind::Current | LoadKind::Impedance => kind,
    }
}

// Whether a row that acts as this kind needs a voltage and has none.
fn lacks_voltage(kind: LoadKind, u: Pair) -> bool
    ensures { result ≡ lacks_voltage kind u }
{
    match kind {
        LoadKind::Power | LoadKind::Current => pairs::within(u, 0),
        LoadKind::Impedance => false,
    }
}

// conj(S)·V / w, rounded, of a row that acts as this kind.
fn current_at(l: Load, kind: LoadKind, u: Pair) -> Pair
    requires load_ok { LoadOk l }
    requires within { Within 4000000 u }
    requires u_value { lacks_voltage kind u ≡ false }
    ensures { result ≡ rnd_pair (u ·* rated l) (weight kind l.vn u) }
{
    let w = weigh(kind, l.vn, u);
    let s = pairs::scale(100000, l.s);
    let n = pairs::mul_conj(u, s);
    pairs::round(n, w)
}

fn drawn_by(l: Load, u: Pair) -> Result<Pair, LoadError>
    requires load_ok { LoadOk l }
    requires within { Within 4000000 u }
    ensures { result ≡ drawn_by l u }
{
    let own = l.kind;
    let kind = acts_as(own, l.vn, u);
    if lacks_voltage(kind, u) {
        return Err(LoadError::ZeroVoltage);
    }
    let i = current_at(l, kind, u);
    if pairs::within(i, 2000000) {
        Ok(i)
    } else {
        Err(LoadError::Beyond)
    }
}

// What the row draws at the voltages v of its node.
pub fn load_current(l: Load, v: Three) -> Result<Pair, LoadError>
    requires load_ok { LoadOk l }
    requires within3 { Within3 2000000 v }
    ensures { result ≡ drawn_by l (mix (phase_signs l.phase) v) }
{
    let u = voltage_on(l, v);
    drawn_by(l, u)
}

// V·conj(I) of the row, with I as it draws.
pub fn load_power(l: Load, v: Three, i: Pair) -> Pair
    requires within3 { Within3 2000000 v }
    requires within { Within 2000000 i }
    ensures { result ≡ mix (phase_signs l.phase) v ·* i }
{
    let u = voltage_on(l, v);
    pairs::mul_conj(u, i)
}
