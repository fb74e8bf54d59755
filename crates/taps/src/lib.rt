// Regulators that set their taps: the relay voltage, what a phase wants, and the taps after a move. Crate equations, specs/Taps.antt, says each of them.
#![tactic(auto)]

ghost use Rattle.std.specs.Prelude.{◌≡◌, ◌≤◌, nat_abs, cond};
ghost use Rattle.std.specs.Int.{w64};
ghost use Rattle.std.proofs.Common.{SFits};
ghost use Rattle.equations.specs.Limits.{ChangerOk, RelayOk};
ghost use Rattle.equations.specs.Sizes.{Within3};
ghost use Rattle.equations.specs.Taps.{moved_tap, moved_taps, relay_voltage, same_taps, stepped, wants_down, wants_up};
ghost use Rattle.integers.specs.PairLaws.{Within};
ghost use Rattle.taps.specs.Seen.{Seen};

use feeder::{Phases, TapChanger, Taps, Three};
use integers::{Pair, pairs, whole};

// What the relay sees of a phase: the voltage by its ratio, less the drop on the compensator's impedance.
fn relay_voltage(x: TapChanger, u: Pair, i: Pair) -> Pair
    requires relay_ok { RelayOk x }
    requires within { Within 2000000 u }
    requires within_2 { Within 2000000 i }
    ensures { result ≡ relay_voltage x u i }
{
    let potential = whole::size(x.potential);
    let seen = pairs::round(u, potential);
    let current = whole::size(x.current);
    let z = x.z;
    let drop = pairs::mul(z, i);
    let less = pairs::round(drop, current * 10_000_000);
    pairs::sub(seen, less)
}

// Whether 4·(re² + im²) is below (2·level - band)², the bracket not being negative.
fn wants_up(x: TapChanger, r: Pair) -> bool
    requires { Seen x r }
    ensures { result ≡ wants_up x r }
{
    let twice = whole::mul(2, x.level);
    let bracket = whole::sub(twice, x.band);
    let negative = bracket < 0;
    if negative {
        return false;
    }
    let m = pairs::square(r);
    let k = whole::size(bracket);
    4 * m < k * k
}

// Whether it is above (2·level + band)².
fn wants_down(x: TapChanger, r: Pair) -> bool
    requires { Seen x r }
    ensures { result ≡ wants_down x r }
{
    let twice = whole::mul(2, x.level);
    let bracket = whole::add(twice, x.band);
    let m = pairs::square(r);
    let k = whole::size(bracket);
    k * k < 4 * m
}

// A tap after a step, or as it was where it cannot move.
fn stepped(step: i64, tap: i64) -> i64
    requires step_bound { nat_abs step ≤ 1 }
    requires tap_bound { nat_abs tap ≤ 16 }
    ensures value { result ≡ stepped step tap }
    ensures fits { SFits w64 result }
{
    let t = whole::add(tap, step);
    if whole::inside(t, 16) { t } else { tap }
}

// A tap after a move, where the relay sees r.
fn moved_tap(x: TapChanger, r: Pair, tap: i64) -> i64
    requires seen { Seen x r }
    requires tap_bound { nat_abs tap ≤ 16 }
    ensures value { result ≡ moved_tap x r tap }
    ensures fits { SFits w64 result }
{
    if wants_up(x, r) {
        return stepped(1, tap);
    }
    if wants_down(x, r) {
        return stepped(-1, tap);
    }
    tap
}

// One phase: a tap moves only where the phase is present.
fn phase_tap(present: bool, x: TapChanger, u: Pair, i: Pair, tap: i64) -> i64
    requires level_bound { nat_abs x.level ≤ 20000 }
    requires relay_ok { RelayOk x }
    requires within { Within 2000000 u }
    requires within_2 { Within 2000000 i }
    requires tap_bound { nat_abs tap ≤ 16 }
    ensures value { result ≡ cond present (moved_tap x (relay_voltage x u i) tap) tap }
    ensures fits { SFits w64 result }
{
    if !present {
        return tap;
    }
    let r = relay_voltage(x, u, i);
    moved_tap(x, r, tap)
}

// Three calls and no zip: zip joins two things of a phase, and here are four: whether the phase is present, its voltage, its current and its tap.
//
// A regulator's taps after a move: those of its present phases, and none where its level is 0.
pub fn moved_taps(x: TapChanger, f: Phases, u: Three, i: Three) -> Taps
    requires changer_ok { ChangerOk x }
    requires within3 { Within3 2000000 u }
    requires within3_2 { Within3 2000000 i }
    ensures { result ≡ moved_taps x f u i }
{
    let t = x.taps;
    if whole::inside(x.level, 0) {
        return t;
    }
    let a = phase_tap(f.a, x, u.a, i.a, t.a);
    let b = phase_tap(f.b, x, u.b, i.b, t.b);
    let c = phase_tap(f.c, x, u.c, i.c, t.c);
    Taps { a, b, c }
}

// Whether all three taps are the same. It is t == u by the definition's name, which crate compare cites.
pub fn same_taps(t: Taps, u: Taps) -> bool
    ensures { result ≡ same_taps t u }
{
    t == u
}
