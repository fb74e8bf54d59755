// The report against the solution in floats.
use arrays::Threes;
use floats::phasor::{Phasor, PhasorRows, Phasors, larger};
use floats::solver::place;

// The largest distance in re or im, and the largest share of its bound that a distance has, each over all rows and phases.
#[derive(Clone, Copy)]
pub struct Compared {
    pub distance: f64,
    pub share: f64,
}

fn compare_phase(c: Compared, solved: Phasor, reported: Phasor, bound: f64) -> Compared {
    let d = solved.distance(reported);
    let share = if d <= 0.0 { 0.0 } else { d / bound };
    Compared {
        distance: larger(c.distance, d),
        share: larger(c.share, share),
    }
}

fn compare_row(
    c: Compared,
    solved: Phasors,
    reported: Phasors,
    bounds: Phasors,
    moved: f64,
) -> Compared {
    let bound = bounds.map(|bound| bound.re + moved);
    let a = compare_phase(c, solved.a, reported.a, bound.a);
    let b = compare_phase(a, solved.b, reported.b, bound.b);
    compare_phase(b, solved.c, reported.c, bound.c)
}

// Voltages or currents, by node numbers. `moved` is added to each bound.
pub fn compare(
    rows: usize,
    solved: &PhasorRows,
    reported: &Threes,
    bounds: &PhasorRows,
    moved: f64,
) -> Compared {
    let mut c = Compared {
        distance: 0.0,
        share: 0.0,
    };
    for k in 1..place(rows) + 1 {
        let y = reported[k].map(Phasor::from);
        c = compare_row(c, solved[k], y, bounds[k], moved);
    }
    c
}
