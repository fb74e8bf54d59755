// How many bytes each of the report's lines takes.
// Apart from the writers of lines.rt: one function for both would need a sink that counts or writes, a trait with contracts of its own, which is no plainer.
ghost use Rattle.std.specs.Prelude.{◌≡◌, ◌<◌, length};
ghost use Rattle.report_lines.specs.Lines.{branch_row, node_row, pair_fields, tap_row, three_fields, totals_row};

use crate::Figures;
use feeder::{Taps, Three};
use integers::Pair;
use text::write::{name_width, number_width};

fn pair_width(x: Pair) -> usize
    ensures { result ≡ length (pair_fields x) }
{
    let re = number_width(x.re);
    let im = number_width(x.im);
    re + im + 2
}

fn three_width(x: Three) -> usize
    ensures { result ≡ length (three_fields x) }
{
    let a = pair_width(x.a);
    let b = pair_width(x.b);
    let c = pair_width(x.c);
    a + b + c
}

pub fn node_width(name: u64, v: Three) -> usize
    ensures { result ≡ length (node_row name v) }
{
    let letters = name_width(name);
    let voltages = three_width(v);
    letters + voltages + 1
}

pub fn branch_width(from: u64, to: u64, i: Three, loss: Pair) -> usize
    ensures { result ≡ length (branch_row from to i loss) }
{
    let upper = name_width(from);
    let lower = name_width(to);
    let currents = three_width(i);
    let powers = pair_width(loss);
    upper + lower + currents + powers + 2
}

pub fn totals_line_width(figures: Figures) -> usize
    ensures { result ≡ length (totals_row figures) }
{
    let sweeps = number_width(figures.sweeps as i64);
    let source = pair_width(figures.source);
    let drawn = pair_width(figures.drawn);
    let lost = pair_width(figures.lost);
    sweeps + source + drawn + lost + 1
}

pub fn tap_row_width(name: u64, taps: Taps) -> usize
    ensures { result ≡ length (tap_row name taps) }
{
    let letters = name_width(name);
    let a = number_width(taps.a);
    let b = number_width(taps.b);
    let c = number_width(taps.c);
    letters + a + b + c + 4
}
