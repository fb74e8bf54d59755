// Writers of the report's lines. Each writes from place `at` on and answers the place behind.
ghost use Rattle.std.specs.Prelude.{◌+◌, ◌<◌, ◌≤◌, ◌∷◌, length};
ghost use Rattle.report_lines.specs.Lines.{branch_row, node_row, pair_fields, tap_row, three_fields, totals_row};
ghost use Rattle.text.specs.Promises.{Written};
ghost use Rattle.text.specs.Text.{decimal};

use crate::Figures;
use feeder::{Taps, Three};
use integers::Pair;
use text::write::{put_byte, put_name, put_number};

// All of them write by hand, as nothing is on the heap and each byte of the buffer is promised: Display and write! promise no bytes of a buffer that is lent.
// They take the whole buffer and the place `at`, as those of crate text do: a slice that is cut at each field would have to be put together again in each
// promise.

// A comma, and a number.
fn put_field(out: &mut [u8], at: usize, z: i64) -> usize
    requires { at + length (44 ∷ decimal z) ≤ length out.old }
    ensures { Written out.old at (44 ∷ decimal z) result out.new }
{
    let p = put_byte(out, at, b',');
    put_number(out, p, z)
}

fn put_pair(out: &mut [u8], at: usize, x: Pair) -> usize
    requires { at + length (pair_fields x) ≤ length out.old }
    ensures { Written out.old at (pair_fields x) result out.new }
{
    let p = put_field(out, at, x.re);
    put_field(out, p, x.im)
}

fn put_three(out: &mut [u8], at: usize, x: Three) -> usize
    requires { at + length (three_fields x) ≤ length out.old }
    ensures { Written out.old at (three_fields x) result out.new }
{
    let p = put_pair(out, at, x.a);
    let q = put_pair(out, p, x.b);
    put_pair(out, q, x.c)
}

// A node's name and voltages.
pub fn put_node(out: &mut [u8], at: usize, name: u64, v: Three) -> usize
    requires { at + length (node_row name v) ≤ length out.old }
    ensures { Written out.old at (node_row name v) result out.new }
{
    let p = put_name(out, at, name);
    let q = put_three(out, p, v);
    put_byte(out, q, b'\n')
}

// A branch's from-name and to-name, currents and loss.
pub fn put_branch(out: &mut [u8], at: usize, from: u64, to: u64, i: Three, loss: Pair) -> usize
    requires { at + length (branch_row from to i loss) ≤ length out.old }
    ensures { Written out.old at (branch_row from to i loss) result out.new }
{
    let p = put_name(out, at, from);
    let q = put_byte(out, p, b',');
    let r = put_name(out, q, to);
    let s = put_three(out, r, i);
    let t = put_pair(out, s, loss);
    put_byte(out, t, b'\n')
}

// The sweeps and the three powers.
pub fn put_totals_line(out: &mut [u8], at: usize, figures: Figures) -> usize
    requires { at + length (totals_row figures) ≤ length out.old }
    ensures { Written out.old at (totals_row figures) result out.new }
{
    let p = put_number(out, at, figures.sweeps as i64);
    let q = put_pair(out, p, figures.source);
    let s = put_pair(out, q, figures.drawn);
    let t = put_pair(out, s, figures.lost);
    put_byte(out, t, b'\n')
}

// A regulator's to-name and taps.
pub fn put_tap_row(out: &mut [u8], at: usize, name: u64, taps: Taps) -> usize
    requires { at + length (tap_row name taps) ≤ length out.old }
    ensures { Written out.old at (tap_row name taps) result out.new }
{
    let p = put_name(out, at, name);
    let q = put_field(out, p, taps.a);
    let r = put_field(out, q, taps.b);
    let s = put_field(out, r, taps.c);
    put_byte(out, s, b'\n')
}
