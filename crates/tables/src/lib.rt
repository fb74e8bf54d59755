// The feeder's three tables, read from its file. specs/Read.antt says what each reader answers.
#![tactic(auto)]

ghost use Rattle.std.specs.Prelude.{Bool, false, true, ◌≡◌, List, ◌++◌, ◌∷◌, [], ℕ, ◌+◌, ◌<◌, ◌≤◌, ◌^◌, length, replicate, IfOk, Some};
ghost use Rattle.answers.specs.Answers.{Outcome};
ghost use Rattle.answers.specs.declared.Refusal.{Refusal};
ghost use Rattle.feeder.specs.Layout.{layout, rows};
ghost use Rattle.feeder.specs.Network.{kept, no_branch_row, no_load_row};
ghost use Rattle.tables.specs.Read.{LayoutRead, Reads, RowsRead};
ghost use Rattle.text.specs.Text.{Placed};

use crate::branches::read_branches;
use crate::loads::read_loads;
use crate::source::read_source;
use answers::Refusal;
use feeder::Tables;
use text::Placed;

pub mod branches;
pub mod loads;
pub mod source;

// One row more behind the n that were stored, if it finds a place.
#[tactic(auto, using(feeder::specs::NetworkLaws::kept_full, feeder::specs::NetworkLaws::kept_next))]
fn store<X: Copy, const N: usize>(n: usize, row: X, rows: &mut [X; N])
    ensures { (d : X) (l : List X) → n ≡ length l → rows.old ≡ kept d N l → rows.new ≡ kept d N (l ++ (row ∷ [])) }
{
    if n < N {
        rows[n] = row;
    }
}

// The number of a table's rows, from a place on that stands in a line, up to the table's end, and the place where it ends. Those that find no place are read
// and counted, and not kept. A row's reader and the test of the end are given with the part of the file and a place.
fn read_rows<
    X: Copy,
    const N: usize,
    R: Fn(&[u8], usize) -> Option<Placed<X>>,
    E: Fn(&[u8], usize) -> bool,
>(
    part: &[u8],
    line: usize,
    from: usize,
    read: R,
    ends: E,
    table: &mut [X; N],
) -> Result<Placed<usize>, Refusal>
    requires reach { (0 < from) × (from ≤ length part.now) × (line + length part.now ≤ 2 ^ 64) }
    requires read { R.IsAlwaysCallable read }
    requires ends { E.IsAlwaysCallable ends }
    requires past { (at : ℕ) (x : X) (n : ℕ) → at ≤ length part.now → R.post read part at (Some (x, n)) → (at < n) × (n ≤ length part.now) }
    ensures value { (row : Refusal → List ℕ → ℕ → Outcome (Placed X)) (over : ℕ → Bool) (d : X) →
        Reads row over part.now (R.post read) (E.post ends) →
        table.old ≡ replicate N d →
        RowsRead d N (rows row (length part.now) part.now line from over) result table.new }
    ensures end { IfOk result (λ x. (x.0 + from ≤ x.1) × (x.1 ≤ length part.now) × E.post ends part.entry x.1 true) }
{
    let mut at = from;
    let mut n = 0;
    // A while, since the number of rows shows only at the table's end.
    while !ends(part, at) {
        let Some((row, next)) = read(part, at) else {
            return Err(Refusal::Layout(line + n));
        };
        store(n, row, table);
        at = next;
        n += 1;
    }
    Ok((n, at))
}

// The tables of a file, or refusal 10 with the first line that cannot go on a good file. Rows past 200 or 300 are counted, and not kept.
// The numbers are cleared first, so that after a refusal too they are of rows that this file has.
pub fn read_layout(file: &[u8], tables: &mut Tables) -> Result<(), Refusal>
    requires branches { tables.old.branches ≡ replicate 200 no_branch_row }
    requires loads { tables.old.loads ≡ replicate 300 no_load_row }
    ensures value { LayoutRead (layout file.now) result tables.new }
    ensures few { tables.new.rows + tables.new.count ≤ length file.now }
{
    tables.rows = 0;
    tables.count = 0;
    let (source, p) = read_source(file)?;
    let given = source.given;
    tables.source = source.name;
    tables.given = given;
    let part = &file[p..];
    let (rows, q) = read_branches(part, &mut tables.branches)?;
    tables.rows = rows;
    tables.count = read_loads(&part[q..], rows + 6, &mut tables.loads)?;
    Ok(())
}
