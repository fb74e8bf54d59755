// The line of a load row that is out of its limit, by the layout that docs/FORMAT.md gives: with two branch rows the first load row is the file's ninth line.
use super::*;

#[test]
fn the_second_load_row_stands_in_line_10(rt: HostRuntime) {
    let mut tables = Tables::empty();
    tables.rows = 2;
    assert_eq!(rt; first_load_out(&tables), None, "no load row");
    tables.count = 2;
    tables.loads[0].vn = 240_000;
    assert_eq!(rt; first_load_out(&tables), Some(10), "a vn of 0");
    assert_eq!(rt;
        first_load_out_behind(&tables, 8),
        Some(10),
        "behind line 8"
    );
    tables.loads[1].vn = 240_000;
    assert_eq!(rt; first_load_out(&tables), None, "both in their limits");
}
