// The loads of a feeder with the nodes 0, 1 and 2, by hand. A name that no node has gets the number behind the last node's.
use super::*;
use feeder::Network;

#[test]
fn a_load_gets_the_number_of_its_node(rt: HostRuntime) {
    let mut tables = Tables::empty();
    tables.source = 70;
    tables.rows = 2;
    tables.branches[0].to = 80;
    tables.branches[1].to = 90;
    tables.count = 4;
    tables.loads[0].node = 90;
    tables.loads[1].node = 80;
    tables.loads[2].node = 70;
    tables.loads[3].node = 60;
    let mut nodes = [0; 201];
    name_nodes(&tables, &mut nodes);
    let slots = slots_of(&nodes, 3);
    let mut loads = Network::empty().loads;
    number_loads(&tables, &nodes, &slots, &mut loads);
    for (row, node) in [(0, 2), (1, 1), (2, 0), (3, 3)] {
        assert_eq!(rt; loads[row].node, node, "of load row {row}");
    }
}
