// The order of work of a radial feeder: each node after the one that feeds it. specs/Radial.antt says what an order is, Reach.antt and First.antt what it tells.
#![tactic(auto)]

ghost use Rattle.std.specs.Prelude.{◌≡◌, ◌+◌, ◌<◌};
ghost use Rattle.radial.specs.Radial.{InOrder, Linked, Passed, Placed, Stepped, first_lost};

use feeder::Network;

// The nodes stand in `order` in an order in which each comes after the one that feeds it: `len` of them are placed. rank[k] is node k's place in it, counted
// from 1, or 0 where node k is not reached.
#[derive(Clone, Copy)]
pub struct Order {
    pub len: usize,
    pub order: [usize; 201],
    pub rank: [usize; 201],
}

// Node k gets the next place, where it has none and its from-node has one.
fn place(network: &Network, k: usize, to: &mut Order)
    requires k_bound { k < network.now.rows + 1 }
    requires placed { Placed network.now.branches network.now.rows to.old }
    ensures { Stepped network.now.branches network.now.rows k to.old to.new }
{
    let above = network.branches[k].from;
    if to.rank[k] == 0 && to.rank[above] != 0 {
        to.order[to.len] = k;
        to.len += 1;
        to.rank[k] = to.len;
    }
}

// Places a node, and before it the nodes above it that have no place. A node that was met before is not gone over again: it has a place, or its way up does
// not come to the source.
fn place_with_above(network: &Network, node: usize, met: &mut [bool; 201], to: &mut Order)
    requires node_bound { node < network.now.rows + 1 }
    requires placed { Placed network.now.branches network.now.rows to.old }
    ensures { Placed network.now.branches network.now.rows to.new }
{
    if met[node] {
        return;
    }
    met[node] = true;
    let above = network.branches[node].from;
    place_with_above(network, above, met, to);
    place(network, node, to);
}

// Every node with those above it. Each node is gone over once, so the time grows with the number of rows, in whatever order they stand.
fn climb(network: &Network, to: &mut Order)
    requires { Placed network.now.branches network.now.rows to.old }
    ensures { Placed network.now.branches network.now.rows to.new }
{
    let mut met = [false; 201];
    met[0] = true;
    for node in 1..network.rows + 1 {
        place_with_above(network, node, &mut met, to);
    }
}

// One pass over the rows: each that has no place yet, and whose from-node has one, gets the next.
fn pass(network: &Network, to: &mut Order)
    requires { Placed network.now.branches network.now.rows to.old }
    ensures { Passed network.now.branches network.now.rows to.old to.new }
{
    for k in 1..network.rows + 1 {
        place(network, k, to);
    }
}

// The climb, and passes over the rows until all are placed or a pass places none. The climb leaves a row only where the source does not reach it, and the
// pass behind it then shows that there is none to place.
pub fn order_of(network: &Network) -> Order
    requires { Linked network.now.branches network.now.rows }
    ensures { InOrder network.now.branches network.now.rows result }
{
    let mut to = Order {
        len: 1,
        order: [0; 201],
        rank: [0; 201],
    };
    to.rank[0] = 1;
    climb(network, &mut to);
    // A while, since it ends where a pass places none, and not after a number of turns.
    while to.len <= network.rows {
        let before = to.len;
        pass(network, &mut to);
        if to.len == before {
            break;
        }
    }
    to
}

// The line of the first row that the source does not reach: refusal 22. The ranks tell it; the branches stand in the promise only.
pub fn first_not_reached(network: &Network, order: &Order) -> Option<usize>
    requires { InOrder network.now.branches network.now.rows order.now }
    ensures { result ≡ first_lost network.now.branches network.now.rows }
{
    for i in 1..network.rows + 1 {
        if order.rank[i] == 0 {
            return Some(4 + i);
        }
    }
    None
}
