// Every feeder file is met: a feeder in memory, or the one refusal from 9 to 24 that document 01 names. Each function below goes on where the
// one before it found nothing to refuse; crates/feeder/specs/Stages.antt has the definition in the same steps.
#![tactic(auto)]

ghost use Rattle.std.specs.Prelude.{◌≡◌, ℕ, ◌≤◌, get_or, replicate};
ghost use Rattle.feeder.specs.Feeder.{no_branch, reading};
ghost use Rattle.feeder.specs.Layout.{Rows};
ghost use Rattle.feeder.specs.Network.{Tabled, no_load};
ghost use Rattle.feeder.specs.Stages.{from20, from22, from23};
ghost use Rattle.reading.specs.Reading.{Arranged, Numbered, ReadAs, ReadInto, ReadPoints, ReadTold, Stored};

use answers::Refusal;
use feeder::{Network, Tables, three_at};
use integers::whole;
use limits::{first_not_zero, first_out};
use names::faults::{first_phase_absent, first_second_to, first_unknown_from};
use names::{name_nodes, number_branches, number_loads_among, slots_of};
use radial::{first_not_reached, order_of};
use tables::read_layout;

// 23 and 24, and the feeder where nothing is refused.
fn read_phases(tables: &Tables, network: &Network) -> Result<(), Refusal>
    requires rows_bound { tables.now.rows ≤ 200 }
    requires by_index { (k : ℕ) → (get_or network.now.branches k no_branch).from ≤ network.now.rows }
    requires arranged { Arranged network.now }
    ensures { (r : Rows) → Tabled r tables.now → Numbered r network.now → ReadInto (from23 r) result network.now }
{
    if let Some(line) = first_phase_absent(network) {
        return Err(Refusal::PhaseAbsent(line));
    }
    if let Some(line) = first_not_zero(tables) {
        return Err(Refusal::NotZero(line));
    }
    Ok(())
}

// 22: the order of work.
fn read_reached(tables: &Tables, network: &mut Network) -> Result<(), Refusal>
    requires rows_bound { tables.now.rows ≤ 200 }
    requires by_index { (k : ℕ) → (get_or network.old.branches k no_branch).from ≤ network.old.rows }
    ensures { (r : Rows) → Tabled r tables.now → Numbered r network.old → ReadInto (from22 r) result network.new }
{
    let order = order_of(network);
    if let Some(line) = first_not_reached(network, &order) {
        return Err(Refusal::NotReached(line));
    }
    network.order = order.order;
    network.rank = order.rank;
    read_phases(tables, network)
}

// 20 and 21: the branches and the loads by node numbers.
fn read_names(tables: &Tables, network: &mut Network) -> Result<(), Refusal>
    requires stored { Stored tables.now }
    requires nodes_value { network.old.nodes ≡ replicate 201 0 }
    requires branches_value { network.old.branches ≡ replicate 201 no_branch }
    requires loads_value { network.old.loads ≡ replicate 300 no_load }
    ensures { (r : Rows) → Tabled r tables.now → ReadInto (from20 r) result network.new }
{
    network.source = three_at(&tables.given, 1);
    network.tol = whole::size(tables.given[6]);
    network.limit = whole::size(tables.given[7]) as usize;
    network.rows = tables.rows;
    network.count = tables.count;
    name_nodes(tables, &mut network.nodes);
    let slots = slots_of(&network.nodes, tables.rows + 1);
    number_branches(tables, &network.nodes, &slots, &mut network.branches);
    number_loads_among(
        tables,
        &network.nodes,
        tables.rows + 1,
        &slots,
        &mut network.loads,
    );
    if let Some(line) = first_unknown_from(network) {
        return Err(Refusal::UnknownFrom(line));
    }
    if let Some(line) = first_second_to(network, &slots) {
        return Err(Refusal::SecondTo(line));
    }
    read_reached(tables, network)
}

// The feeder that a file holds into a network with no node, branch or load, or the refusal that is the lowest of those that apply anywhere in the file.
// Never a part of its caller: the stack that the tables take is free again when the feeder is worked with.
#[inline(never)]
pub fn read_into(file: &[u8], network: &mut Network) -> Result<(), Refusal>
    requires nodes_value { network.old.nodes ≡ replicate 201 0 }
    requires branches_value { network.old.branches ≡ replicate 201 no_branch }
    requires loads_value { network.old.loads ≡ replicate 300 no_load }
    ensures { ReadInto (reading file.now) result network.new }
{
    let long = 65536 < file.len();
    if long {
        return Err(Refusal::TooLong);
    }
    let mut tables = Tables::empty();
    read_layout(file, &mut tables)?;
    if let Some(line) = first_out(&tables) {
        return Err(Refusal::OutOfLimit(line));
    }
    read_names(&tables, network)
}

// The feeder that a file holds, as one value.
pub fn read_feeder(file: &[u8]) -> Result<Network, Refusal>
    ensures answer { ReadAs (reading file.now) result }
    ensures told { ReadTold (reading file.now) result }
    ensures first { ReadPoints file.now result }
{
    let mut network = Network::empty();
    read_into(file, &mut network)?;
    Ok(network)
}
