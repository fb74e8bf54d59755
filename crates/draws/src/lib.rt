// What the load rows draw at given voltages. specs/Draws.antt says what that is.
#![tactic(auto)]

ghost use Rattle.std.specs.Prelude.{◌≡◌, length, replicate};
ghost use Rattle.feeder.specs.Feeder.{Feeder};
ghost use Rattle.feeder.specs.Network.{load_array};
ghost use Rattle.equations.specs.Equations.{zero3};
ghost use Rattle.draws.specs.Draws.{DrawsOf, LoadsOk, SmallDraws};

use arrays::Threes;
use devices::threes;
use feeder::Network;
use integers::{Pair, pairs};
use loads::LoadError;

// What the load rows draw at the voltages v: `own`, zero at all places, becomes the current drawn at each node, and the power drawn is returned.
// 30 of any row comes before 31 of any row. After a refusal `own` has the currents of some rows alone.
pub fn draw(network: &Network, v: &Threes, own: &mut Threes) -> Result<Pair, LoadError>
    requires loads_ok { LoadsOk network.now.loads network.now.count v.now }
    requires own_value { own.old ≡ replicate 201 zero3 }
    ensures value { (f : Feeder) → network.now.loads ≡ load_array f → network.now.count ≡ length f.loads → DrawsOf f v.now result own.new }
    ensures size { SmallDraws result own.new }
{
    let mut drawn = Pair { re: 0, im: 0 };
    let mut beyond = false;
    for l in 0..network.count {
        let load = network.loads[l];
        let node = load.node;
        let u = v[node];
        match loads::load_current(load, u) {
            Ok(i) => {
                let more = loads::spread(load, i);
                own[node] = threes::plus(own[node], more);
                let power = loads::load_power(load, u, i);
                drawn = pairs::add(drawn, power);
            }
            Err(LoadError::Beyond) => beyond = true,
            Err(LoadError::ZeroVoltage) => return Err(LoadError::ZeroVoltage),
        }
    }
    if beyond {
        Err(LoadError::Beyond)
    } else {
        Ok(drawn)
    }
}
