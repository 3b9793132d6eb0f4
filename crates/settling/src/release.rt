// Releasing an object: its shares go back to their constraints, and it has no room.
ghost use Rattle.std.specs.Prelude.{◌<◌};
ghost use Rattle.limits.specs.Limits.{most_objects};
ghost use Rattle.settling.specs.Release.{Released};

use routes::chains::Chains;
use routes::search::Sharing;

pub fn release(chains: &Chains, v: usize, sharing: &mut Sharing)
    requires { v < most_objects }
    ensures { Released chains.now.constraints v chains.now.ends sharing.old sharing.new }
{
    for k in chains.places(v) {
        sharing.shares[k] = 0;
    }
    sharing.room[v] = 0;
}
