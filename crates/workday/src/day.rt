use crate::problem::Problem;
use crate::session::Session;
use crate::settings::Settings;
use device::Device;
use lru_two::LruTwo;
use policy::Policy;
use stock::Layout;
use two_q::TwoQ;

// Volume and layout go on together to the session that holds both.

// Does the commands of the standard input through a pool over a volume, and closes the pool.
fn through<D: Device + Drop, P: Policy + Drop>(
    rt: &HostRuntime,
    volume: D,
    policy: P,
    layout: Layout,
) -> Result<bool, Problem> {
    let mut session = Session::open(volume, policy, layout);
    let answer = session.serve(rt);
    let _ = session.close();
    answer
}

// Works a volume under the policy of the settings. Answers whether a record was altered.
pub(crate) fn work<D: Device + Drop>(
    rt: &HostRuntime,
    settings: Settings,
    volume: D,
    layout: Layout,
) -> Result<bool, Problem> {
    match settings {
        Settings::TwoQ(frames) => through(rt, volume, TwoQ::new(frames), layout),
        Settings::LruTwo(frames, crp) => through(rt, volume, LruTwo::new(frames, crp), layout),
    }
}
