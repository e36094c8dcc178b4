ghost use Rattle.std.specs.Prelude.{◌+◌, ◌≤◌};
ghost use Rattle.frames.specs.Table.{frame as frame_at};
ghost use Rattle.pool.specs.Tied.{Tied, Tied-prop};

use device::Device;
use frames::Frames;
use policy::Policy;

// A buffer pool over a device, under a policy that says which page leaves when a frame is needed. It
// is not to be let go: a pool is closed, and hands its device out.
pub struct Pool<D: Device, P: Policy> {
    pub(crate) device: D,
    pub(crate) policy: P,
    pub(crate) frames: Frames,
    pub(crate) mark: u32,
    pub(crate) clock: u32,
    pub(crate) hits: u32,
    pub(crate) fetches: u32,
    pub ghost tied: { Tied frames.used (frame_at frames) (D.Device.row device) (P.Policy.resident (P.Policy.model policy)) (P.Policy.size (P.Policy.model policy)) } by { Tied-prop frames.used (frame_at frames) (D.Device.row device) (P.Policy.resident (P.Policy.model policy)) (P.Policy.size (P.Policy.model policy)) },
    pub ghost counts: { hits + fetches ≤ clock },
}
