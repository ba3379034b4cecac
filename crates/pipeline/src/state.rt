// The state of the pipeline.
ghost use Rattle.std.specs.Prelude.{◌≡◌};
ghost use Rattle.pipeline.specs.Step.{core_start};

use window::datapath::Datapath;

// The datapath, and whose turn it is at the request port: after a load it is a waiting store's.
#[derive(Clone, Copy)]
pub struct Core {
    pub path: Datapath,
    pub turn: bool,
}

impl Core {
    // Nothing has happened yet.
    pub fn start(address: u32) -> Core
        ensures { result ≡ core_start address }
    {
        Core {
            path: Datapath::start(address),
            turn: false,
        }
    }
}
