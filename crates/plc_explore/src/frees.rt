// Which addresses are freed, and when. A reclaimer that is asked frees what it picks, as early as it picks it. Without
// one any free may come that the observer allows, so the retired addresses are drawn.
ghost use Rattle.std.specs.Prelude.{◌≡◌, Some};
ghost use Rattle.plc_explore.specs.Following.{IsAny};

use crate::random::Random;
use plc_auto::{Event, Scheme};
use plc_base::NoMemory;
use plc_reclaim::Reclaimer;

/// Who says what is freed.
#[derive(Drop)]
pub enum Frees {
    /// A reclaimer: it is asked after each move while something is retired, and what it picks is freed.
    Picked(Box<dyn Reclaimer>),
    /// Nobody: any retired address may be freed that the observer doesn't keep.
    Any,
}

impl Frees {
    /// A run begins.
    pub fn begin(&mut self, schemes: &[Scheme]) -> Result<(), NoMemory>
        ensures { IsAny self.old → IsAny self.new }
    {
        match self {
            Frees::Picked(reclaimer) => reclaimer.begin(schemes),
            Frees::Any => Ok(()),
        }
    }

    /// An event happened.
    pub fn hear(&mut self, event: &Event) -> Result<(), NoMemory>
        ensures { IsAny self.old → IsAny self.new }
    {
        match self {
            Frees::Picked(reclaimer) => reclaimer.event(*event),
            Frees::Any => Ok(()),
        }
    }

    /// The address that is to be freed where a recorded run frees `a`.
    pub fn again(&mut self, a: u32) -> Option<u32>
        ensures any { IsAny self.old → IsAny self.new }
        ensures the_same { IsAny self.old → result ≡ Some a }
    {
        match self {
            Frees::Picked(reclaimer) => reclaimer.pick(),
            Frees::Any => Some(a),
        }
    }

    /// The address that is to be freed next, if there is one, where these are retired.
    pub fn next(&mut self, retired: &[u32], random: &mut Random) -> Option<u32> {
        match self {
            Frees::Picked(reclaimer) => reclaimer.pick(),
            Frees::Any if random.one_in(2) => None,
            Frees::Any => {
                let k = random.below(retired.len().min(4096) as u32);
                retired.get(k as usize).copied()
            }
        }
    }
}
