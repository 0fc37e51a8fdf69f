// Run: a sound record is stepped.
ghost use Rattle.std.specs.Prelude.{◌≡◌};
ghost use Rattle.meaning.specs.Bytes.{arm};
ghost use Rattle.meaning.specs.Entries.{RunSays};
ghost use Rattle.tca.specs.Runs.{TellsRun};

use crate::figures::RunAnswer;
use meaning::{Ran, Refusal, require};

pub fn run(kept: &mut [u8], work: &mut [u8], budget: u32) -> Result<Ran, Refusal>
    ensures { RunSays arm kept.old work.old budget result kept.new work.new }
{
    let m = runs::arm_limits();
    require(kept.len() == layout::record_bytes(m), Refusal::Length)?;
    require(work.len() == m.work as usize, Refusal::Length)?;
    require(sound::is_sound(kept, m), Refusal::Unsound)?;
    runs::run(kept, work, budget)
}

pub fn tca_run(kept: &mut [u8], work: &mut [u8], budget: u32) -> RunAnswer
    ensures { TellsRun kept.old work.old budget result kept.new work.new }
{
    RunAnswer::from(run(kept, work, budget))
}
