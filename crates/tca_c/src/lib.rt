// What C calls: each export calls the library's function of its name, and says the same.
#![tactic(auto)]

ghost use Rattle.tca.specs.Loads.{Tells};
ghost use Rattle.tca.specs.Runs.{TellsRun};
ghost use Rattle.tca.specs.Replies.{TellsReply};

use tca::Verdict;
use tca::figures::RunAnswer;

#[unsafe(no_mangle)]
pub extern "C" fn tca_load(file: &[u8], kept: &mut [u8]) -> Verdict
    ensures { Tells file.now kept.old kept.new result }
{
    tca::tca_load(file, kept)
}

#[unsafe(no_mangle)]
pub extern "C" fn tca_run(kept: &mut [u8], work: &mut [u8], budget: u32) -> RunAnswer
    ensures { TellsRun kept.old work.old budget result kept.new work.new }
{
    tca::run::tca_run(kept, work, budget)
}

#[unsafe(no_mangle)]
pub extern "C" fn tca_reply(kept: &mut [u8], work: &mut [u8], answer: &[u8]) -> Verdict
    ensures { TellsReply kept.old work.old answer.now result kept.new work.new }
{
    tca::reply::tca_reply(kept, work, answer)
}
