// Reply: judged and, if accepted, settled in the record.
ghost use Rattle.std.specs.Prelude.{◌≡◌, ◌≤◌};
ghost use Rattle.layout.specs.Rows.{board};
ghost use Rattle.meaning.specs.Bytes.{arm};
ghost use Rattle.meaning.specs.Entries.{ReplySays};
ghost use Rattle.sound.specs.Ready.{Roomy};
ghost use Rattle.tca.specs.Replies.{judged, TellsReply};

use layout::Limits;
use meaning::{Refusal, require};

// The verdict alone, with a work buffer of `room` bytes: nothing is written.
#[tactic(auto, unfolding(crate::specs::Replies::judged, meaning::specs::Entries::require))]
fn reply_verdict(kept: &[u8], room: usize, answer: &[u8], m: Limits) -> Result<(), Refusal>
    requires { (Roomy m) × (m.reply ≤ 256) × (m.last ≤ 65535) }
    ensures { result ≡ judged (board m) kept.now room answer.now }
{
    require(kept.len() == layout::record_bytes(m), Refusal::Length)?;
    require(room == m.work as usize, Refusal::Length)?;
    require(sound::is_sound(kept, m), Refusal::Unsound)?;
    settle::verdict::reply_verdict(kept, answer, m)
}

pub fn reply(kept: &mut [u8], work: &mut [u8], answer: &[u8]) -> Result<(), Refusal>
    ensures { ReplySays arm kept.old work.old answer.now result kept.new work.new }
{
    let m = runs::arm_limits();
    reply_verdict(kept, work.len(), answer, m)?;
    settle::settle(kept, work, answer, m);
    Ok(())
}

pub fn tca_reply(kept: &mut [u8], work: &mut [u8], answer: &[u8]) -> super::Verdict
    ensures { TellsReply kept.old work.old answer.now result kept.new work.new }
{
    super::Verdict::from(reply(kept, work, answer))
}
