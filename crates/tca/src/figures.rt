// A run's answer in numbers.
ghost use Rattle.std.specs.Prelude.{◌≡◌};
ghost use Rattle.meaning.specs.Answers.{answer_number, sent_number};
ghost use Rattle.tca.specs.Runs.{Shows};

use meaning::{Answer, Run};

// Refusal 0 where the record ran; else the other three are 0. A struct of fixed layout, since C gets it.
#[repr(C)]
#[derive(Clone, Copy)]
pub struct RunAnswer {
    pub refusal: u32,
    pub answer: u32,
    pub sent: u32,
    pub steps: u32,
}

// C gets each answer, and the number sent, as a number of its own: two functions, and no Display.
fn answer_number(a: Answer) -> u32
    ensures { result ≡ answer_number a }
{
    match a {
        Answer::Value => 0,
        Answer::Waiting => 1,
        Answer::Sent(_) => 2,
        Answer::Held => 3,
        Answer::Budget => 4,
        Answer::Room => 5,
        Answer::Numbers => 6,
    }
}

fn sent_number(a: Answer) -> u32
    ensures { result ≡ sent_number a }
{
    match a {
        Answer::Sent(k) => k,
        _ => 0,
    }
}

impl From<Run> for RunAnswer {
    ghost from_gives = { λ r a. Shows r a };

    fn from(r: Run) -> RunAnswer {
        match r {
            Ok(ran) => RunAnswer {
                refusal: 0,
                answer: answer_number(ran.answer),
                sent: sent_number(ran.answer),
                steps: ran.steps,
            },
            Err(r) => RunAnswer {
                refusal: u32::from(r),
                answer: 0,
                sent: 0,
                steps: 0,
            },
        }
    }
}
