// The answers that the entries give, and the number and place of a refusal. What they mean is in specs/.
#![tactic(auto)]

ghost use Rattle.std.specs.Prelude.{◌≡◌, Ok, OnOk, IsTrue};
ghost use Rattle.meaning.specs.Answers.{refusal_number, refusal_place};
ghost use Rattle.meaning.specs.Entries.{require};

// What is wrong with a row's shape.
#[derive(Clone, Copy, Debug, PartialEq, Eq)]
pub enum Fault {
    Kind,
    Field,
    Number,
    Behind,
    Unfinished,
}

// A table of rows is one whole tree; or the first fault, and its row.
pub type Shape = Result<(), (Fault, u32)>;

// Why an entry refuses, with the place where one is named.
#[derive(Clone, Copy, Debug, PartialEq, Eq)]
pub enum Refusal {
    Length,
    Size,
    Mark,
    Version,
    Count,
    TypeRow(u32),
    Row(Fault, u32),
    Future(u32),
    Typing(u32),
    Unsound,
    Header,
    NotOpen,
    ReplyRow(Fault, u32),
    ReplyKind(u32),
    ReplyTyping(u32),
    ReplyRoom,
}

impl Refusal {
    // The row that it names, or 0.
    pub fn place(self) -> u32
        ensures { result ≡ refusal_place self }
    {
        match self {
            Refusal::TypeRow(i)
            | Refusal::Row(_, i)
            | Refusal::Future(i)
            | Refusal::Typing(i)
            | Refusal::ReplyRow(_, i)
            | Refusal::ReplyKind(i)
            | Refusal::ReplyTyping(i) => i,
            _ => 0,
        }
    }
}

// Its number in what C gets.
impl From<Refusal> for u32 {
    ghost from_gives = { λ r n. n ≡ refusal_number r };

    fn from(r: Refusal) -> u32 {
        match r {
            Refusal::Length => 1,
            Refusal::Size => 2,
            Refusal::Mark => 3,
            Refusal::Version => 4,
            Refusal::Count => 5,
            Refusal::TypeRow(_) => 6,
            Refusal::Row(_, _) => 7,
            Refusal::Future(_) => 8,
            Refusal::Typing(_) => 9,
            Refusal::Unsound => 10,
            Refusal::Header => 11,
            Refusal::NotOpen => 12,
            Refusal::ReplyRow(_, _) => 13,
            Refusal::ReplyKind(_) => 14,
            Refusal::ReplyTyping(_) => 15,
            Refusal::ReplyRoom => 16,
        }
    }
}

// What load and reply answer.
pub type Verdict = Result<(), Refusal>;

// Refused unless a test holds.
#[tactic(auto, unfolding(crate::specs::Entries::require))]
pub fn require(holds: bool, why: Refusal) -> Result<(), Refusal>
    ensures value { result ≡ require holds why (Ok tt) }
    ensures held { OnOk result (IsTrue holds) }
{
    if holds { Ok(()) } else { Err(why) }
}

// How a run ends.
#[derive(Clone, Copy, Debug, PartialEq, Eq)]
pub enum Answer {
    Value,
    Waiting,
    Sent(u32),
    Held,
    Budget,
    Room,
    Numbers,
}

// A run that was made: how it ended, and its steps.
#[derive(Clone, Copy, Debug, PartialEq, Eq)]
pub struct Ran {
    pub answer: Answer,
    pub steps: u32,
}

// What run answers.
pub type Run = Result<Ran, Refusal>;
