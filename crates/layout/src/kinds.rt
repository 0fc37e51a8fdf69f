// The kinds of term rows by name.
ghost use Rattle.std.specs.Prelude.{◌≡◌, ◌==◌, MatchBool};
ghost use Rattle.meaning.specs.Terms.{head_from};
ghost use Rattle.layout.specs.Kinds.{number_of, IsKind, head_of};

use crate::Row;

// What a row is. A byte that is no kind's number stands for none.
#[derive(Clone, Copy, PartialEq, Eq)]
pub enum Kind {
    Text = 1,
    File = 2,
    True = 3,
    False = 4,
    Variable = 5,
    Native = 6,
    Foreign = 7,
    Apply = 8,
    Future = 9,
    If = 10,
    Fix = 11,
    Nil = 12,
    Cons = 13,
    IsNil = 14,
    Zip = 15,
    Tuple = 16,
    Project = 17,
    ListProject = 18,
    Let = 19,
}

impl Kind {
    // The kind that a byte stands for. Not TryFrom: a byte of no kind is no error, its row is judged like the others.
    pub fn of(byte: u8) -> Option<Self>
        ensures { IsKind result byte }
    {
        match byte {
            1 => Some(Kind::Text),
            2 => Some(Kind::File),
            3 => Some(Kind::True),
            4 => Some(Kind::False),
            5 => Some(Kind::Variable),
            6 => Some(Kind::Native),
            7 => Some(Kind::Foreign),
            8 => Some(Kind::Apply),
            9 => Some(Kind::Future),
            10 => Some(Kind::If),
            11 => Some(Kind::Fix),
            12 => Some(Kind::Nil),
            13 => Some(Kind::Cons),
            14 => Some(Kind::IsNil),
            15 => Some(Kind::Zip),
            16 => Some(Kind::Tuple),
            17 => Some(Kind::Project),
            18 => Some(Kind::ListProject),
            19 => Some(Kind::Let),
            _ => None,
        }
    }

    pub fn number(self) -> u8
        ensures { result ≡ number_of self }
    {
        self as u8
    }
}

impl Row {
    #[tactic(auto, using(crate::proofs::ByKind::head_named))]
    pub fn kind(self) -> Option<Kind>
        ensures number { IsKind result self.kind }
        ensures head { head_from self.kind self.n self.word ≡ head_of result self.n self.word }
    {
        Kind::of(self.kind)
    }

    // Whether the row is of this kind.
    pub fn is(self, kind: Kind) -> bool
        ensures test { result ≡ (self.kind == number_of kind) }
        ensures meaning { MatchBool result (self.kind ≡ number_of kind) (self.kind ≡ number_of kind → ⊥) }
    {
        self.kind == kind.number()
    }
}
