// The forms of types by name.
ghost use Rattle.std.specs.Prelude.{◌≡◌};
ghost use Rattle.layout.specs.Forms.{form_byte, IsForm};

// What a type is. A byte that is no form's number stands for none.
#[derive(Clone, Copy, PartialEq, Eq)]
pub enum Form {
    Str = 1,
    File = 2,
    Bool = 3,
    List = 4,
    Tuple = 5,
    Native = 6,
    Foreign = 7,
}

impl Form {
    // The form that a byte stands for. Not TryFrom: a byte of no form is no error, a type of it is judged like the others.
    pub fn of(byte: u8) -> Option<Self>
        ensures { IsForm result byte }
    {
        match byte {
            1 => Some(Form::Str),
            2 => Some(Form::File),
            3 => Some(Form::Bool),
            4 => Some(Form::List),
            5 => Some(Form::Tuple),
            6 => Some(Form::Native),
            7 => Some(Form::Foreign),
            _ => None,
        }
    }

    // Its byte in a type row.
    pub fn number(self) -> u8
        ensures { result ≡ form_byte self }
    {
        self as u8
    }
}
