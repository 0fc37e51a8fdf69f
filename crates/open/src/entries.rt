// The open list as a value.
ghost use Rattle.std.specs.Prelude.{◌≤◌};

// An open call: its number and the type of its reply.
#[derive(Clone, Copy)]
pub struct Entry {
    pub number: u32,
    pub ty: u16,
}

// The open calls, in rising order of number. An array and a count: there is no heap, and at most 64 calls are open.
#[derive(Clone, Copy)]
pub struct OpenList {
    pub entries: [Entry; 64],
    pub count: usize,
    ghost few: { count ≤ 64 },
}
