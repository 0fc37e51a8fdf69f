// The rows that are judged: one tree over a table of types, with the row behind each row's tree.
ghost use Rattle.std.specs.Prelude.{◌≤◌, length};
ghost use Rattle.typing.specs.Scope.{Ready};

use layout::views::Types;

#[derive(Clone, Copy)]
pub struct Tree<'a> {
    pub types: &'a Types<'a>,
    pub rows: &'a [u8],
    pub ends: &'a [u16],
    ghost ready: { Ready rows.now ends.now },
    ghost few: { length rows.now ≤ 16384 },
}
