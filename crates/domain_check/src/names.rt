ghost use Rattle.std.specs.Prelude.{◌<◌, ◌^◌, length};

mod numbering;

use indexmap::IndexSet;

/// Different names, numbered from 0 in the order in which they came.
#[derive(Drop)]
pub struct Names<'a> {
    set: IndexSet<&'a [u8]>,
    ghost few: { length set.keys < 2 ^ 32 },
}
