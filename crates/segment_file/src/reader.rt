// What reads the file of an object, field after field.
ghost use Rattle.std.specs.Prelude.{◌≡◌};

use crate::cursor::Cursor;
use crate::texts::Texts;
use std::alloc::Global;

#[derive(Drop)]
pub(crate) struct Reader<'b> {
    pub(crate) cursor: Cursor<'b>,
    pub(crate) texts: Texts<'b>,
}

impl<'b> Reader<'b> {
    pub(crate) fn new(alloc: Global, bytes: &'b [u8]) -> Reader<'b>
        ensures rest { result.cursor.rest ≡ bytes.now }
        ensures at { result.cursor.at ≡ 0 }
    {
        Reader {
            cursor: Cursor::new(bytes),
            texts: Texts::new(alloc),
        }
    }
}
