//! Lines as they come. Of one that is too long no more is kept than shows that.
ghost use Rattle.std.specs.Prelude.{◌≡◌, [], ◌∷◌, ◌++◌, take, IfOk, IfSome, OnOk};
ghost use Rattle.std.specs.Io.Iter.{bytes_remaining};
ghost use Rattle.range_track_answers.specs.Lines.{IsLine, IsLineRead};

use arrayvec::ArrayVec;
use std::io::{self, Bytes, Read};

/// How many bytes of a line are kept: one more than a line may have that asks something.
pub const KEPT: usize = 65;

/// What ended a line.
#[derive(Clone, Copy, Debug, PartialEq, Eq)]
pub enum Ending {
    /// A newline.
    Newline,
    /// The end of the input.
    Input,
}

/// Reads a line, and keeps its first bytes without the newline.
pub fn read_line<R: Read + Drop>(
    bytes: &mut Bytes<R>,
    line: &mut ArrayVec<u8, KEPT>,
) -> io::Result<Ending>
    ensures line { OnOk result (IsLine line.new.items) }
    ensures read { IfOk result (λ ending. IfSome (bytes_remaining R.remaining bytes.old)
        (λ text. IsLineRead text line.new.items ending (bytes_remaining R.remaining bytes.new))) }
{
    line.clear();
    while let Some(byte) = bytes.next() {
        match byte? {
            b'\n' => return Ok(Ending::Newline),
            byte => keep(line, byte),
        }
    }
    Ok(Ending::Input)
}

/// Appends the byte where there is room for it.
fn keep(line: &mut ArrayVec<u8, KEPT>, byte: u8)
    ensures { line.new.items ≡ take KEPT (line.old.items ++ byte ∷ []) }
{
    let _full = line.try_push(byte).is_err();
}
