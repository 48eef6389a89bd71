//! Reading a file.

ghost use Rattle.std.specs.Prelude.{◌≤◌, vec_len, IfOk};

use crate::input::{ReadFault, read_up_to};
use crate::watched::Watched;
use std::fs;
use std::io::ErrorKind;
use std::rt::Files;

/// The most bytes of a file that are read: one more than a script may have is enough to refuse it.
const MOST_OF_FILE: usize = 1_048_577;

/// The bytes of the file of this name, or the first 1,048,577 of them. No contract can say which bytes a file has.
///
/// A file that can't be opened is a failed read.
pub fn bytes_of_file<R: Files + AllocGlobal>(rt: &R, name: &str) -> Result<Vec<u8>, ReadFault>
    ensures { IfOk result (λ bytes. vec_len bytes ≤ 1048577) }
{
    let file = match fs::open(rt, name) {
        Ok(file) => file,
        Err(error) if error.kind() == ErrorKind::OutOfMemory => return Err(ReadFault::NoMemory),
        Err(_) => return Err(ReadFault::Read),
    };
    let mut reader = Watched::new(file);
    read_up_to(rt.alloc(), &mut reader, MOST_OF_FILE)
}
