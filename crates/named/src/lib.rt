// Files that are read by their names.
#![tactic(auto)]

ghost use Rattle.std.specs.Prelude.{◌≡◌, ◌≤◌, length, IfSome, None, OnErr};
ghost use Rattle.std.specs.Str.{IsUtf8};

use std::fs::{File, Files};
use std::io::Read;
use std::str::from_utf8;

// As many bytes as there are, and as there is place for. A read that fails looks like the end of the file.
fn read_full<R: Read>(file: &mut R, bytes: &mut [u8]) -> usize
    ensures { result ≤ length bytes.new }
{
    let mut done = 0;
    while done < bytes.len() {
        let count = match file.read(&mut bytes[done..]) {
            Ok(count) => count,
            Err(_) => 0,
        };
        if count == 0 {
            break;
        }
        done += count;
    }
    done
}

// A read that fails looks like the end of the file, so one more is made: at the end it finds nothing, and a failure it meets again.
fn read_opened<'a, R: Read>(file: &mut R, bytes: &'a mut [u8]) -> Option<&'a [u8]>
    ensures { IfSome result (λ read. length read.now ≤ length bytes.old) }
{
    let length = read_full(file, bytes);
    let mut spare = [0u8; 1];
    file.read(&mut spare).ok()?;
    Some(&bytes[..length])
}

// What could not be opened is no file.
fn read_if_opened<'a, R: Read + Drop, E: Drop>(
    opened: Result<R, E>,
    bytes: &'a mut [u8],
) -> Option<&'a [u8]>
    ensures length { IfSome result (λ read. length read.now ≤ length bytes.old) }
    ensures missing { OnErr opened (result ≡ None) }
{
    let mut file = opened.ok()?;
    read_opened(&mut file, bytes)
}

// The bytes of a file, as many as there is place for, and `None` where it could not be read. A name that is no UTF-8 text names no file.
pub fn read_file<'a, F: Files>(files: &F, name: &[u8], bytes: &'a mut [u8]) -> Option<&'a [u8]>
    ensures length { IfSome result (λ read. length read.now ≤ length bytes.old) }
    ensures text { ¬ IsUtf8 name.now → result ≡ None }
{
    let name = from_utf8(name).ok()?;
    read_if_opened(File::open(files, name), bytes)
}
