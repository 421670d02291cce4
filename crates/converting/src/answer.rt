// From the words and the input of the program to the bytes of both its channels.
ghost use Rattle.std.specs.Prelude.{◌≡◌, length};
ghost use Rattle.converting.specs.Converting.{conversion_of, looks, done, Converts};

use crate::Ends;
use crate::job::convert;
use crate::texts::{write_help, write_unknown};
use crate::words::{Conversion, conversion_of};

// Whether the words ask for a conversion: else the input is not looked at.
pub fn wants_input(count: usize, first: &[u8], second: &[u8], third: &[u8]) -> bool
    ensures { result ≡ looks (conversion_of count first.now second.now third.now) }
{
    let conversion = conversion_of(count, first, second, third);
    match conversion {
        Conversion::Help => false,
        Conversion::Unknown => false,
        Conversion::Convert(_) => true,
    }
}

// `count` is how many words there are, `bytes` the input. The file is for standard output, the text for standard error.
pub fn answer(
    count: usize,
    first: &[u8],
    second: &[u8],
    third: &[u8],
    bytes: &[u8],
    file: &mut [u8],
    text: &mut [u8],
) -> Ends
    ensures { Converts (done (conversion_of count first.now second.now third.now) bytes.now (length file.old)) file.old file.new text.old text.new result.file result.text }
{
    let conversion = conversion_of(count, first, second, third);
    match conversion {
        Conversion::Help => {
            let end = write_help(text);
            Ends { file: 0, text: end }
        }
        Conversion::Unknown => {
            let end = write_unknown(text);
            Ends { file: 0, text: end }
        }
        Conversion::Convert(from) => convert(from, bytes, file, text),
    }
}
