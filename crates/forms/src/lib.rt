// The two forms of a file, chosen by who asks and never guessed from the bytes: block files and node files.
#![tactic(auto)]

ghost use Rattle.std.specs.Prelude.{◌≡◌, ◌≤◌};
ghost use Rattle.diagram.specs.Limits.{max_nodes};
ghost use Rattle.forms.specs.Form.{bytes_as, FormReads, FormWrites};

use block_file::read::read_file;
use block_file::write::write_file;
use blocks::layout::{BLOCK, NODES, PLACE};
use blocks::stored::Stored;
use node_file::read::read_as_bytes;
use node_file::write::write_as_bytes;

#[derive(Clone, Copy)]
pub enum Form {
    // At most 120 nodes, in blocks of 512 bytes with two sums.
    Blocks,
    // At most 4,096 nodes, ten bytes each.
    Nodes,
}

// Three words of the output for each node.
pub fn read_form(form: Form, bytes: &[u8], output: &mut [u32]) -> Stored
    ensures { FormReads form bytes.now output.old output.new result }
{
    match form {
        Form::Blocks => read_file(bytes, output),
        Form::Nodes => read_as_bytes(bytes, output),
    }
}

// The file of some nodes, at the front of the buffer.
pub fn write_form(form: Form, words: &[u32], file: &mut [u8]) -> Stored
    ensures { FormWrites form words.now file.old file.new result }
{
    match form {
        Form::Blocks => write_file(words, file),
        Form::Nodes => write_as_bytes(words, file),
    }
}

// How many bytes the file of so many nodes has.
pub fn file_bytes(form: Form, nodes: usize) -> usize
    requires { nodes ≤ max_nodes }
    ensures { result ≡ bytes_as form nodes }
{
    match form {
        Form::Blocks => BLOCK * nodes.div_ceil(NODES),
        Form::Nodes => PLACE * nodes,
    }
}
