// Node files, read and written.
ghost use Rattle.node_file.specs.NodeFile.{ReadsNodes, WritesNodes};
ghost use Rattle.flat.specs.Flat.{FlatStored};

use flat::HouayletanStored;
use node_file::read::read_as_bytes;
use node_file::write::write_as_bytes;

// The nodes of a node file, three words each, in the first words of the output.
pub fn houayletan_read_as_bytes_3(bytes: &[u8], output: &mut [u32]) -> HouayletanStored
    ensures { FlatStored (ReadsNodes bytes.now output.old output.new) result }
{
    HouayletanStored::from(read_as_bytes(bytes, output))
}

// The node file of any words, in the first of the bytes.
pub fn houayletan_write_as_bytes_3(words: &[u32], bytes: &mut [u8]) -> HouayletanStored
    ensures { FlatStored (WritesNodes words.now bytes.old bytes.new) result }
{
    HouayletanStored::from(write_as_bytes(words, bytes))
}
