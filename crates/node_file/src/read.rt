// Reading a file: three words for each node.
ghost use Rattle.std.specs.Prelude.{◌≡◌};
ghost use Rattle.blocks.specs.Block.{said};
ghost use Rattle.node_file.specs.NodeFile.{read_outcome, ReadsNodes};

use blocks::layout::PLACE;
use blocks::nodes::get_nodes;
use blocks::stored::Stored;
use diagram::limits::MAX_NODES;
use diagram::refusal::Refusal;
use diagram::verdict::Refused;

// The tests in their order; `lent` is the length of the output.
fn test_length(length: usize, lent: usize) -> Stored
    ensures { said result ≡ read_outcome length lent }
{
    if length == 0 {
        return Err(Refused {
            reason: Refusal::EmptyFile,
            place: 0,
        });
    }
    let nodes = length / PLACE;
    if MAX_NODES < nodes {
        return Err(Refused {
            reason: Refusal::TooManyInFile,
            place: 0,
        });
    }
    let rest = length % PLACE;
    if rest != 0 {
        return Err(Refused {
            reason: Refusal::BrokenNode,
            place: 0,
        });
    }
    if lent < 3 * nodes {
        return Err(Refused {
            reason: Refusal::ShortFile,
            place: 0,
        });
    }
    Ok(nodes)
}

// The nodes stand at the front of the output, beyond them it is as it was. Whether they are a diagram is not looked at.
pub fn read_as_bytes(bytes: &[u8], output: &mut [u32]) -> Stored
    ensures { ReadsNodes bytes.now output.old output.new result }
{
    let nodes = test_length(bytes.len(), output.len())?;
    get_nodes(bytes, 0, nodes, output, 0);
    Ok(nodes)
}
