// From the bytes of a file to the text of the report.
ghost use Rattle.std.specs.Prelude.{◌≡◌, ◌*◌, length};
ghost use Rattle.writing.specs.Writing.{Wrote};
ghost use Rattle.report.specs.Report.{report_of, diagram_report, room_lent, weights_lent};

use crate::lines::{write_lines, write_refusal};
use diagram::limits::{MAX_NODES, MAX_WORDS, ROOM_PER_NODE};
use forms::{Form, read_form};
use node_weights::count_and_weights;

// Words of the weights of the most nodes, and of the room to weigh them.
const WEIGHTS: usize = naturals::WORDS * MAX_NODES;

const ROOM: usize = ROOM_PER_NODE * MAX_NODES;

// The report of a diagram, or its refusal, with a room and an output for weights that are long enough for any.
fn report_in(out: &mut [u8], words: &[u32], room: &mut [u32], weights: &mut [u32]) -> usize
    requires { (length room.old ≡ room_lent) × (length weights.old ≡ weights_lent) }
    ensures { Wrote (diagram_report words.now) out.old 0 out.new result }
{
    match count_and_weights(words, room, weights) {
        Ok(found) => write_lines(out, words, found.value, weights),
        Err(refused) => write_refusal(out, refused),
    }
}

// The same, with a room and an output of its own.
pub fn report_diagram(out: &mut [u8], words: &[u32]) -> usize
    ensures { Wrote (diagram_report words.now) out.old 0 out.new result }
{
    let mut weights = [0u32; WEIGHTS];
    let mut room = [0u32; ROOM];
    report_in(out, words, &mut room, &mut weights)
}

// The report of a file: the file's refusal, or what its diagram reports.
pub fn report(out: &mut [u8], form: Form, bytes: &[u8]) -> usize
    ensures { Wrote (report_of form bytes.now) out.old 0 out.new result }
{
    let mut words = [0u32; MAX_WORDS];
    match read_form(form, bytes, &mut words) {
        Ok(nodes) => report_diagram(out, &words[..3 * nodes]),
        Err(refused) => write_refusal(out, refused),
    }
}
