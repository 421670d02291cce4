// What a cut did, a fact a line: target, nodes and cases before and after, what was added or lost, trials.
ghost use Rattle.std.specs.Prelude.{◌≡◌, ◌++◌, ◌≤◌, length};
ghost use Rattle.naturals.specs.Natural.{value};
ghost use Rattle.diagram.specs.Diagram.{Accepted};
ghost use Rattle.diagram.specs.Valuations.{count_of};
ghost use Rattle.writing.specs.Writing.{Wrote};
ghost use Rattle.report.specs.Report.{room_lent};
ghost use Rattle.request.specs.Request.{aim_of};
ghost use Rattle.messages.specs.Texts.{counts_text, change_text};
ghost use Rattle.shrinking.specs.Shrinking.{summary};

use exact_counts::exact_cardinality;
use messages::summary::{write_change, write_counts, write_sizes, write_target, write_trials};
use naturals::Natural;
use request::Target;

fn count_of(words: &[u32], room: &mut [u32]) -> Natural
    requires { Accepted words.now × (room_lent ≤ length room.old) }
    ensures { value result.words ≡ count_of words.now }
{
    exact_cardinality(words, room).unwrap().value
}

fn write_middle(
    out: &mut [u8],
    at: usize,
    keep: bool,
    words: &[u32],
    answer: &[u32],
    room: &mut [u32],
) -> usize
    requires { Accepted words.now × Accepted answer.now × (room_lent ≤ length room.old) }
    ensures { Wrote (counts_text (count_of words.now) (count_of answer.now) ++ change_text keep (count_of words.now) (count_of answer.now)) out.old at out.new result }
{
    let before = count_of(words, room);
    let after = count_of(answer, room);
    let next = write_counts(out, at, before, after);
    write_change(out, next, keep, before, after)
}

// The room is for counting: what it holds at first does not matter.
pub(crate) fn write_summary(
    out: &mut [u8],
    target: Target,
    words: &[u32],
    answer: &[u32],
    trials: usize,
    room: &mut [u32],
) -> usize
    requires { Accepted words.now × Accepted answer.now × (room_lent ≤ length room.old) }
    ensures { Wrote (summary target.keep (aim_of target) words.now answer.now trials) out.old 0 out.new result }
{
    let aimed = write_target(out, target);
    let sizes = write_sizes(out, aimed, words.len() / 3, answer.len() / 3);
    let counts = write_middle(out, sizes, target.keep, words, answer, room);
    write_trials(out, counts, trials)
}
