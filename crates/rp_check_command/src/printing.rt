//! What differs, as text; its line takes no memory.

ghost use Rattle.std.specs.Prelude.{Ok};
ghost use Rattle.rp_check_command.specs.Checks.{Tells};
ghost use Rattle.rp_check_command.specs.Reports.{difference_line};
ghost use Rattle.rp_outcome.specs.Output.{Differs, output};

use itoa::Buffer;
use rp_difference::{Bad, Difference};
use rp_io::Sink;
use rp_outcome::{differ, finish};
use rp_types::Designator;

/// Ends a command that compares: prints what differs, or that nothing does, and answers the exit status.
pub fn tell<K: Sink>(out: &mut K, found: Option<Difference>) -> u8
    ensures { Tells (output K.told K.faults out.old) (output K.told K.faults out.new) result (Ok found) }
{
    match found {
        None => finish(out, "ok\n"),
        Some(difference) => tell_difference(out, difference),
    }
}

fn tell_difference<K: Sink>(out: &mut K, difference: Difference) -> u8
    ensures { Differs (output K.told K.faults out.old) (output K.told K.faults out.new) (difference_line difference) result }
{
    match difference {
        Difference::Primary => differ(out, &["differs primary\n"]),
        Difference::Backup => differ(out, &["differs backup\n"]),
        Difference::Mbr => differ(out, &["differs mbr\n"]),
        Difference::Table => differ(out, &["differs table\n"]),
        Difference::Row { slot } => {
            let mut buffer = Buffer::new();
            let number = buffer.format(u64::from(slot));
            differ(out, &["differs row ", number, "\n"])
        }
        Difference::Tree { designator, bad } => tell_bad(out, designator, bad),
    }
}

// Prints what is wrong of a hash tree.
fn tell_bad<K: Sink>(out: &mut K, designator: Designator, bad: Bad) -> u8
    ensures { Differs (output K.told K.faults out.old) (output K.told K.faults out.new)
        (difference_line (Difference.Tree designator bad)) result }
{
    let name = designator.name();
    match bad {
        Bad::Superblock => differ(out, &["differs verity ", name, " superblock\n"]),
        Bad::Top => differ(out, &["differs verity ", name, " top\n"]),
        Bad::Hash { block } => {
            let mut buffer = Buffer::new();
            let number = buffer.format(block);
            differ(out, &["differs verity ", name, " hash ", number, "\n"])
        }
        Bad::Data { block } => {
            let mut buffer = Buffer::new();
            let number = buffer.format(block);
            differ(out, &["differs verity ", name, " data ", number, "\n"])
        }
    }
}
