ghost use Rattle.rp_outcome.specs.Output.{Refuses, output};
ghost use Rattle.rp_make_room.specs.Room.{length_refusal, refusal_of};

use crate::NoRoom;
use itoa::Buffer;
use rp_io::Sink;
use rp_outcome::{IMAGE, print_pieces, refuse, table_refusal};

/// Ends a command for which there is no room: prints the line of the cause and answers its status, which stays where the sink
/// fails. It takes no memory.
pub fn refuse_room<K: Sink>(out: &mut K, cause: &NoRoom) -> u8
    ensures { Refuses (output K.told K.faults out.old) (output K.told K.faults out.new) (refusal_of cause.now) result }
{
    match *cause {
        NoRoom::Length { len } => refuse_length(out, len),
        NoRoom::Image(fault) => refuse(out, &table_refusal(fault)),
    }
}

// Of an image of so many bytes, which are too many.
fn refuse_length<K: Sink>(out: &mut K, len: u64) -> u8
    ensures { Refuses (output K.told K.faults out.old) (output K.told K.faults out.new) (length_refusal len) result }
{
    let mut buffer = Buffer::new();
    let number = buffer.format(len);
    let _ = print_pieces(out, &["error 4 MakeLength ", number, "\n"]);
    IMAGE
}
