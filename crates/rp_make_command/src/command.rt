ghost use Rattle.rp_defs.specs.WellFormed.{IsWellFormed};
ghost use Rattle.rp_make_command.specs.Makes.{Makes, MakesLooked, MakesOpened, MakesRead};
ghost use Rattle.rp_outcome.specs.Output.{output};
ghost use Rattle.rp_outcome.specs.Store.{store};

use crate::planning::make_grown;
use rp_base::{Failed, Guid};
use rp_defs::Definitions;
use rp_disk::Disk;
use rp_io::{Sink, Sources};
use rp_make_input::{Input, input_of};
use rp_make_room::{grow, look, refuse_room};
use rp_outcome::{Refusal, refuse};
use rp_reading::{read_definitions, unread_refusal};
use rp_types::Arch;
use std::alloc::Global;

/// Makes a large image on a disk from a number of 1 to 100: the input of the number is applied to the image, which is grown to
/// 1 GiB where it is shorter, then what it differs in is looked for, and a summary is printed; answers the exit status.
///
/// The input is made in memory, and its definitions are read, then the disk is synced. An image that is longer, or shows a table, is
/// refused before it is grown. All memory for carrying out is taken before the first write.
pub fn make<D: Disk, K: Sink>(alloc: Global, number: u8, disk: &mut D, out: &mut K) -> u8
    ensures { Makes number
        (D.device disk.old) (D.device disk.new)
        (output K.told K.faults out.old) (output K.told K.faults out.new) result }
{
    let Ok(input) = input_of(alloc, number) else {
        return refuse(out, &Refusal::memory());
    };
    let Input {
        dirs,
        mut folders,
        mut sources,
        seed,
    } = input;
    match read_definitions(alloc, Arch::X86_64, dirs.as_slice(), &mut folders) {
        Ok(definitions) => {
            folders.is_sound();
            let status = make_read(alloc, number, seed, &definitions, disk, &mut sources, out);
            sources.is_sound();
            status
        }
        Err(fault) => {
            folders.is_sound();
            refuse(out, &unread_refusal(&fault))
        }
    }
}

// The same, by definitions that were read: the disk is synced first.
fn make_read<D: Disk, S: Sources, K: Sink>(
    alloc: Global,
    number: u8,
    seed: Guid,
    definitions: &Definitions,
    disk: &mut D,
    sources: &mut S,
    out: &mut K,
) -> u8
    requires list { IsWellFormed definitions.now.list }
    ensures { MakesRead number seed definitions.now
        (D.device disk.old) (D.device disk.new)
        (store S.told S.faults S.strays sources.old) (store S.told S.faults S.strays sources.new)
        (output K.told K.faults out.old) (output K.told K.faults out.new) result }
{
    match disk.sync() {
        Ok(()) => make_opened(alloc, number, seed, definitions, disk, sources, out),
        Err(Failed) => refuse(out, &Refusal::disk()),
    }
}

// The same, once the disk was synced: the image is looked at.
fn make_opened<D: Disk, S: Sources, K: Sink>(
    alloc: Global,
    number: u8,
    seed: Guid,
    definitions: &Definitions,
    disk: &mut D,
    sources: &mut S,
    out: &mut K,
) -> u8
    requires list { IsWellFormed definitions.now.list }
    ensures { MakesOpened number seed definitions.now
        (D.device disk.old) (D.device disk.new)
        (store S.told S.faults S.strays sources.old) (store S.told S.faults S.strays sources.new)
        (output K.told K.faults out.old) (output K.told K.faults out.new) result }
{
    match look(alloc, disk) {
        Ok(len) => make_looked(alloc, number, seed, definitions, len, disk, sources, out),
        Err(cause) => refuse_room(out, &cause),
    }
}

// The same, on an image of so many bytes that may be grown.
fn make_looked<D: Disk, S: Sources, K: Sink>(
    alloc: Global,
    number: u8,
    seed: Guid,
    definitions: &Definitions,
    len: u64,
    disk: &mut D,
    sources: &mut S,
    out: &mut K,
) -> u8
    requires list { IsWellFormed definitions.now.list }
    ensures { MakesLooked number seed definitions.now len
        (D.device disk.old) (D.device disk.new)
        (store S.told S.faults S.strays sources.old) (store S.told S.faults S.strays sources.new)
        (output K.told K.faults out.old) (output K.told K.faults out.new) result }
{
    match grow(disk, len) {
        Ok(()) => make_grown(alloc, number, seed, definitions, disk, sources, out),
        Err(Failed) => refuse(out, &Refusal::disk()),
    }
}
