//! `apply` on a blank image of 2 MiB: a partition from a source, and one without.

use rp_base::{List, Text};
use rp_cli::run;
use rp_disk::MemDisk;
use rp_io::{MemFolders, MemSink, MemSources, Stored};
use std::alloc::Global;
use std::process::Abort;
use std::test::Fail;

const MIB: usize = 1 << 20;

const WORDS: [&str; 5] = [
    "apply",
    "--empty=allow",
    "--definitions=d",
    "--seed=00000000-0000-0000-0000-000000000001",
    "image",
];

const FROM_SOURCE: &str = "[Partition]\nType=linux-generic\nSizeMinBytes=64K\nCopyBlocks=s.raw\n";

const PLAIN: &str = "[Partition]\nType=linux-generic\nSizeMinBytes=64K\n";

const FIRST: &str = "plan target 4096 usable 2048-4062 disk 5604b68e-37df-48a8-a451-502e27e8ed09
0 new a.conf linux-generic start 2048 size 1008 id 0f6335f7-f5f3-4f84-b2b1-48862cde1d53 attrs 0000000000000000 name \"linux-generic\"
1 new b.conf linux-generic start 3056 size 1000 id aedfb21e-6a45-4cbf-a80f-61b151a39a08 attrs 0000000000000000 name \"linux-generic\"
ignored 0
steps 18 writes 12
applied
";

const AGAIN: &str = "plan target 4096 usable 2048-4062 disk 5604b68e-37df-48a8-a451-502e27e8ed09
0 same a.conf linux-generic start 2048 size 1008 id 0f6335f7-f5f3-4f84-b2b1-48862cde1d53 attrs 0000000000000000 name \"linux-generic\"
1 same b.conf linux-generic start 3056 size 1000 id aedfb21e-6a45-4cbf-a80f-61b151a39a08 attrs 0000000000000000 name \"linux-generic\"
ignored 0
steps 0 writes 0
applied
";

// The bytes of the source, and the numbers of the calls that fail, from 1, or 0 for none.
#[derive(Clone, Copy)]
struct Outside {
    source: usize,
    folders: u64,
    sources: u64,
    sink: u64,
}

const WELL: Outside = Outside {
    source: 8192,
    folders: 0,
    sources: 0,
    sink: 0,
};

// The source is read in two pieces, the first of 256 KiB.
const TWO_PIECES: Outside = Outside {
    source: 270_336,
    ..WELL
};

#[derive(Clone, Copy)]
enum Place {
    Disk,
    Folders,
    Sources,
    Sink,
}

#[derive(Drop)]
struct Told {
    status: u8,
    text: MemSink,
}

#[test]
fn applied_again_and_behind_each_failure(rt: HostRuntime) -> Result<(), Fail> {
    let alloc = rt.alloc();
    let mut disk = blank(alloc, 0)?;
    let first = apply(alloc, WELL, &mut disk)?;
    assert!(rt; first.text.bytes() == FIRST.as_bytes());
    assert!(rt; first.status == 0);
    let image = disk.bytes();
    assert!(rt; image.len() == 2 * MIB);
    assert!(rt; image[MIB..].starts_with(&[0x5a; 8192]));
    let calls = disk.calls().len();
    let again = apply(alloc, WELL, &mut disk)?;
    assert!(rt; again.text.bytes() == AGAIN.as_bytes());
    assert!(rt; again.status == 0);
    assert!(rt; disk.calls().len() == calls + 1);

    let mut goal = blank(alloc, 0)?;
    apply(alloc, TWO_PIECES, &mut goal)?;
    for (place, calls) in [
        (Place::Disk, 27),
        (Place::Folders, 5),
        (Place::Sources, 3),
        (Place::Sink, 1),
    ] {
        assert_eq!(rt; calls_that_fail(&rt, &goal, place)?, calls);
    }
    Ok(())
}

// How many calls there are of this place, each of which fails a run of its own.
fn calls_that_fail<R: Abort + AllocGlobal>(
    rt: &R,
    goal: &MemDisk,
    place: Place,
) -> Result<u64, Fail> {
    for before in 0..200 {
        if !fails(rt, goal, place, before + 1)? {
            return Ok(before);
        }
    }
    Err("too many calls")?
}

// Whether a call fails the run. A second run behind it leaves the goal, byte for byte.
fn fails<R: Abort + AllocGlobal>(
    rt: &R,
    goal: &MemDisk,
    place: Place,
    number: u64,
) -> Result<bool, Fail> {
    let alloc = rt.alloc();
    let (outside, of_disk, status, line) = match place {
        Place::Disk => (TWO_PIECES, number, 7, "error 7 disk\n"),
        Place::Folders => (
            Outside {
                folders: number,
                ..TWO_PIECES
            },
            0,
            8,
            "error 8 folder\n",
        ),
        Place::Sources => (
            Outside {
                sources: number,
                ..TWO_PIECES
            },
            0,
            8,
            "error 8 source\n",
        ),
        Place::Sink => (
            Outside {
                sink: number,
                ..TWO_PIECES
            },
            0,
            9,
            "",
        ),
    };
    let mut disk = blank(alloc, of_disk)?;
    let first = apply(alloc, outside, &mut disk)?;
    if first.status == 0 {
        return Ok(false);
    }
    assert_eq!(rt; first.status, status);
    assert!(rt; first.text.bytes() == line.as_bytes());
    let second = apply(alloc, TWO_PIECES, &mut disk)?;
    assert_eq!(rt; second.status, 0);
    assert!(rt; disk.bytes() == goal.bytes());
    Ok(true)
}

// A blank image of which this call fails, or none where it is 0.
fn blank(alloc: Global, fail: u64) -> Result<MemDisk, Fail> {
    let image = List::from_vec(vec![in alloc; 0u8; 2 * MIB]?);
    Ok(MemDisk::new(alloc, image, call(alloc, fail)?))
}

fn apply(alloc: Global, outside: Outside, disk: &mut MemDisk) -> Result<Told, Fail> {
    let mut dirs = List::new(alloc);
    dirs.push(Text::from_str(alloc, "d")?)?;
    let mut files = List::new(alloc);
    files.push(stored(alloc, "d/a.conf", FROM_SOURCE.as_bytes().to_vec(alloc)?)?)?;
    files.push(stored(alloc, "d/b.conf", PLAIN.as_bytes().to_vec(alloc)?)?)?;
    let mut folders = MemFolders::new(dirs, files, call(alloc, outside.folders)?);
    let mut there = List::new(alloc);
    there.push(stored(alloc, "s.raw", vec![in alloc; 0x5au8; outside.source]?)?)?;
    let mut sources = MemSources::new(there, call(alloc, outside.sources)?);
    let mut text = MemSink::new(alloc, call(alloc, outside.sink)?);
    let mut words = Vec::new(alloc);
    for word in WORDS {
        words.push(String::from_str(alloc, word)?)?;
    }
    let words = words.as_slice();
    let status = run(alloc, words, disk, &mut folders, &mut sources, &mut text);
    Ok(Told { status, text })
}

fn stored(alloc: Global, path: &str, bytes: Vec<u8>) -> Result<Stored, Fail> {
    Ok(Stored {
        path: Text::from_str(alloc, path)?,
        bytes: List::from_vec(bytes),
    })
}

// The list of one number, or of none where it is 0.
fn call(alloc: Global, number: u64) -> Result<List<u64>, Fail> {
    let mut list = List::new(alloc);
    if number != 0 {
        list.push(number)?;
    }
    Ok(list)
}
