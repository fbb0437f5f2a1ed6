//! An image with two partitions, the first of which is made anew.

use rp_apply_command::apply;
use rp_base::{Guid, List, Text};
use rp_disk::MemDisk;
use rp_gpt::Empty;
use rp_io::{MemFolders, MemSink, MemSources, Stored};
use rp_planned::Request;
use rp_reset_command::{apply_reset, plan_reset};
use rp_types::Arch;
use std::alloc::Global;
use std::test::Fail;

const MIB: usize = 1 << 20;

// What the image has before.
const FIRST: [(&str, &str); 2] = [
    (
        "d/a.conf",
        "[Partition]\nType=linux-generic\nSizeMinBytes=4M\nSizeMaxBytes=4M\n",
    ),
    (
        "d/b.conf",
        "[Partition]\nType=home\nSizeMinBytes=40M\nSizeMaxBytes=40M\n",
    ),
];

// What it is to have.
const THEN: [(&str, &str); 2] = [
    (
        "d/a.conf",
        "[Partition]\nType=linux-generic\nFactoryReset=yes\nSizeMinBytes=4M\nWeight=0\n",
    ),
    ("d/b.conf", "[Partition]\nType=home\n"),
];

// Definitions of one type that disagree.
const MIXED: [(&str, &str); 2] = [
    ("d/a.conf", "[Partition]\nType=home\nFactoryReset=yes\n"),
    ("d/b.conf", "[Partition]\nType=home\n"),
];

const PLAN: &str = "plan target 131072 usable 2048-131038 disk 5604b68e-37df-48a8-a451-502e27e8ed09
1 changed b.conf home start 10240 size 120792 id f459c701-a604-4b88-8aaa-e8776bd7999d attrs 0800000000000000 name \"home\"
2 new a.conf linux-generic start 2048 size 8192 id 0f6335f7-f5f3-4f84-b2b1-48862cde1d53 attrs 0000000000000000 name \"linux-generic\"
reset 0
ignored 0
steps 27 writes 20
";

const APPLIED: &str =
    "plan target 131072 usable 2048-131038 disk 5604b68e-37df-48a8-a451-502e27e8ed09
1 changed b.conf home start 10240 size 120792 id f459c701-a604-4b88-8aaa-e8776bd7999d attrs 0800000000000000 name \"home\"
2 new a.conf linux-generic start 2048 size 8192 id 0f6335f7-f5f3-4f84-b2b1-48862cde1d53 attrs 0000000000000000 name \"linux-generic\"
reset 0
ignored 0
steps 27 writes 20
applied
";

const AGAIN: &str = "plan target 131072 usable 2048-131038 disk 5604b68e-37df-48a8-a451-502e27e8ed09
1 same b.conf home start 10240 size 120792 id f459c701-a604-4b88-8aaa-e8776bd7999d attrs 0800000000000000 name \"home\"
2 same a.conf linux-generic start 2048 size 8192 id 0f6335f7-f5f3-4f84-b2b1-48862cde1d53 attrs 0000000000000000 name \"linux-generic\"
ignored 0
steps 0 writes 0
applied
";

#[derive(Clone, Copy)]
enum Command {
    Plan,
    Apply,
    Again,
}

#[derive(Drop)]
struct Told {
    status: u8,
    text: MemSink,
}

#[test]
fn a_partition_is_made_anew(rt: HostRuntime) -> Result<(), Fail> {
    let alloc = rt.alloc();
    let image = List::from_vec(vec![in alloc; 0u8; 64 * MIB]?);
    let mut disk = MemDisk::new(alloc, image, List::new(alloc));
    let first = run_with(alloc, Command::Again, Empty::Allow, FIRST, &mut disk)?;
    assert_eq!(rt; first.status, 0);
    let calls = disk.calls().len();

    let mixed = run_with(alloc, Command::Apply, Empty::Refuse, MIXED, &mut disk)?;
    assert_eq!(rt; mixed.status, 5);
    assert_eq!(rt; text_of(&mixed)?, "error 5 ResetMix b.conf\n");
    assert_eq!(rt; disk.calls().len(), calls + 1);

    let plan = run_with(alloc, Command::Plan, Empty::Refuse, THEN, &mut disk)?;
    assert_eq!(rt; plan.status, 0);
    assert_eq!(rt; text_of(&plan)?, PLAN);
    assert_eq!(rt; disk.calls().len(), calls + 1);

    let writes = disk.writes();
    let applied = run_with(alloc, Command::Apply, Empty::Refuse, THEN, &mut disk)?;
    assert_eq!(rt; applied.status, 0);
    assert_eq!(rt; text_of(&applied)?, APPLIED);
    assert_eq!(rt; disk.writes(), writes + 20);

    let calls = disk.calls().len();
    let again = run_with(alloc, Command::Again, Empty::Refuse, THEN, &mut disk)?;
    assert_eq!(rt; again.status, 0);
    assert_eq!(rt; text_of(&again)?, AGAIN);
    assert_eq!(rt; disk.calls().len(), calls + 1);
    Ok(())
}

// What a command tells by definitions; `Again` is `apply` without a reset.
fn run_with(
    alloc: Global,
    command: Command,
    empty: Empty,
    files: [(&str, &str); 2],
    disk: &mut MemDisk,
) -> Result<Told, Fail> {
    let request = Request {
        seed: Guid([0, 0, 0, 0, 0, 0, 0, 0, 0, 0, 0, 0, 0, 0, 0, 1]),
        arch: Arch::X86_64,
        empty,
        size: 0,
        sector: 512,
    };
    let dirs = folder(alloc)?;
    let mut there = List::new(alloc);
    for (path, text) in files {
        there.push(Stored {
            path: Text::from_str(alloc, path)?,
            bytes: List::from_vec(text.as_bytes().to_vec(alloc)?),
        })?;
    }
    let mut folders = MemFolders::new(folder(alloc)?, there, List::new(alloc));
    let mut sources = MemSources::new(List::new(alloc), List::new(alloc));
    let mut text = MemSink::new(alloc, List::new(alloc));
    let dirs = dirs.as_slice();
    let status = match command {
        Command::Plan => plan_reset(
            alloc,
            request,
            false,
            dirs,
            disk,
            &mut folders,
            &mut sources,
            &mut text,
        ),
        Command::Apply => apply_reset(
            alloc,
            request,
            false,
            dirs,
            disk,
            &mut folders,
            &mut sources,
            &mut text,
        ),
        Command::Again => apply(
            alloc,
            request,
            false,
            dirs,
            disk,
            &mut folders,
            &mut sources,
            &mut text,
        ),
    };
    Ok(Told { status, text })
}

// The one folder of definitions.
fn folder(alloc: Global) -> Result<List<Text>, Fail> {
    let mut dirs = List::new(alloc);
    dirs.push(Text::from_str(alloc, "d")?)?;
    Ok(dirs)
}

fn text_of(told: &Told) -> Result<&str, Fail> {
    Ok(str::from_utf8(told.text.bytes())?)
}
