//! Definition files to records: folders in memory, loaded and read.

use crate::printed::{push_definition, push_fault};
use rp_base::{List, Text};
use rp_defs::read;
use rp_files::load;
use rp_io::{MemFolders, Stored};
use rp_types::Arch;
use std::alloc::Global;
use std::fmt::Write;
use std::test::Fail;

// Definition files, and what they give: the definitions, of each what isn't the default, or the fault. Lines are cut at `|`,
// files at ` & `: the first is a.conf, the next b.conf and so on. A file that begins with `+` is a drop-in, 1.conf and so on,
// of the file before. Each begins with the line `[Partition]`, but one that begins with `!`. `@` before all says arm64. NUL is
// ␀, ♠ is 32 letters, ♣ is 64.
const ROWS: &str = r"
Type=swap => swap
Type=home => home attrs 0800000000000000
Type=root => root-x86-64 attrs 0800000000000000
@Type=root => root-arm64 attrs 0800000000000000
Type=root-verity => root-x86-64-verity attrs 1000000000000000
@Type=root-verity => root-arm64-verity attrs 1000000000000000
Type=usr-arm64-verity-sig => usr-arm64-verity-sig attrs 1000000000000000
Type=0fc63daf84834772 8e793d69d8477de4 => a.conf:2 BadValue Type
Type=0fc63daf848347728e793d69d8477de4 => linux-generic
Type={0FC63DAF-8483-4772-8E79-3D69D8477DE4} => linux-generic
Type=urn:uuid:01234567-89ab-cdef-0123-456789abcdef => 01234567-89ab-cdef-0123-456789abcdef
Type={0fc63daf848347728e793d69d8477de4} => a.conf:2 BadValue Type
Type=00000000-0000-0000-0000-000000000000 => a.conf:2 BadValue Type
Type=Root => a.conf:2 BadValue Type
Type=%a => a.conf:2 BadValue Type
Type= => a.conf:0 NoType
Weight=1000001 => a.conf:0 NoType
type=swap => a.conf:0 NoType
Type=swap|Label=big data => swap label big data
Type=swap|Label=%a%% => swap label x86-64%
@Type=swap|Label=<%a> => swap label <arm64>
Type=swap|Label=%x => a.conf:3 BadValue Label
Type=swap|Label=100% => a.conf:3 BadValue Label
Type=swap|Label=♠1234 => swap label ♠1234
Type=swap|Label=♠12345 => a.conf:3 LabelTooLong
Type=swap|Label=♠12😀 => swap label ♠12\ud83d\ude00
Type=swap|Label=♠123😀 => a.conf:3 LabelTooLong
Type=swap|Label=♣%x => a.conf:3 BadValue Label
Type=swap|Label=♣␀ => a.conf:3 LabelTooLong
Type=swap|Label=a␀b => a.conf:3 BadValue Label
Type=swap|Label= => swap
Type=swap|UUID=11111111-2222-4333-8444-555555555555 => swap id 11111111-2222-4333-8444-555555555555
Type=swap|UUID={11111111-2222-4333-8444-55555555555A} => swap id 11111111-2222-4333-8444-55555555555a
Type=swap|UUID=URN:UUID:11111111-2222-4333-8444-555555555555 => swap id 11111111-2222-4333-8444-555555555555
Type=swap|UUID=null => a.conf:3 Unsupported UUID
Type=swap|UUID=NULL => a.conf:3 BadValue UUID
Type=swap|UUID=00000000000000000000000000000000 => a.conf:3 BadValue UUID
Type=swap|Priority=+0 => swap
Type=swap|Priority=-0 => swap
Type=swap|Priority=+7 => swap priority 7
Type=swap|Priority=010 => swap priority 10
Type=swap|Priority=-2147483648 => swap priority -2147483648
Type=swap|Priority=2147483647 => swap priority 2147483647
Type=swap|Priority=2147483648 => a.conf:3 BadValue Priority
Type=swap|Priority=-2147483649 => a.conf:3 BadValue Priority
Type=swap|Priority=- => a.conf:3 BadValue Priority
Type=swap|Priority=1.0 => a.conf:3 BadValue Priority
Type=swap|Weight=0 => swap weight 0
Type=swap|Weight=1000000 => swap weight 1000000
Type=swap|Weight=1000001 => a.conf:3 BadValue Weight
Type=swap|Weight=+1 => a.conf:3 BadValue Weight
Type=swap|PaddingWeight=1000 => swap padding 0-4503599627370496 weight 1000
Type=swap|PaddingWeight=-1 => a.conf:3 BadValue PaddingWeight
Type=swap|SizeMinBytes=1 => swap min 1
Type=swap|SizeMinBytes=0 => swap min 1
Type=swap|SizeMinBytes=4096B => swap min 1
Type=swap|SizeMinBytes=4097 => swap min 2
Type=swap|SizeMinBytes=3T => swap min 805306368
Type=swap|SizeMinBytes=1152921504606846976 => swap min 281474976710656
Type=swap|SizeMinBytes=1152921504606846977 => a.conf:3 BadValue SizeMinBytes
Type=swap|SizeMinBytes=1048576T => swap min 281474976710656
Type=swap|SizeMinBytes=1.5G => a.conf:3 BadValue SizeMinBytes
Type=swap|SizeMinBytes=64m => a.conf:3 BadValue SizeMinBytes
Type=swap|SizeMinBytes=1 G => a.conf:3 BadValue SizeMinBytes
Type=swap|SizeMaxBytes=4097 => swap min 1 max 1
Type=swap|SizeMaxBytes=8191 => swap min 1 max 1
Type=swap|SizeMaxBytes=4095 => a.conf:0 Limits
Type=swap|SizeMaxBytes=0 => a.conf:0 Limits
Type=swap|SizeMaxBytes=1G => swap max 262144
Type=swap|SizeMaxBytes=1048577T => a.conf:3 BadValue SizeMaxBytes
Type=swap|SizeMinBytes=8M|SizeMaxBytes=4M => a.conf:0 Limits
Type=swap|SizeMinBytes=4097|SizeMaxBytes=8191 => a.conf:0 Limits
Type=swap|PaddingMinBytes=1B|PaddingMaxBytes=8K => swap padding 1-2 weight 0
Type=swap|PaddingMinBytes=1|PaddingMaxBytes=4095 => a.conf:0 Limits
Type=swap|PaddingMaxBytes=0 => swap padding 0-0 weight 0
Type=swap|PaddingMinBytes=K => a.conf:3 BadValue PaddingMinBytes
Type=swap|PaddingMaxBytes=99999999999999999999999T => a.conf:3 BadValue PaddingMaxBytes
Type=swap|Size=1.5G => swap; ignored 1
Type=swap|CopyBlocks=/images/%a.raw => swap source /images/x86-64.raw
Type=swap|CopyBlocks=50%% => swap source 50%
Type=swap|CopyBlocks=auto => a.conf:3 Unsupported CopyBlocks
Type=swap|CopyBlocks=% => a.conf:3 BadValue CopyBlocks
Type=swap|CopyBlocks=a␀ => a.conf:3 BadValue CopyBlocks
Type=root|Verity=signature|VerityMatchKey=m => a.conf:3 Unsupported Verity
Type=root|Verity=Data => a.conf:3 BadValue Verity
Type=root|Verity=off|VerityMatchKey=m => root-x86-64 attrs 0800000000000000
Type=swap|VerityMatchKey=♣ => swap
Type=swap|VerityMatchKey=♣1 => a.conf:3 BadValue VerityMatchKey
Type=swap|VerityMatchKey=♠ßßßßßßßßßßßßßßßßß => a.conf:3 BadValue VerityMatchKey
Type=swap|VerityMatchKey=%x => swap
Type=root|Verity=data|VerityMatchKey=m|CopyBlocks=r => a.conf:0 VerityPair
Type=root|Verity=data|VerityMatchKey=m|CopyBlocks=r & Type=usr|Verity=data|VerityMatchKey=m|CopyBlocks=u => a.conf:0 VerityPair
Type=root-verity|Verity=hash|VerityMatchKey=m & Type=usr-verity|Verity=hash|VerityMatchKey=m => a.conf:0 VerityPair
Type=root|Verity=data|VerityMatchKey=m|CopyBlocks=r & Type=root-verity|Verity=hash|VerityMatchKey=m & Type=usr-verity|Verity=hash|VerityMatchKey=m => a.conf:0 VerityPair
Type=root|Verity=data|VerityMatchKey=m|CopyBlocks=r & Type=root-verity|Verity=hash|VerityMatchKey=M => a.conf:0 VerityPair
Type=root|Verity=data|VerityMatchKey=m|CopyBlocks=r|SizeMinBytes=0|PaddingWeight=5 & Type=root-verity|Verity=hash|VerityMatchKey=m|SizeMinBytes=1 => root-x86-64 min 0 weight 0 padding 0-4503599627370496 weight 5 attrs 0800000000000000 source r data 1; root-x86-64-verity min 1 weight 0 attrs 1000000000000000 hash 0
Type=root|Verity=data|VerityMatchKey=m|CopyBlocks=r|SizeMinBytes=8K|SizeMaxBytes=4K => a.conf:0 Limits
Type=root|Verity=data|VerityMatchKey=m|CopyBlocks=r|Weight=x & Type=root-verity|Verity=hash|VerityMatchKey=m => a.conf:6 BadValue Weight
Type=root|Verity=data|VerityMatchKey=m|CopyBlocks=r|Priority=5 & Type=root-verity|Verity=hash|VerityMatchKey=m|Priority=-3 => root-x86-64 priority 5 min 0 weight 0 attrs 0800000000000000 source r data 1; root-x86-64-verity priority 5 min 0 weight 0 attrs 1000000000000000 hash 0
Type=usr-verity|Verity=hash|VerityMatchKey=m|SizeMinBytes=1M|SizeMaxBytes=1M|Weight=7 & Type=swap & Type=usr|Verity=data|VerityMatchKey=m|CopyBlocks=u|ReadOnly=yes|Priority=1 => usr-x86-64-verity priority 1 min 256 max 256 weight 0 attrs 1000000000000000 hash 2; swap; usr-x86-64 priority 1 min 0 weight 0 attrs 1000000000000000 source u data 0
Type=usr-verity|Verity=hash|SizeMaxBytes=4095|VerityMatchKey=m & Type=usr|Verity=data|VerityMatchKey=m|CopyBlocks=u => usr-x86-64-verity min 0 max 0 weight 0 attrs 1000000000000000 hash 1; usr-x86-64 min 0 weight 0 attrs 0800000000000000 source u data 0
Type=root|Verity=data|VerityMatchKey=m|CopyBlocks=r & Type=root-verity|Verity=hash|VerityMatchKey=n => a.conf:0 VerityPair
Type=root-verity|Verity=hash|VerityMatchKey=m & Type=root|Verity=data|VerityMatchKey=m => b.conf:0 VerityPair
Type=root|Verity=data|VerityMatchKey=m|CopyBlocks=r & Type=root-verity|Verity=hash|VerityMatchKey=m|CopyBlocks=h => b.conf:0 VerityPair
Type=root|Verity=data|VerityMatchKey=m|CopyBlocks=r & Type=usr|Verity=data|VerityMatchKey=m|CopyBlocks=u & Type=root-verity|Verity=hash|VerityMatchKey=m => a.conf:0 VerityPair
Type=root|Verity=data|VerityMatchKey=m|CopyBlocks=r & Type=usr|VerityMatchKey=m|CopyBlocks=u & Type=root-verity|Verity=hash|VerityMatchKey=m => root-x86-64 min 0 weight 0 attrs 0800000000000000 source r data 2; usr-x86-64 attrs 0800000000000000 source u; root-x86-64-verity min 0 weight 0 attrs 1000000000000000 hash 0
Type=root-verity|Verity=hash => a.conf:0 VerityPair
Type=swap & Type=root|Verity=data|CopyBlocks=r|VerityMatchKey= => b.conf:0 VerityPair
Type=root|Verity=data|VerityMatchKey=m & Type=nothing => b.conf:2 BadValue Type
Type=home|NoAuto=YES => home attrs 8800000000000000
Type=home|ReadOnly=1 => home attrs 1000000000000000
Type=home|ReadOnly=on|GrowFileSystem=t => home attrs 1800000000000000
Type=home|GrowFileSystem=No => home
Type=swap|ReadOnly=yes|NoAuto=y|GrowFileSystem=true => swap attrs 8000000000000000
Type=esp|NoAuto=yes|ReadOnly=yes|GrowFileSystem=yes => esp
Type=01234567-89ab-cdef-0123-456789abcdef|NoAuto=yes => 01234567-89ab-cdef-0123-456789abcdef
Type=root-verity|ReadOnly=off|GrowFileSystem=yes => root-x86-64-verity
Type=swap|NoAuto=maybe => a.conf:3 BadValue NoAuto
Type=swap|ReadOnly=2 => a.conf:3 BadValue ReadOnly
Type=swap|GrowFileSystem=onn => a.conf:3 BadValue GrowFileSystem
Type=swap|FactoryReset=TRUE => swap reset
Type=swap|FactoryReset=f => swap
Type=swap|FactoryReset=never => a.conf:3 BadValue FactoryReset
Type=swap|CopyFiles=/a:/b => a.conf:3 Unsupported CopyFiles
Type=swap|Encrypt=off => swap
Type=swap|Encrypt=OFF => a.conf:3 Unsupported Encrypt
Type=swap|Encrypt=tpm2 => a.conf:3 Unsupported Encrypt
Type=swap|Flags=0 => a.conf:3 Unsupported Flags
Type=swap|Format=ext4 => a.conf:3 Unsupported Format
Type=swap|Format= => swap
Type=swap|MakeSymlinks=/a:/b => swap; ignored 1
Type=swap|MakeDirectories=/srv => a.conf:3 Unsupported MakeDirectories
Type=swap|Minimize=off => swap
Type=swap|Minimize=best => a.conf:3 Unsupported Minimize
Type=swap|MountPoint=/ => a.conf:3 Unsupported MountPoint
Type=swap|Subvolumes=/x => a.conf:3 Unsupported Subvolumes
Encrypt=x|Weight=x|Type=swap => a.conf:3 BadValue Weight
Type=swap|Format=ext4|CopyFiles=x => a.conf:4 Unsupported CopyFiles
SizeMinBytes=8M|SizeMaxBytes=4M|Type=swap|Subvolumes=x => a.conf:5 Unsupported Subvolumes
Type=swap|Weight=x|Weight=5 => swap weight 5
Type=swap|Weight=5|Weight=x => a.conf:4 BadValue Weight
Type=swap|Weight=5|Weight= => swap
Type=swap|Weight=5 & +Weight=7 => swap weight 7
Type=swap|Weight=5 & +Weight= => swap
Type=swap|Weight=x & +Weight= => swap
Type=swap & +Weight=x => a.conf.d/1.conf:2 BadValue Weight
Type=nothing & +!|x => a.conf.d/1.conf:2 BadLine
Type=swap|Label=a & +Label=b|Weight=1 & +Weight=2 & Type=esp & +Label=c => swap label b weight 2; esp label c
Type=swap|[Other]|A=1|B=2 => swap; ignored 2
Type=swap|X=1|X=|SplitName=a & +Y=1 & Type=esp|Z=1 => swap split a; esp; ignored 4
Type=swap|SplitName=%a.raw & Type=esp|SplitName=- => swap split x86-64.raw; esp
Type=swap|SplitName=a/b => a.conf:3 BadValue SplitName
Type=swap|Subvolumes=x|SplitName=.. => a.conf:3 Unsupported Subvolumes
![partition]|Type=swap => a.conf:0 NoType
![A]|Type=x|[Partition]|Type=swap|[A]|Type=y|[Partition]|Weight=3 => swap weight 3; ignored 2
!Weight=1 => a.conf:1 NoSection
!Weight => a.conf:1 BadLine
![Partition => a.conf:1 BadLine
";

// How many rows there are.
const COUNT: u64 = 158;

const LETTERS: &str = "abcdefghijklmnopqrstuvwxyz012345";

#[test]
fn rows(rt: HostRuntime) -> Result<(), Fail> {
    let mut count = 0u64;
    for row in ROWS.lines() {
        if let Some((files, want)) = row.split_once(" => ") {
            let want = meant(rt.alloc(), want)?;
            let got = shown(rt.alloc(), files)?;
            assert!(rt; got.as_str() == want.as_str(), "at {row}");
            count = count.saturating_add(1);
        }
    }
    assert_eq!(rt; count, COUNT);
    Ok(())
}

// The text that a row shows.
fn meant(alloc: Global, row: &str) -> Result<String, Fail> {
    let mut text = String::new(alloc);
    for c in row.chars() {
        match c {
            '|' => text.push('\n')?,
            '␀' => text.push('\0')?,
            '♠' => text.push_str(LETTERS)?,
            '♣' => {
                text.push_str(LETTERS)?;
                text.push_str(LETTERS)?;
            }
            other => text.push(other)?,
        }
    }
    Ok(text)
}

// What these files give.
fn shown(alloc: Global, row: &str) -> Result<String, Fail> {
    let (arch, files) = match row.strip_prefix('@') {
        Some(files) => (Arch::Arm64, files),
        None => (Arch::X86_64, row),
    };
    let mut folders = folders_of(alloc, files)?;
    let mut dirs = List::new(alloc);
    dirs.push(Text::from_str(alloc, "D")?)?;
    let Ok(pieces) = load(alloc, &mut folders, dirs.as_slice()) else {
        return Ok(String::from_str(alloc, "no pieces")?);
    };
    let mut text = String::new(alloc);
    match read(alloc, pieces.as_slice(), arch) {
        Err(fault) => push_fault(&mut text, &fault)?,
        Ok(definitions) => {
            let mut front = "";
            for definition in definitions.list.as_slice() {
                text.push_str(front)?;
                push_definition(&mut text, definition)?;
                front = "; ";
            }
            if definitions.ignored > 0 {
                write!(text, "; ignored {}", definitions.ignored)?;
            }
        }
    }
    Ok(text)
}

// The folder D with these files, and the folders of their drop-ins.
fn folders_of(alloc: Global, row: &str) -> Result<MemFolders, Fail> {
    let mut there = List::new(alloc);
    there.push(Text::from_str(alloc, "D")?)?;
    let mut files = List::new(alloc);
    let mut names = "abcdefgh".chars();
    let mut main = String::new(alloc);
    let mut part = 0u8;
    for file in row.split(" & ") {
        match file.strip_prefix('+') {
            None => {
                main = String::from_str(alloc, "D/")?;
                main.push(names.next().unwrap_or('z'))?;
                main.push_str(".conf")?;
                part = 0;
                files.push(stored(alloc, main.as_str(), file)?)?;
                let mut folder = String::from_str(alloc, main.as_str())?;
                folder.push_str(".d")?;
                there.push(Text::from_string(folder))?;
            }
            Some(own) => {
                part = part.saturating_add(1);
                let mut path = String::from_str(alloc, main.as_str())?;
                write!(path, ".d/{part}.conf")?;
                files.push(stored(alloc, path.as_str(), own)?)?;
            }
        }
    }
    Ok(MemFolders::new(there, files, List::new(alloc)))
}

fn stored(alloc: Global, path: &str, row: &str) -> Result<Stored, Fail> {
    let mut text = String::new(alloc);
    let lines = match row.strip_prefix('!') {
        Some(lines) => lines,
        None => {
            text.push_str("[Partition]\n")?;
            row
        }
    };
    text.push_str(meant(alloc, lines)?.as_str())?;
    Ok(Stored {
        path: Text::from_str(alloc, path)?,
        bytes: List::from_vec(text.into_bytes()),
    })
}
