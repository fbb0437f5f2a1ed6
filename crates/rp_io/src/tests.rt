//! What no clause says of the host's forms: the calls themselves, on real files, and on a folder and an output whose
//! answers are chosen.
use crate::fake::{FakeNames, FakeOutput};
use crate::host_folders::{names_in, read_listing};
use crate::{Content, Folders, HostFolders, HostSink, HostSources, IoFault, Sink, Sources};
use rp_base::{Failed, List, Text};
use std::alloc::Global;
use std::cell::Cell;
use std::io::ErrorKind;
use std::os::fd::AsRawFd;
use std::os::unix::fs::symlink;
use std::process::Abort;
use std::rt::Files;
use std::test::Fail;
use std::{env, fs, process};

fn has_name(names: &List<Text>, name: &str) -> bool {
    names.as_slice().iter().any(|each| each.as_str() == name)
}

// A folder of this process for a test's files.
fn own_folder(rt: &HostRuntime, name: &str) -> Result<String, Fail> {
    let top = env::temp_dir(rt)?;
    let top = top.as_path().to_str().ok_or("text")?;
    let folder = format!(in rt.alloc(); "{top}/rp_io-{name}-{}", process::id(rt.process()))?;
    fs::create_dir(rt, folder.as_str())?;
    Ok(folder)
}

fn path_in(rt: &HostRuntime, folder: &String, name: &str) -> Result<String, Fail> {
    Ok(format!(in rt.alloc(); "{}/{name}", folder.as_str())?)
}

#[test]
fn folders_of_real_files(rt: HostRuntime) -> Result<(), Fail> {
    let folder = own_folder(&rt, "folders")?;
    let file = path_in(&rt, &folder, "a name.conf")?;
    let inner = path_in(&rt, &folder, "inner")?;
    fs::create_dir(&rt, inner.as_str())?;
    fs::write(&rt, file.as_str(), b"hello")?;
    symlink(
        &rt,
        "/dev/null",
        path_in(&rt, &folder, "null.conf")?.as_str(),
    )?;
    symlink(
        &rt,
        "nothing",
        path_in(&rt, &folder, "nothing.conf")?.as_str(),
    )?;
    symlink(&rt, "inner", path_in(&rt, &folder, "linked.conf")?.as_str())?;
    let mut folders = HostFolders::new(&rt);
    let names = folders.list(rt.alloc(), folder.as_str())?.ok_or("there")?;
    assert_eq!(rt; names.len(), 2);
    assert!(rt; has_name(&names, "a name.conf"));
    assert!(rt; has_name(&names, "null.conf"));
    assert!(rt;
        folders
            .list(rt.alloc(), inner.as_str())?
            .ok_or("empty")?
            .len()
            == 0
    );
    for (limit, whole) in [(5, true), (4, false)] {
        match folders.read(rt.alloc(), file.as_str(), limit)? {
            Content::Whole(bytes) => {
                assert!(rt; whole);
                assert_eq!(rt; bytes.as_slice(), b"hello".as_slice());
            }
            Content::More => assert!(rt; !whole),
        }
    }
    let long = "n".repeat(rt.alloc(), 250)?;
    let drop_ins = format!(in rt.alloc(); "{}/{}.conf.d", folder.as_str(), long.as_str())?;
    assert!(rt; folders.list(rt.alloc(), drop_ins.as_str())?.is_none());
    assert_eq!(rt; folders.faults(), 0);
    let too_long = format!(in rt.alloc(); "{}/{}-folder", folder.as_str(), long.as_str())?;
    assert!(rt; folders.list(rt.alloc(), too_long.as_str()).is_err());
    assert!(rt; folders.list(rt.alloc(), file.as_str()).is_err());
    assert!(rt; folders.read(rt.alloc(), folder.as_str(), 5).is_err());
    fs::remove_dir_all(&rt, folder.as_str())?;
    assert!(rt; folders.list(rt.alloc(), folder.as_str())?.is_none());
    assert!(rt; folders.read(rt.alloc(), file.as_str(), 5).is_err());
    assert_eq!(rt; folders.faults(), 4);
    Ok(())
}

// A read of the pipe would never end: its writing end stays open.
#[test]
fn a_pipe_is_a_fault(rt: HostRuntime) -> Result<(), Fail> {
    let (reader, writer) = rt.pipe()?;
    let path = format!(in rt.alloc(); "/proc/self/fd/{}", reader.as_raw_fd())?;
    let mut folders = HostFolders::new(&rt);
    assert!(rt; folders.read(rt.alloc(), path.as_str(), 5).is_err());
    let mut sources = HostSources::new(&rt);
    assert_eq!(rt; sources.len(path.as_str()), Err(Failed));
    assert!(rt; writer.as_raw_fd() > 0);
    Ok(())
}

#[test]
fn a_source_stays_the_same_file(rt: HostRuntime) -> Result<(), Fail> {
    let folder = own_folder(&rt, "sources")?;
    let file = path_in(&rt, &folder, "source")?;
    let other = path_in(&rt, &folder, "other")?;
    fs::write(&rt, file.as_str(), b"hello")?;
    fs::write(&rt, other.as_str(), b"another")?;
    let mut sources = HostSources::new(&rt);
    assert_eq!(rt; sources.len(file.as_str())?, 5);
    fs::rename(&rt, other.as_str(), file.as_str())?;
    let mut buf = [0; 3];
    sources.read(file.as_str(), 2, &mut buf)?;
    assert_eq!(rt; buf.as_slice(), b"llo".as_slice());
    sources.read(file.as_str(), 0, &mut buf)?;
    assert_eq!(rt; buf.as_slice(), b"hel".as_slice());
    sources.read(file.as_str(), 5, &mut [])?;
    assert_eq!(rt; sources.faults(), 0);
    assert_eq!(rt; sources.read(file.as_str(), 6, &mut []), Err(Failed));
    assert_eq!(rt; sources.read(file.as_str(), 3, &mut buf), Err(Failed));
    assert_eq!(rt; sources.len(folder.as_str()), Err(Failed));
    assert_eq!(rt; sources.faults(), 3);
    assert_eq!(rt; sources.len(file.as_str())?, 7);
    fs::remove_dir_all(&rt, folder.as_str())?;
    Ok(())
}

// How many names a folder has, each of whose reads gives these, with this error behind them.
fn count_of(
    alloc: Global,
    names: &'static [u8],
    reads: usize,
    last: Option<ErrorKind>,
) -> Result<usize, IoFault> {
    let mut folder = FakeNames {
        names,
        reads,
        last,
        is_new: true,
    };
    let listing = read_listing(alloc, &mut folder)?;
    Ok(names_in(alloc, &listing)?.len())
}

#[test]
fn reads_of_a_folder(rt: HostRuntime) -> Result<(), Fail> {
    let rows: [(
        &'static [u8],
        usize,
        Option<ErrorKind>,
        Result<usize, IoFault>,
    ); 5] = [
        (b"a\0.\0..\0b\0", 1, None, Ok(2)),
        (b"a\0b\0", 32_768, None, Ok(65_536)),
        (b"a\0b\0c\0", 21_846, None, Err(IoFault::Failed)),
        (b"a\0", 1, Some(ErrorKind::Other), Err(IoFault::Failed)),
        (
            b"a\0",
            1,
            Some(ErrorKind::OutOfMemory),
            Err(IoFault::Memory),
        ),
    ];
    for (names, reads, last, want) in rows {
        assert!(rt; count_of(rt.alloc(), names, reads, last) == want);
    }
    Ok(())
}

#[test]
fn a_piece_is_written_once(rt: HostRuntime) -> Result<(), Fail> {
    for (refusal, answer, written) in [
        (None, Ok(()), 4),
        (Some(ErrorKind::Interrupted), Err(Failed), 3),
    ] {
        let host = FakeOutput {
            refusal,
            written: Cell::new(0),
        };
        assert_eq!(rt; HostSink::new(&host).write(b"four"), answer);
        assert_eq!(rt; host.written.get(), written);
    }
    Ok(())
}
