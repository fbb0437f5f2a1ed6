use rp_base::{List, Text};
use rp_files::{LoadFault, load};
use rp_io::{Folders, MemFolders, Stored};
use std::fmt::Write;
use std::test::Fail;

fn folders(
    rt: &impl AllocGlobal,
    dirs: &[&str],
    files: &[(&str, &str)],
    fail: u64,
) -> Result<MemFolders, Fail> {
    let mut there = List::new(rt.alloc());
    for dir in dirs {
        there.push(Text::from_str(rt.alloc(), dir)?)?;
    }
    let mut stored = List::new(rt.alloc());
    for (path, bytes) in files {
        stored.push(Stored {
            path: Text::from_str(rt.alloc(), path)?,
            bytes: List::from_vec(bytes.as_bytes().to_vec(rt.alloc())?),
        })?;
    }
    let mut failing = List::new(rt.alloc());
    failing.push(fail)?;
    Ok(MemFolders::new(there, stored, failing))
}

fn shown(rt: &impl AllocGlobal, folders: &mut MemFolders, dirs: &[&str]) -> Result<String, Fail> {
    let mut asked = List::new(rt.alloc());
    for dir in dirs {
        asked.push(Text::from_str(rt.alloc(), dir)?)?;
    }
    let mut text = String::new(rt.alloc());
    match load(rt.alloc(), folders, asked.as_slice()) {
        Err(LoadFault::FolderFault) => text.push_str("FolderFault")?,
        Err(LoadFault::TooMany) => text.push_str("TooMany")?,
        Err(LoadFault::TooBig { file, part }) => write!(
            text,
            "TooBig {} {}",
            file.as_str(),
            part.as_str()
        )?,
        Err(LoadFault::Memory) => text.push_str("Memory")?,
        Ok(pieces) => {
            for piece in pieces.as_slice() {
                write!(
                    text,
                    "{} {} {};",
                    piece.file.as_str(),
                    piece.part.as_str(),
                    piece.bytes.len()
                )?;
            }
        }
    }
    Ok(text)
}

#[test]
fn two_folders_with_drop_in_and_masking(rt: HostRuntime) -> Result<(), Fail> {
    let files = [
        ("/usr/b.conf", "12"),
        ("/usr/a.conf", "1"),
        ("/usr/c.conf", "123"),
        ("/usr/.x.conf", "1"),
        ("/usr/d.txt", "1"),
        ("/usr/a.conf.d/20.conf", "12"),
        ("/usr/c.conf.d/20.conf", "12"),
        ("/usr/z.conf.d/20.conf", "12"),
        ("/etc/b.conf", "1234"),
        ("/etc/c.conf", ""),
        ("/etc/a.conf.d/10.conf", "1"),
        ("/etc/a.conf.d/20.conf", ""),
    ];
    let there = [
        "/usr",
        "/etc",
        "/usr/a.conf.d",
        "/etc/a.conf.d",
        "/usr/c.conf.d",
        "/usr/z.conf.d",
    ];
    let asked = ["/etc", "/none", "/usr"];
    let mut all = folders(&rt, &there, &files, 0)?;
    let got = shown(&rt, &mut all, &asked)?;
    assert_eq!(rt; got.as_str(), "a.conf  1;a.conf 10.conf 1;b.conf  4;");
    assert_eq!(rt; all.faults(), 0);
    let mut failing = folders(&rt, &there, &files, 2)?;
    let got = shown(&rt, &mut failing, &asked)?;
    assert_eq!(rt; got.as_str(), "FolderFault");
    assert_eq!(rt; failing.faults(), 1);
    Ok(())
}

// So many files of so many bytes in /usr, the last of them `last.conf`.
fn alike(rt: &impl AllocGlobal, count: usize, bytes: usize) -> Result<MemFolders, Fail> {
    let mut there = List::new(rt.alloc());
    there.push(Text::from_str(rt.alloc(), "/usr")?)?;
    let mut stored = List::new(rt.alloc());
    for n in 1..count {
        stored.push(Stored {
            path: Text::from_string(format!(in rt.alloc(); "/usr/{n}.conf")?),
            bytes: List::from_vec(vec![in rt.alloc(); 0; bytes]?),
        })?;
    }
    stored.push(Stored {
        path: Text::from_str(rt.alloc(), "/usr/last.conf")?,
        bytes: List::from_vec(vec![in rt.alloc(); 0; bytes]?),
    })?;
    Ok(MemFolders::new(there, stored, List::new(rt.alloc())))
}

#[test]
fn more_than_256_names(rt: HostRuntime) -> Result<(), Fail> {
    let got = shown(&rt, &mut alike(&rt, 256, 1)?, &["/usr"])?;
    assert!(rt; got.as_str().ends_with("99.conf  1;last.conf  1;"));
    let got = shown(&rt, &mut alike(&rt, 257, 1)?, &["/usr"])?;
    assert_eq!(rt; got.as_str(), "TooMany");
    Ok(())
}

#[test]
fn more_than_65536_bytes(rt: HostRuntime) -> Result<(), Fail> {
    let got = shown(&rt, &mut alike(&rt, 1, 65_536)?, &["/usr"])?;
    assert_eq!(rt; got.as_str(), "last.conf  65536;");
    let got = shown(&rt, &mut alike(&rt, 1, 65_537)?, &["/usr"])?;
    assert_eq!(rt; got.as_str(), "TooBig last.conf ");
    Ok(())
}
