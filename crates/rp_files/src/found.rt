ghost use Rattle.std.specs.Prelude.{◌≡◌, ◌++◌, ◌∷◌, [], map, string_bytes, IfOk, IfErr, OnOk, IfSome};
ghost use Rattle.rp_files.specs.Pieces as grammar;
ghost use Rattle.rp_files.specs.Faults.{HasLoadCause, IsPassed};
ghost use Rattle.rp_files.specs.Found.{AddsNames, AddsFolder, bytes_of, found_of, group_of};

use crate::LoadFault;
use rp_base::{List, Memory, Text};
use rp_io::Folders;
use std::alloc::{AllocError, Global};
use std::collections::BTreeMap;

/// A main file with its drop-ins, each by its name and its path.
#[derive(Drop)]
pub(crate) struct Group {
    pub(crate) main: (String, String),
    pub(crate) parts: Vec<(String, String)>,
}

// Whether a file of this name counts.
fn is_candidate(name: &str) -> bool
    ensures { result ≡ grammar.is_candidate name.now }
{
    name.ends_with(".conf") && !name.starts_with(".")
}

// The path of a name in a folder.
fn path_in(alloc: Global, folder: &str, name: &str) -> Result<String, AllocError>
    ensures { IfOk result (λ path. string_bytes path ≡ folder.now ++ 47 ∷ name.now) }
{
    let mut path = String::from_str(alloc, folder)?;
    path.push('/')?;
    path.push_str(name)?;
    Ok(path)
}

// Adds a name of a folder, if it is a candidate that no folder before has.
fn add_name(
    alloc: Global,
    found: &mut BTreeMap<String, String>,
    folder: &str,
    name: &str,
) -> Result<(), LoadFault>
    ensures found { OnOk result (AddsNames folder.now (name.now ∷ []) found.old.entries found.new.entries) }
    ensures fault { IfErr result (λ fault. fault ≡ LoadFault.Memory) }
{
    if !is_candidate(name) {
        return Ok(());
    }
    if found.contains_key(name) {
        return Ok(());
    }
    let path = path_in(alloc, folder, name)?;
    let key = String::from_str(alloc, name)?;
    found.insert(key, path)?;
    Ok(())
}

// Adds the candidates of a folder that no folder before has.
fn add_names(
    alloc: Global,
    found: &mut BTreeMap<String, String>,
    folder: &str,
    names: &[Text],
) -> Result<(), LoadFault>
    ensures found { OnOk result (AddsNames folder.now names.now found.old.entries found.new.entries) }
    ensures fault { IfErr result (λ fault. fault ≡ LoadFault.Memory) }
{
    for name in names {
        add_name(alloc, found, folder, name.as_str())?;
    }
    Ok(())
}

// Adds the candidates of a folder, none where it isn't there.
fn add_folder<F: Folders>(
    alloc: Global,
    folders: &mut F,
    found: &mut BTreeMap<String, String>,
    dir: &str,
) -> Result<(), LoadFault>
    ensures told { F.told folders.new ≡ F.told folders.old }
    ensures found { IfSome (F.told folders.old) (λ tree. OnOk result (AddsFolder tree dir.now found.old.entries found.new.entries)) }
    ensures fault { IfErr result IsPassed }
    ensures strays { IfSome (F.told folders.old) (λ _. F.strays folders.new ≡ F.strays folders.old) }
    ensures cause { HasLoadCause (F.faults folders.old) (F.faults folders.new) result }
{
    match folders.list(alloc, dir)? {
        Some(names) => add_names(alloc, found, dir, names.as_slice()),
        None => Ok(()),
    }
}

// The files that win in these folders, by name: of one name in several that of the folder given first.
pub(crate) fn winners<F: Folders>(
    alloc: Global,
    folders: &mut F,
    dirs: &[Text],
) -> Result<Vec<(String, String)>, LoadFault>
    ensures told { F.told folders.new ≡ F.told folders.old }
    ensures found { IfSome (F.told folders.old) (λ tree. IfOk result (λ found. found_of found.items ≡ grammar.winners tree dirs.now)) }
    ensures fault { IfErr result IsPassed }
    ensures strays { IfSome (F.told folders.old) (λ _. F.strays folders.new ≡ F.strays folders.old) }
    ensures cause { HasLoadCause (F.faults folders.old) (F.faults folders.new) result }
{
    let mut found = BTreeMap::new(alloc);
    for dir in dirs {
        add_folder(alloc, folders, &mut found, dir.as_str())?;
    }
    Ok(found.into_iter().collect(alloc)?)
}

// The folders of the drop-ins of a main file.
fn drop_in_folders(alloc: Global, dirs: &[Text], name: &str) -> Result<List<Text>, LoadFault>
    ensures folders { IfOk result (λ folders. folders ≡ grammar.drop_in_folders dirs.now name.now) }
    ensures fault { IfErr result (λ fault. fault ≡ LoadFault.Memory) }
{
    let mut folders = List::new(alloc);
    for dir in dirs {
        let mut folder = path_in(alloc, dir.as_str(), name)?;
        folder.push_str(".d")?;
        folders.push(Text::from_string(folder))?;
    }
    Ok(folders)
}

// The main files that win, each with its drop-ins that win.
pub(crate) fn groups<F: Folders>(
    alloc: Global,
    folders: &mut F,
    dirs: &[Text],
) -> Result<Vec<Group>, LoadFault>
    ensures told { F.told folders.new ≡ F.told folders.old }
    ensures groups { IfSome (F.told folders.old) (λ tree. IfOk result (λ kept. map group_of kept.items ≡ grammar.groups tree dirs.now)) }
    ensures fault { IfErr result IsPassed }
    ensures strays { IfSome (F.told folders.old) (λ _. F.strays folders.new ≡ F.strays folders.old) }
    ensures cause { HasLoadCause (F.faults folders.old) (F.faults folders.new) result }
{
    let mains = winners(alloc, folders, dirs)?;
    let mut groups = Vec::new(alloc);
    for main in &mains {
        groups.push(group_of_main(alloc, folders, dirs, main)?)?;
    }
    Ok(groups)
}

// A main file with its drop-ins.
fn group_of_main<F: Folders>(
    alloc: Global,
    folders: &mut F,
    dirs: &[Text],
    main: &(String, String),
) -> Result<Group, LoadFault>
    ensures told { F.told folders.new ≡ F.told folders.old }
    ensures group { IfSome (F.told folders.old) (λ tree. IfOk result
        (λ kept. group_of kept ≡ grammar.group_at tree dirs.now (bytes_of main.now))) }
    ensures fault { IfErr result IsPassed }
    ensures strays { IfSome (F.told folders.old) (λ _. F.strays folders.new ≡ F.strays folders.old) }
    ensures cause { HasLoadCause (F.faults folders.old) (F.faults folders.new) result }
{
    let drop_ins = drop_in_folders(alloc, dirs, main.0.as_str())?;
    let parts = winners(alloc, folders, drop_ins.as_slice())?;
    let name = String::from_str(alloc, main.0.as_str())?;
    let path = String::from_str(alloc, main.1.as_str())?;
    Ok(Group {
        main: (name, path),
        parts,
    })
}
