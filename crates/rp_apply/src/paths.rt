ghost use Rattle.std.specs.Prelude.{◌≡◌, IfOk};
ghost use Rattle.rp_apply.specs.Sourced.{path_in, paths_of as paths_in};

use rp_base::{List, Memory, Text};
use rp_defs::Definition;
use std::alloc::Global;

// The path of the source of each definition, empty where it has none.
pub fn paths_of(alloc: Global, defs: &[Definition]) -> Result<List<Text>, Memory>
    ensures { IfOk result (λ paths. paths ≡ paths_in defs.now) }
{
    let mut paths = List::new(alloc);
    for definition in defs {
        paths.push(path_of(alloc, definition)?)?;
    }
    Ok(paths)
}

// The path of the source of a definition.
fn path_of(alloc: Global, definition: &Definition) -> Result<Text, Memory>
    ensures { IfOk result (λ path. path ≡ path_in definition.now) }
{
    match &definition.source {
        Some(path) => Text::from_str(alloc, path.as_str()),
        None => Ok(Text::new(alloc)),
    }
}
