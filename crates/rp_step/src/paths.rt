ghost use Rattle.std.specs.Prelude.{◌≡◌, ◌<◌, length};
ghost use Rattle.rp_step.specs.Sourced.{path_at};

use rp_base::{List, Text};

/// The path of this number.
pub fn path(paths: &List<Text>, file: u16) -> &str
    requires { file < length paths.now }
    ensures { result.now ≡ path_at paths.now file }
{
    paths.as_slice()[usize::from(file)].as_str()
}
