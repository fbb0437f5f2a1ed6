ghost use Rattle.std.specs.Prelude.{◌≡◌, ◌<◌, map, position};
ghost use Rattle.std.specs.Str.{bytes_eq};
ghost use Rattle.rp_defs.specs.Keys.{key_name, key_names, is_key};
ghost use Rattle.rp_defs.specs.Readers.{keys, number_of, reader_of};

/// The keys of `[Partition]` (repart.d(5)), in the order in which they are read. A key's number in a fault is its place
/// here.
#[derive(Clone, Copy)]
pub(crate) enum Key {
    Type,
    Label,
    Uuid,
    Priority,
    Weight,
    PaddingWeight,
    SizeMinBytes,
    SizeMaxBytes,
    PaddingMinBytes,
    PaddingMaxBytes,
    CopyBlocks,
    Verity,
    VerityMatchKey,
    NoAuto,
    ReadOnly,
    GrowFileSystem,
    FactoryReset,
    CopyFiles,
    Encrypt,
    Flags,
    Format,
    MakeDirectories,
    Minimize,
    MountPoint,
    Subvolumes,
    SplitName,
}

impl Key {
    /// The key's number.
    pub(crate) fn number(self) -> usize
        ensures { result ≡ number_of self }
    {
        self as usize
    }
}

/// How the value of a key is read.
#[derive(Clone, Copy)]
pub(crate) enum Reader {
    /// A partition type.
    Type,
    /// A partition's name.
    Label,
    /// A partition's identifier.
    Id,
    Priority,
    Weight,
    /// A size in bytes.
    Size,
    /// The path of a file.
    Path,
    /// Which half of a verity pair a definition is.
    Half,
    MatchKey,
    Switch,
    SplitName,
    /// Not supported.
    Refused,
    /// Not supported but where it is `off`.
    Off,
}

/// How many keys there are.
pub(crate) const KEYS: usize = 26;

/// The name of each key and how its value is read, by number. The same table stands in specs/Readers.antt.
static TABLE: [(&str, Reader); KEYS] = [
    ("Type", Reader::Type),
    ("Label", Reader::Label),
    ("UUID", Reader::Id),
    ("Priority", Reader::Priority),
    ("Weight", Reader::Weight),
    ("PaddingWeight", Reader::Weight),
    ("SizeMinBytes", Reader::Size),
    ("SizeMaxBytes", Reader::Size),
    ("PaddingMinBytes", Reader::Size),
    ("PaddingMaxBytes", Reader::Size),
    ("CopyBlocks", Reader::Path),
    ("Verity", Reader::Half),
    ("VerityMatchKey", Reader::MatchKey),
    ("NoAuto", Reader::Switch),
    ("ReadOnly", Reader::Switch),
    ("GrowFileSystem", Reader::Switch),
    ("FactoryReset", Reader::Switch),
    ("CopyFiles", Reader::Refused),
    ("Encrypt", Reader::Off),
    ("Flags", Reader::Refused),
    ("Format", Reader::Refused),
    ("MakeDirectories", Reader::Refused),
    ("Minimize", Reader::Off),
    ("MountPoint", Reader::Refused),
    ("Subvolumes", Reader::Refused),
    ("SplitName", Reader::SplitName),
];

// The keys, by number.
fn keys() -> &'static [(&'static str, Reader)]
    ensures { map (λ row. (row.0.now, row.1)) result.now ≡ keys }
{
    &TABLE
}

/// The name of the key of a number, from 0 (`Type`) to 25 (`SplitName`).
pub fn key_name(key: u8) -> &'static str
    requires { key < 26 }
    ensures { result.now ≡ key_name key }
{
    keys()[usize::from(key)].0
}

/// How the value of the key of a number is read.
pub(crate) fn reader_of(key: u8) -> Reader
    requires { key < 26 }
    ensures { result ≡ reader_of key }
{
    keys()[usize::from(key)].1
}

/// The number of the key of this name, if it is a key's.
pub(crate) fn place_of(name: &str) -> Option<usize>
    ensures { result ≡ position (bytes_eq name.now) key_names }
{
    place_in(keys(), name)
}

fn place_in(keys: &[(&str, Reader)], name: &str) -> Option<usize>
    ensures { result ≡ position (λ row. bytes_eq name.now row.0.now) keys.now }
{
    keys.iter().position(|row| name == row.0)
}

/// Whether this is the name of a key.
pub(crate) fn is_key(name: &str) -> bool
    ensures { result ≡ is_key name.now }
{
    place_of(name).is_some()
}
