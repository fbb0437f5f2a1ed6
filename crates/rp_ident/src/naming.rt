ghost use Rattle.std.specs.Prelude.{◌≡◌, ◌<◌, All, fold, length, map};
ghost use Rattle.rp_ident.specs.Naming.{disk_id, labeled, leaves, named, rows_named};

use crate::IdentFault;
use crate::given::{give_derived, give_fixed};
use crate::used::used_of;
use rp_base::{Guid, Row, Table};
use rp_hmac::derive;

/// What a row is to be called: its place in the table's rows, the place of its definition, the label, and the fixed
/// identifier if there is one.
#[derive(Clone, Copy, Debug)]
pub struct Naming {
    pub row: u16,
    pub file: u16,
    pub label: [u16; 36],
    pub fixed: Option<Guid>,
}

/// The table with names and identifiers. A disk without an identifier gets a derived one, a named row without a name its
/// label, and each named row without an identifier its fixed one, in order, and then, in order, the first of 256 derived
/// for its type that no row has. At a fault the table is dropped. It takes no memory.
pub fn name_rows(mut table: Table, namings: &[Naming], seed: Guid) -> Result<Table, IdentFault>
    requires { All (λ naming. naming.row < length table.rows) namings.now }
    ensures { result ≡ named table namings.now seed }
{
    table.disk = disk_id(seed, table.disk);
    name_all(table.rows.as_mut_slice(), namings, seed)?;
    Ok(table)
}

// The disk's identifier, a derived one where there is none.
fn disk_id(seed: Guid, disk: Guid) -> Guid
    ensures { result ≡ disk_id seed disk }
{
    if disk.0 == [0; 16] {
        derive(seed, b"disk-uuid", 0)
    } else {
        disk
    }
}

// Names the rows.
fn name_all(rows: &mut [Row], namings: &[Naming], seed: Guid) -> Result<(), IdentFault>
    requires { All (λ naming. naming.row < length rows.old) namings.now }
    ensures { leaves result rows.new ≡ rows_named rows.old namings.now seed }
{
    label(rows, namings);
    let mut used = used_of(rows);
    give_fixed(rows, &mut used, namings)?;
    give_derived(rows, &mut used, namings, seed)
}

// Gives each named row without a name its label.
fn label(rows: &mut [Row], namings: &[Naming])
    requires { All (λ naming. naming.row < length rows.old) namings.now }
    ensures { rows.new ≡ fold labeled rows.old namings.now }
{
    for naming in namings {
        label_one(rows, naming);
    }
}

// Gives the row of a naming its label, if it has no name.
fn label_one(rows: &mut [Row], naming: &Naming)
    requires { naming.now.row < length rows.old }
    ensures { rows.new ≡ labeled rows.old naming.now }
{
    let row = &mut rows[naming.row as usize];
    if row.name[0] == 0 {
        row.name = naming.label;
    }
}
