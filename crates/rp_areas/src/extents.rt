ghost use Rattle.std.specs.Prelude.{◌≡◌, ◌≢◌, ◌≤◌, ◌<◌, ◌^◌, ℕ, length, All, AllPairs, IfOk, IfSome, Option, slice_index_or, None};
ghost use Rattle.rp_areas.specs.Areas.{file_of, extents_of, by_start as sorted};

use rp_base::{Memory, Row};
use std::alloc::Global;
use std::collections::BTreeMap;

// The units of 512 bytes of a row, and the definition that it belongs to.
#[derive(Clone, Copy, Debug, PartialEq, Eq)]
pub struct Extent {
    pub start: u64,
    pub size: u64,
    pub file: Option<u16>,
}

// The units of each row with its definition, in slot order.
pub fn extents(alloc: Global, rows: &[Row], matched: &[Option<u16>]) -> Result<Vec<Extent>, Memory>
    requires few { length matched.now ≤ 65535 }
    requires places { All (λ place. IfSome place (λ p. p < length rows.now)) matched.now }
    ensures { IfOk result (λ extents. extents.items ≡ extents_of rows.now matched.now) }
{
    let files = files(alloc, rows.len(), matched)?;
    let mut extents = Vec::new(alloc);
    for (place, row) in rows.iter().enumerate() {
        extents.push(Extent {
            start: row.start,
            size: row.size,
            file: files[place],
        })?;
    }
    Ok(extents)
}

// For each of so many rows the definition that has it.
fn files(alloc: Global, rows: usize, matched: &[Option<u16>]) -> Result<Vec<Option<u16>>, Memory>
    requires few { length matched.now ≤ 65535 }
    requires places { All (λ place. IfSome place (λ p. p < rows)) matched.now }
    ensures len { IfOk result (λ files. length files.items ≡ rows) }
    ensures file { IfOk result (λ files. (p : ℕ) → p < rows → slice_index_or files.items p None ≡ file_of matched.now p) }
{
    let mut files = vec![in alloc; None; rows]?;
    for file in (0..matched.len()).rev() {
        if let Some(place) = matched[file] {
            files[place as usize] = Some(file as u16);
        }
    }
    Ok(files)
}

// The extents by rising start.
pub fn by_start(alloc: Global, extents: &[Extent]) -> Result<Vec<Extent>, Memory>
    requires { AllPairs (λ a b. a.start ≢ b.start) extents.now }
    ensures { IfOk result (λ ordered. ordered.items ≡ sorted extents.now) }
{
    let mut ordered = BTreeMap::new(alloc);
    for extent in extents {
        ordered.insert(extent.start, *extent)?;
    }
    Ok(ordered.values().copied().collect(alloc)?)
}
