ghost use Rattle.std.specs.Prelude.{◌≡◌, ◌<◌, [], ◌∷◌, map, length, slice_set, IfOk};
ghost use Rattle.rp_defs.specs.Kept.{counting_of, keyed, unless_empty};
ghost use Rattle.rp_defs.specs.Counting.{CountsAlso};

use crate::keys::{KEYS, place_of};
use crate::setting::Setting;
use rp_base::{List, Memory, Text};
use rp_files::Piece;
use rp_ini::Assign;
use std::alloc::Global;

/// The settings that count where nothing is assigned: of each key none.
pub(crate) fn no_settings(alloc: Global) -> Result<List<Option<Setting>>, Memory>
    ensures { IfOk result (λ counting. counting ≡ counting_of []) }
{
    let mut counting = List::new(alloc);
    for _ in 0..KEYS {
        counting.push(None)?;
    }
    Ok(counting)
}

/// The settings that count after some assignments of a piece.
pub(crate) fn with_assigns(
    alloc: Global,
    counting: List<Option<Setting>>,
    piece: &Piece,
    assigns: &[Assign],
) -> Result<List<Option<Setting>>, Memory>
    requires { length counting ≡ 26 }
    ensures also { IfOk result (CountsAlso (map (keyed piece.now) assigns.now) counting) }
{
    let mut counting = counting;
    for assign in assigns {
        counting = with_assign(alloc, counting, piece, assign)?;
    }
    Ok(counting)
}

// The settings that count after one more assignment; that of an unknown key counts nowhere.
fn with_assign(
    alloc: Global,
    counting: List<Option<Setting>>,
    piece: &Piece,
    assign: &Assign,
) -> Result<List<Option<Setting>>, Memory>
    requires { length counting ≡ 26 }
    ensures also { IfOk result (CountsAlso (keyed piece.now assign.now ∷ []) counting) }
    ensures full { IfOk result (λ now. length now ≡ 26) }
{
    let Some(place) = place_of(assign.key.as_str()) else {
        return Ok(counting);
    };
    let setting = setting_of(alloc, piece, assign)?;
    Ok(with_setting(counting, place, setting))
}

fn with_setting(
    counting: List<Option<Setting>>,
    place: usize,
    setting: Option<Setting>,
) -> List<Option<Setting>>
    requires { place < length counting }
    ensures { result ≡ slice_set counting place setting }
{
    let mut counting = counting.into_vec();
    counting[place] = setting;
    List::from_vec(counting)
}

// The setting of an assignment, none where its value is empty.
fn setting_of(alloc: Global, piece: &Piece, assign: &Assign) -> Result<Option<Setting>, Memory>
    ensures { IfOk result (λ setting. setting ≡ unless_empty (keyed piece.now assign.now)) }
{
    if assign.value.as_str().is_empty() {
        return Ok(None);
    }
    Ok(Some(Setting {
        part: Text::from_str(alloc, piece.part.as_str())?,
        value: Text::from_str(alloc, assign.value.as_str())?,
        line: assign.line,
    }))
}
