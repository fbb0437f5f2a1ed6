//! Which identifiers were tried for the types of late.

ghost use Rattle.std.specs.Prelude.{◌<◌, List};
ghost use Rattle.rp_base.specs.declared.guid.Guid.{Guid};
ghost use Rattle.rp_base.specs.declared.table.Row.{Row};
ghost use Rattle.rp_ident.specs.Tried.{AreTried, IsTried};

use rp_base::Guid;

/// How many types are remembered at most.
pub(crate) const KINDS: usize = 64;

/// A type, and the number before which each identifier derived for it is some row's.
#[derive(Clone, Copy)]
pub(crate) struct Tried {
    pub(crate) kind: Guid,
    pub(crate) next: u64,
}

/// The number before which each identifier derived for a type is some row's, as far as is remembered.
pub(crate) fn tried_of(tried: &[Tried; KINDS], kind: Guid) -> u64
    ensures { (seed : Guid) (rows : List Row) → AreTried seed rows tried.now → IsTried seed rows kind result }
{
    let last = &tried[slot_of(kind)];
    if last.kind == kind { last.next } else { 0 }
}

/// Remembers a type's number, in the place of another type's.
pub(crate) fn note(tried: &mut [Tried; KINDS], new: Tried)
    ensures { (seed : Guid) (rows : List Row) → AreTried seed rows tried.old → IsTried seed rows new.kind new.next
        → AreTried seed rows tried.new }
{
    tried[slot_of(new.kind)] = new;
}

// The place where a type is remembered.
fn slot_of(kind: Guid) -> usize
    ensures { result < 64 }
{
    kind.0[0] as usize % KINDS
}
