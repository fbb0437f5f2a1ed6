ghost use Rattle.std.specs.Prelude.{◌≡◌, ◌<◌};
ghost use Rattle.rp_policy.specs.Flags.{has};
ghost use Rattle.rp_policy.specs.Judging.{bit_of, flags_of, helper_flags, judged, listed_or_default, place as place_of_designator, protects, strongest, used_as};

use crate::{Flags, Policy};
use rp_types::Designator;

/// What was found of a designator: the kinds of protection that are there, one or more, and its state.
#[derive(Clone, Copy, Debug, PartialEq, Eq)]
pub struct Found {
    pub kinds: Flags,
    pub read_only: bool,
    pub growfs: bool,
}

/// A kind of protection, from the strongest on.
#[derive(Clone, Copy, Debug, PartialEq, Eq)]
pub enum Kind {
    Signed,
    Verity,
    Encrypted,
    Unprotected,
}

/// Why a partition is denied.
#[derive(Clone, Copy, Debug, PartialEq, Eq)]
pub enum Rule {
    /// It isn't there, and has to be.
    Absence,
    /// No kind of protection that it has is allowed, and it may not stand unused.
    Protection,
    /// It is read-only, or isn't, against what is demanded.
    ReadOnly,
    /// It grows its file system, or doesn't, against what is demanded.
    GrowFs,
}

/// What a policy says of a designator.
#[derive(Clone, Copy, Debug, PartialEq, Eq)]
pub enum Judged {
    Absent,
    Ignored,
    Use(Kind),
    Denied(Rule),
}

/// The flags of a designator: those that are listed for it. A hash tree or a signature that isn't listed has flags as its
/// data's ask for one. Else they are the default.
pub fn flags_for(policy: &Policy, designator: Designator) -> Flags
    ensures { result ≡ flags_of policy.now designator }
{
    if let Some(flags) = policy.listed[place(designator)] {
        return flags;
    }
    match protected(designator) {
        Some((of, bits)) => {
            let flags = listed_or_default(policy, of);
            if has(flags.0, bits) {
                helper_flags(flags.0)
            } else {
                policy.default
            }
        }
        None => policy.default,
    }
}

// The flags that are listed, or the default.
fn listed_or_default(policy: &Policy, designator: Designator) -> Flags
    ensures { result ≡ listed_or_default policy.now designator }
{
    policy.listed[place(designator)].unwrap_or(policy.default)
}

/// The place of a designator among them, as in a policy's list.
pub fn place(designator: Designator) -> usize
    ensures value { result ≡ place_of_designator designator }
    ensures below { result < 13 }
{
    match designator {
        Designator::Root => 0,
        Designator::Usr => 1,
        Designator::Home => 2,
        Designator::Srv => 3,
        Designator::Esp => 4,
        Designator::Xbootldr => 5,
        Designator::Swap => 6,
        Designator::RootVerity => 7,
        Designator::RootVeritySig => 8,
        Designator::UsrVerity => 9,
        Designator::UsrVeritySig => 10,
        Designator::Tmp => 11,
        Designator::Var => 12,
    }
}

// The data that a hash tree or a signature is for, and the protections that want it.
fn protected(designator: Designator) -> Option<(Designator, u16)>
    ensures { result ≡ protects designator }
{
    match designator {
        Designator::RootVerity => Some((Designator::Root, 3)),
        Designator::UsrVerity => Some((Designator::Usr, 3)),
        Designator::RootVeritySig => Some((Designator::Root, 2)),
        Designator::UsrVeritySig => Some((Designator::Usr, 2)),
        _ => None,
    }
}

fn helper_flags(flags: u16) -> Flags
    ensures { result ≡ helper_flags flags }
{
    Flags(flags & 1008 | Flags::UNPROTECTED.0)
}

// Whether one of these bits is set.
fn has(flags: u16, bits: u16) -> bool
    ensures { result ≡ has flags bits }
{
    flags & bits != 0
}

/// What flags say of what was found of a designator, `None` where nothing was.
pub fn judge(flags: Flags, found: Option<Found>) -> Judged
    ensures { result ≡ judged flags.0 found }
{
    match found {
        Some(found) => match strongest(flags.0, found.kinds.0) {
            Some(kind) => used_as(flags.0, found, kind),
            None if has(flags.0, Flags::UNUSED.0) => Judged::Ignored,
            None => Judged::Denied(Rule::Protection),
        },
        None if has(flags.0, Flags::ABSENT.0) => Judged::Absent,
        None => Judged::Denied(Rule::Absence),
    }
}

// The strongest kind that is allowed and there.
fn strongest(allowed: u16, there: u16) -> Option<Kind>
    ensures { result ≡ strongest allowed there }
{
    if has(allowed, 2) && has(there, 2) {
        return Some(Kind::Signed);
    }
    if has(allowed, 1) && has(there, 1) {
        return Some(Kind::Verity);
    }
    if has(allowed, 4) && has(there, 4) {
        return Some(Kind::Encrypted);
    }
    if has(allowed, 8) && has(there, 8) {
        return Some(Kind::Unprotected);
    }
    None
}

// A partition used as this kind, unless a state is demanded that it doesn't have.
fn used_as(flags: u16, found: Found, kind: Kind) -> Judged
    ensures { result ≡ used_as flags found kind }
{
    let other_mount = if found.read_only {
        Flags::READ_ONLY_OFF
    } else {
        Flags::READ_ONLY_ON
    };
    if has(flags, other_mount.0) {
        return Judged::Denied(Rule::ReadOnly);
    }
    let other_growth = if found.growfs {
        Flags::GROWFS_OFF
    } else {
        Flags::GROWFS_ON
    };
    if has(flags, other_growth.0) {
        return Judged::Denied(Rule::GrowFs);
    }
    Judged::Use(kind)
}
