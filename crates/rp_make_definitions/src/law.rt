//! What the files of each number say, as the contract of a function that does nothing.

ghost use Rattle.std.specs.Prelude.{ℕ, ◌≤◌};
ghost use Rattle.rp_make_definitions.specs.Made.{HasDefinitions};

/// The definition files of each number of at most 100 are a list of definitions: as many as the number and two, none of which may
/// be dropped, or has a source but the one of the number; a root file system with that source and its hash tree are the last two.
/// They leave identifiers of pairs to their root hashes, and pair root with its hash tree.
pub fn each_number_has_definitions()
    ensures { (number : ℕ) → number ≤ 100 → HasDefinitions number }
{}
