//! Laws of a region, for what is lent of it.

ghost use Rattle.std.specs.Prelude.{◌≡◌, ◌≢◌, ◌≤◌, ◌<◌, ◌+◌, ◌*◌, ℕ, List, Some, None, length};
ghost use Rattle.rp_pool.specs.Region.{IsFree, IsOut, IsRegion, Region, Run, bytes_of, first_fit, written};

/// What is lent is the first run of so many free blocks, and where nothing is lent there is no such run.
pub fn the_first_that_fits_is_lent()
    ensures some { (out : List ℕ) (blocks : ℕ) (run : Run) → first_fit out blocks ≡ Some run
        → (run.blocks ≡ blocks) × IsFree out run
        × ((first : ℕ) → first < run.first → ¬ IsFree out (record { first = first; blocks = blocks })) }
    ensures none { (out : List ℕ) (blocks : ℕ) → 1 ≤ blocks → first_fit out blocks ≡ None
        → (first : ℕ) → ¬ IsFree out (record { first = first; blocks = blocks }) }
{}

/// Of two runs that are out, the one that begins first ends before the other.
pub fn no_block_is_lent_twice()
    ensures within { (region : Region) (run : Run) → IsRegion region → IsOut region run
        → run.first + run.blocks ≤ length region.out }
    ensures apart { (region : Region) (a b : Run) → IsRegion region → IsOut region a → IsOut region b → a.first < b.first
        → a.first + a.blocks ≤ b.first }
{}

/// What is written to a run is the run's, and the bytes of each other run that is out stay.
pub fn a_write_changes_its_run_alone()
    ensures own { (region : Region) (run : Run) (bytes : List ℕ) → IsRegion region → IsOut region run
        → length bytes ≡ 4096 * run.blocks → bytes_of (written region run bytes) run ≡ bytes }
    ensures others { (region : Region) (run other : Run) (bytes : List ℕ) → IsRegion region → IsOut region run
        → IsOut region other → run.first ≢ other.first → length bytes ≡ 4096 * run.blocks
        → bytes_of (written region run bytes) other ≡ bytes_of region other }
{}
