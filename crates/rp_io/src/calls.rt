ghost use Rattle.std.specs.Prelude.{◌≡◌, ◌+◌, ◌-◌, ◌^◌, ◌↔◌, min, IsTrue, Contains};

use rp_base::List;

// Counts a call, and says whether it is one of those that are to fail.
pub(crate) fn is_listed(made: &mut u64, fail: &List<u64>) -> bool
    ensures made { made.new ≡ min (made.old + 1) (2 ^ 64 - 1) }
    ensures listed { IsTrue result ↔ Contains fail.now made.new }
{
    *made = made.saturating_add(1);
    fail.as_slice().contains(made)
}
