ghost use Rattle.std.specs.Prelude.{◌≡◌, ◌+◌, ◌≤◌, length};
ghost use Rattle.rp_gpt.specs.Copy.{array_of as array_in, header_of as header_in};

use rp_base::Which;

// The header's sector of a copy.
#[tactic(auto, unfolding(rp_gpt::specs::Copy::header_of))]
pub fn header_of(copy: &[u8], which: Which, sector: u32) -> &[u8]
    requires { sector ≤ length copy.now }
    ensures bytes { result.now ≡ header_in sector copy.now which }
    ensures size { length result.now ≡ sector }
{
    let sector = sector as usize;
    match which {
        Which::Primary => copy.split_at(sector).0,
        Which::Backup => copy.split_at(copy.len() - sector).1,
    }
}

// The array's sectors of a copy.
#[tactic(auto, unfolding(rp_gpt::specs::Copy::array_of))]
pub fn array_of(copy: &[u8], which: Which, sector: u32) -> &[u8]
    requires { sector ≤ length copy.now }
    ensures bytes { result.now ≡ array_in sector copy.now which }
    ensures size { length result.now + sector ≡ length copy.now }
{
    let sector = sector as usize;
    match which {
        Which::Primary => copy.split_at(sector).1,
        Which::Backup => copy.split_at(copy.len() - sector).0,
    }
}
