ghost use Rattle.std.specs.Prelude.{◌≡◌, ◌-◌, ◌*◌, ◌<◌, ◌≤◌, min};
ghost use Rattle.rp_steps.specs.Writes.{piece as piece_size, pieces as piece_count};

/// The bytes of a piece.
pub const PIECE: u64 = 262_144;

// How many pieces so many bytes make.
pub fn pieces(len: u64) -> u64
    ensures { result ≡ piece_count len }
{
    len.div_ceil(PIECE)
}

// How many bytes the piece of this number has.
pub fn size_of(len: u64, number: u64) -> usize
    requires { number < piece_count len }
    ensures size { result ≡ min piece_size (len - piece_size * number) }
    ensures most { result ≤ piece_size }
    ensures fits { piece_size * number ≤ len }
{
    (len - PIECE * number).min(PIECE) as usize
}
