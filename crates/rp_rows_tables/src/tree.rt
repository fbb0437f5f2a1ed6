ghost use Rattle.std.specs.Prelude.{◌≡◌, ◌*◌, ◌≤◌, IfOk, vec_len};

use rp_base::{Guid, List, Row};
use rp_disk::MemDisk;
use rp_tree::{Bad, check_all, check_root};
use std::alloc::Global;
use std::test::Fail;

// The hash partition that veritysetup makes over three blocks, of which the first begins with `abc` and all else is zero:
// its superblock up to the salt's end, its digests, and the root hash in two halves.
const SUPERBLOCK: &str =
    "76657269747900000100000001000000a1b2c3d4e5f647118899aabbccddeeff7368613235360000000000000000\
    00000000000000000000000000000000000000100000001000000300000000000000200000000000000000112233\
    445566778899aabbccddeeff102132435465768798a9bacbdcedfe0f";

const DIGESTS: &str =
    "1bd2452b0689cae324b724e3fd805f52c58f9a45ae63c1208da103f5bf80cd29c71d24dbc7e208e707eab60b718b\
    599f8a63584a618a1ff80b282e0b746198b3c71d24dbc7e208e707eab60b718b599f8a63584a618a1ff80b282e0b\
    746198b3";

const FRONT: &str = "a9d583eae44bbde13b0fde477427acec";

const BACK: &str = "fba03f578afb8ef988457ead06b31481";

// A row of blocks with an identifier.
fn row(start: u64, blocks: u64, id: &str) -> Result<Row, Fail>
    requires { blocks ≤ 4 }
    ensures { IfOk result (λ row. (row.start ≡ start) × (row.size ≡ 8 * blocks)) }
{
    let mut bytes = [0; 16];
    hex::decode_to_slice(id, &mut bytes)?;
    Ok(Row {
        slot: 0,
        kind: Guid([1; 16]),
        id: Guid(bytes),
        start,
        size: 8 * blocks,
        attrs: 0,
        name: [0; 36],
    })
}

// The data blocks, and the hash partition behind them.
fn image(alloc: Global) -> Result<Vec<u8>, Fail>
    ensures { IfOk result (λ bytes. vec_len bytes ≡ 20480) }
{
    let mut bytes = vec![in alloc; 0u8; 20480]?;
    bytes[..3].copy_from_slice(b"abc");
    hex::decode_to_slice(SUPERBLOCK, &mut bytes[12288..12408])?;
    hex::decode_to_slice(DIGESTS, &mut bytes[16384..16480])?;
    Ok(bytes)
}

// A byte that is changed, and what is wrong first then.
#[test]
fn changed_bytes(rt: HostRuntime) -> Result<(), Fail> {
    let cases: [(usize, Option<Bad>); 7] = [
        (0, Some(Bad::Data { block: 0 })),
        (8192, Some(Bad::Data { block: 2 })),
        (12288 + 8, Some(Bad::Superblock)),
        (12288 + 20, None),
        (12288 + 400, None),
        (16384 + 33, Some(Bad::Top)),
        (16384 + 200, Some(Bad::Top)),
    ];
    let payload = row(0, 3, FRONT)?;
    let hash = row(24, 2, BACK)?;
    let mut room = [0; 24576];
    for (at, bad) in cases {
        let mut bytes = image(rt.alloc())?;
        assert!(rt; at < bytes.len());
        bytes[at] ^= 1;
        let mut disk = MemDisk::new(rt.alloc(), List::from_vec(bytes), List::new(rt.alloc()));
        assert!(rt; check_all(&mut disk, &payload, &hash, &mut room)? == bad);
        let rooted = !matches!(bad, Some(Bad::Superblock | Bad::Top));
        assert_eq!(rt; check_root(&mut disk, &payload, &hash, &mut room)?, rooted);
    }
    Ok(())
}
