use rp_base::Guid;
use rp_sizes::{salt_of, super_id};
use std::test::Fail;

/// The type root-x86-64.
const ROOT: Guid = Guid([
    0x4f, 0x68, 0xbc, 0xe3, 0xe8, 0xcd, 0x4d, 0xb1, 0x96, 0xe7, 0xfb, 0xca, 0xf9, 0x84, 0xb7, 0x09,
]);

// What the seed 1 gives for the tree over a root file system; computed apart, by another HMAC.
#[test]
fn superblock_of_a_seed(rt: HostRuntime) -> Result<(), Fail> {
    let mut seed = Guid([0; 16]);
    seed.0[15] = 1;
    assert_eq!(rt;
        hex::encode(rt.alloc(), &super_id(seed, ROOT).0)?.as_str(),
        "d5b57e16f756472d9def097e1282c8d4"
    );
    assert_eq!(rt;
        hex::encode(rt.alloc(), &salt_of(seed, ROOT))?.as_str(),
        "ffcdad9135a1ea79cb2462489fd431fb533943ab830f50e9ee6bca3fd2187109"
    );
    Ok(())
}
