ghost use Rattle.std.specs.Prelude.{◌≤◌, length};

use rp_lanes::{digest_blocks, digest4};

// The digests of FIPS 180-4's examples (of 3 and 56 bytes), and of RFC 6234's of 640 bytes.
#[rattlefmt::skip]
const ABC: [u8; 32] = [
    0xba, 0x78, 0x16, 0xbf, 0x8f, 0x01, 0xcf, 0xea, 0x41, 0x41, 0x40, 0xde, 0x5d, 0xae, 0x22, 0x23,
    0xb0, 0x03, 0x61, 0xa3, 0x96, 0x17, 0x7a, 0x9c, 0xb4, 0x10, 0xff, 0x61, 0xf2, 0x00, 0x15, 0xad,
];

#[rattlefmt::skip]
const TWO_BLOCKS: [u8; 32] = [
    0x24, 0x8d, 0x6a, 0x61, 0xd2, 0x06, 0x38, 0xb8, 0xe5, 0xc0, 0x26, 0x93, 0x0c, 0x3e, 0x60, 0x39,
    0xa3, 0x3c, 0xe4, 0x59, 0x64, 0xff, 0x21, 0x67, 0xf6, 0xec, 0xed, 0xd4, 0x19, 0xdb, 0x06, 0xc1,
];

#[rattlefmt::skip]
const TEN_BLOCKS: [u8; 32] = [
    0x59, 0x48, 0x47, 0x32, 0x84, 0x51, 0xbd, 0xfa, 0x85, 0x05, 0x62, 0x25, 0x46, 0x2c, 0xc1, 0xd8,
    0x67, 0xd8, 0x77, 0xfb, 0x38, 0x8d, 0xf0, 0xce, 0x35, 0xf2, 0x5a, 0xb5, 0x56, 0x2b, 0xfb, 0xb5,
];

// The digest of a message by each lane, beside zeros of its length.
fn by_each_lane(salt: &[u8], message: &[u8]) -> [[u8; 32]; 4]
    requires salt { length salt.now ≤ 256 }
    requires short { length message.now ≤ 640 }
{
    let zeros = [0; 640];
    let len = message.len();
    let other = &zeros[..len];
    [
        digest4(salt, [message, other, other, other], len)[0],
        digest4(salt, [other, message, other, other], len)[1],
        digest4(salt, [other, other, message, other], len)[2],
        digest4(salt, [other, other, other, message], len)[3],
    ]
}

#[test]
fn the_standards_vectors(rt: HostRuntime) {
    let two = b"abcdbcdecdefdefgefghfghighijhijkijkljklmklmnlmnomnopnopq";
    let mut ten = [0; 640];
    for (k, byte) in ten.iter_mut().enumerate() {
        *byte = b'0' + (k % 8) as u8;
    }
    assert_eq!(rt; by_each_lane(b"", b"abc"), [ABC; 4]);
    assert_eq!(rt; by_each_lane(b"ab", b"c"), [ABC; 4]);
    assert_eq!(rt; by_each_lane(b"", two), [TWO_BLOCKS; 4]);
    assert_eq!(rt; by_each_lane(&two[..40], &two[40..]), [TWO_BLOCKS; 4]);
    assert_eq!(rt; by_each_lane(b"", &ten), [TEN_BLOCKS; 4]);
    assert_eq!(rt; by_each_lane(&ten[..256], &ten[256..]), [TEN_BLOCKS; 4]);
}

#[test]
fn blocks_behind_one_another(rt: HostRuntime) {
    let mut blocks = [0; 7 * 600];
    for (k, byte) in blocks.iter_mut().enumerate() {
        *byte = b'0' + (k % 8) as u8;
    }
    let mut digests = [[0; 32]; 7];
    digest_blocks(
        b"0123456701234567012345670123456701234567",
        &blocks,
        600,
        &mut digests,
    );
    for digest in &digests {
        assert_eq!(rt; *digest, TEN_BLOCKS);
    }
}
