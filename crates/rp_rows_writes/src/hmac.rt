use rp_base::Guid;
use rp_hmac::{derive, hmac};
use std::test::Fail;

// RFC 4231, cases 1, 2, 3 and 4: those whose keys fit a block and whose codes are whole.
#[test]
fn codes_of_the_standard(rt: HostRuntime) -> Result<(), Fail> {
    let mut counted = [0u8; 25];
    for (i, byte) in counted.iter_mut().enumerate() {
        *byte = i as u8 + 1;
    }
    let cases: [(&[u8], &[u8], &str); 4] = [
        (
            &[0x0b; 20],
            b"Hi There",
            "b0344c61d8db38535ca8afceaf0bf12b881dc200c9833da726e9376c2e32cff7",
        ),
        (
            b"Jefe",
            b"what do ya want for nothing?",
            "5bdcc146bf60754e6a042426089575c75a003f089d2739839dec58b964ec3843",
        ),
        (
            &[0xaa; 20],
            &[0xdd; 50],
            "773ea91e36800e46854db8ebd09181a72959098b3ef8c122d9635514ced565fe",
        ),
        (
            &counted,
            &[0xcd; 50],
            "82558a389a443c0ea4cc819899f2083a85f0faa3e578f8077a2e3ff46729665b",
        ),
    ];
    for (key, message, code) in cases {
        assert_eq!(rt;
            hex::encode(rt.alloc(), &hmac(key, message))?.as_str(),
            code
        );
    }
    Ok(())
}

// The identifiers of the disk and of the first two rows of one type, for the seed 1; computed apart, by another HMAC.
#[test]
fn identifiers_of_a_seed(rt: HostRuntime) -> Result<(), Fail> {
    let mut seed = Guid([0; 16]);
    seed.0[15] = 1;
    let linux = [
        0x0f, 0xc6, 0x3d, 0xaf, 0x84, 0x83, 0x47, 0x72, 0x8e, 0x79, 0x3d, 0x69, 0xd8, 0x47, 0x7d,
        0xe4,
    ];
    let cases: [(&[u8], u64, &str); 3] = [
        (b"disk-uuid", 0, "5604b68e37df48a8a451502e27e8ed09"),
        (&linux, 0, "0f6335f7f5f34f84b2b148862cde1d53"),
        (&linux, 1, "aedfb21e6a454cbfa80f61b151a39a08"),
    ];
    for (text, k, id) in cases {
        assert_eq!(rt;
            hex::encode(rt.alloc(), &derive(seed, text, k).0)?.as_str(),
            id
        );
    }
    Ok(())
}
