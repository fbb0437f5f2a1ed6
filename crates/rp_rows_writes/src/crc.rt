use rp_crc::Crc;

fn crc_of(pieces: &[&[u8]]) -> u32 {
    let mut crc = Crc::new();
    for piece in pieces {
        crc.update(piece);
    }
    crc.value()
}

#[test]
fn known_values(rt: HostRuntime) {
    let cases: [(&[&[u8]], u32); 7] = [
        (&[], 0),
        (&[b""], 0),
        (&[b"123456789"], 0xCBF4_3926),
        (&[b"1", b"", b"23456789"], 0xCBF4_3926),
        (&[b"12345678", b"9"], 0xCBF4_3926),
        (&[&[0; 32]], 0x190A_55AD),
        (&[&[0; 5], &[0; 19], &[0; 8]], 0x190A_55AD),
    ];
    for (pieces, value) in cases {
        assert_eq!(rt; crc_of(pieces), value);
    }
}
