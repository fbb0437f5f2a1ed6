//! `show`.

use crate::images::{ESP, Numbers, SWAP, esp_image, other_table};
use crate::outside::{call, folder, source, words};
use rp_base::List;
use rp_cli::run;
use rp_disk::MemDisk;
use rp_io::MemSink;
use std::process::Abort;
use std::test::Fail;

const ESP_64_MIB: Numbers = Numbers {
    sector: 512,
    entries: 128,
    end: 131_071,
    first: 2048,
    last: 131_038,
    slot: 0,
    kind: ESP,
    start: 2048,
    stop: 22_527,
    second: (0, 0, 0),
    count: 128,
    backup_count: 128,
    header_size: 92,
    array: 2,
};

const ESP_64_KIB: Numbers = Numbers {
    end: 127,
    first: 34,
    last: 94,
    start: 40,
    stop: 87,
    ..ESP_64_MIB
};

// 16 sectors of 4,096 bytes, four of them for an array.
const ESP_OF_4096: Numbers = Numbers {
    sector: 4096,
    end: 15,
    first: 6,
    last: 10,
    start: 6,
    stop: 8,
    ..ESP_64_KIB
};

// 256 sectors, 64 of them for an array.
const SWAP_OF_256: Numbers = Numbers {
    entries: 256,
    end: 255,
    first: 66,
    last: 190,
    slot: 200,
    kind: SWAP,
    start: 72,
    stop: 79,
    count: 256,
    backup_count: 256,
    ..ESP_64_KIB
};

const KIB_64: usize = 64 << 10;

const BACKUP_ARRAY: usize = 95 * 512;

const TABLE_64_MIB: &str =
    "table primary sectors 131072 usable 2048-131038 disk aaaaaaaa-bbbb-4ccc-8ddd-eeeeeeeeeeee
0 esp start 2048 size 20480 id 11111111-2222-4333-8444-555555555555 attrs 0000000000000000 name \"EFI\"
copies primary=same backup=same mbr=same
";

const JSON_64_MIB: &str =
    "{\"backup\":\"same\",\"disk\":\"aaaaaaaa-bbbb-4ccc-8ddd-eeeeeeeeeeee\",\"mbr\":\"same\",\"origin\":\"primary\",\"primary\":\"same\",\"rows\":[{\"attrs\":\"0000000000000000\",\"id\":\"11111111-2222-4333-8444-555555555555\",\"name\":\"EFI\",\"size\":20480,\"slot\":0,\"start\":2048,\"type\":\"esp\"}],\"sectors\":131072,\"usable\":[2048,131038]}\n";

const TABLE_OF_4096: &str =
    "table primary sectors 128 usable 48-87 disk aaaaaaaa-bbbb-4ccc-8ddd-eeeeeeeeeeee
0 esp start 48 size 24 id 11111111-2222-4333-8444-555555555555 attrs 0000000000000000 name \"EFI\"
copies primary=same backup=same mbr=same
";

const TABLE_OF_256: &str =
    "table primary sectors 256 usable 66-190 disk aaaaaaaa-bbbb-4ccc-8ddd-eeeeeeeeeeee
200 swap start 72 size 8 id 11111111-2222-4333-8444-555555555555 attrs 0000000000000000 name \"EFI\"
copies primary=same backup=same mbr=same
";

const BACKUP_64_KIB: &str =
    "table backup sectors 128 usable 34-94 disk aaaaaaaa-bbbb-4ccc-8ddd-eeeeeeeeeeee
0 esp start 40 size 48 id 11111111-2222-4333-8444-555555555555 attrs 0000000000000000 name \"EFI\"
copies primary=differs backup=same mbr=same
";

const TABLE_64_KIB: &str =
    "table primary sectors 128 usable 34-94 disk aaaaaaaa-bbbb-4ccc-8ddd-eeeeeeeeeeee
0 esp start 40 size 48 id 11111111-2222-4333-8444-555555555555 attrs 0000000000000000 name \"EFI\"
copies primary=same backup=same mbr=same
";

#[derive(Clone, Copy)]
struct Case {
    what: &'static str,
    numbers: Numbers,
    // two bytes of the image that are turned; none where 0
    turned: (usize, usize),
    // the image's length; all of it where 0
    len: usize,
    words: &'static str,
    // the call of the disk and the call of the sink that fail, from 1; none where 0
    disk: u64,
    sink: u64,
    status: u8,
    printed: &'static str,
}

const GOOD: Case = Case {
    what: "64 MiB",
    numbers: ESP_64_MIB,
    turned: (0, 0),
    len: 0,
    words: "show image",
    disk: 0,
    sink: 0,
    status: 0,
    printed: TABLE_64_MIB,
};

const SMALL: Case = Case {
    what: "64 KiB",
    numbers: ESP_64_KIB,
    printed: TABLE_64_KIB,
    ..GOOD
};

#[test]
fn an_image_of_64_mib_as_text_and_as_json(rt: HostRuntime) -> Result<(), Fail> {
    check(&rt, GOOD)?;
    let json = Case {
        what: "JSON",
        words: "show --json=short --sector-size=512 image",
        printed: JSON_64_MIB,
        ..GOOD
    };
    check(&rt, json)
}

#[test]
fn rows(rt: HostRuntime) -> Result<(), Fail> {
    for case in [
        SMALL,
        Case {
            what: "sectors of 4,096 bytes",
            numbers: ESP_OF_4096,
            words: "show --sector-size=4096 image",
            printed: TABLE_OF_4096,
            ..GOOD
        },
        Case {
            what: "a table of sectors of 512 bytes, with sectors of 4,096",
            words: "show --sector-size=4096 --json=off image",
            status: 4,
            printed: "error 4 NoTable\n",
            ..SMALL
        },
        Case {
            what: "256 entries",
            numbers: SWAP_OF_256,
            printed: TABLE_OF_256,
            ..GOOD
        },
        Case {
            what: "the length fails",
            disk: 1,
            status: 7,
            printed: "error 7 disk\n",
            ..SMALL
        },
        Case {
            what: "the second read fails",
            disk: 3,
            status: 7,
            printed: "error 7 disk\n",
            ..SMALL
        },
        Case {
            what: "the sink fails",
            sink: 1,
            status: 9,
            printed: "",
            ..SMALL
        },
        Case {
            what: "a bit of the primary header",
            turned: (512 + 16, 0),
            printed: BACKUP_64_KIB,
            ..SMALL
        },
        Case {
            what: "a bit of each array",
            turned: (1024, BACKUP_ARRAY),
            status: 4,
            printed: "error 4 NoTable\n",
            ..SMALL
        },
        Case {
            what: "half the image",
            len: KIB_64 / 2,
            status: 4,
            printed: "error 4 TooShort 32768\n",
            ..SMALL
        },
        Case {
            what: "one byte more",
            len: KIB_64 + 1,
            status: 4,
            printed: "error 4 TooShort 65537\n",
            ..SMALL
        },
        Case {
            what: "no byte",
            len: usize::MAX,
            status: 4,
            printed: "error 4 TooShort 0\n",
            ..SMALL
        },
    ] {
        check(&rt, case)?;
    }
    Ok(())
}

#[test]
fn words_that_are_not_canonical(rt: HostRuntime) -> Result<(), Fail> {
    for words in [
        "show",
        "show -x",
        "show --json=off --json=off image",
        "show --json= image",
        "show --sector-size=1024 image",
        "show image --json=short",
        "show --empty=allow image",
        "plan image",
    ] {
        let case = Case {
            what: words,
            words,
            status: 2,
            printed: "error 2 words\n",
            ..SMALL
        };
        check(&rt, case)?;
    }
    Ok(())
}

#[test]
fn hostile_images(rt: HostRuntime) -> Result<(), Fail> {
    for (second, printed) in [
        ((4, 87, 90), "error 4 Overlap 0 4\n"),
        ((7, 88, u64::MAX), "error 4 RowRange 7\n"),
        ((7, 60, 59), "error 4 RowRange 7\n"),
        ((1, 40, 87), "error 4 Overlap 0 1\n"),
    ] {
        let numbers = Numbers {
            second,
            ..ESP_64_KIB
        };
        check(
            &rt,
            Case {
                what: printed,
                numbers,
                status: 4,
                printed,
                ..SMALL
            },
        )?;
    }
    for (numbers, status, printed) in [
        (
            Numbers {
                count: u32::MAX,
                backup_count: u32::MAX,
                ..ESP_64_KIB
            },
            4,
            "error 4 EntryCount 4294967295 128\n",
        ),
        (
            Numbers {
                count: 127,
                backup_count: 127,
                ..ESP_64_KIB
            },
            4,
            "error 4 EntryCount 127 128\n",
        ),
        // The primary's array is broken where it has 132 entries, which bytes of a partition could mend.
        (
            Numbers {
                count: 132,
                ..ESP_64_KIB
            },
            4,
            "error 4 EntryCount 132 128\n",
        ),
        (
            Numbers {
                array: 1 << 63,
                ..ESP_64_KIB
            },
            4,
            "error 4 ArrayPlace\n",
        ),
        (
            Numbers {
                first: u64::MAX,
                ..ESP_64_KIB
            },
            4,
            "error 4 Bounds 18446744073709551615 94\n",
        ),
        (
            Numbers {
                last: 95,
                ..ESP_64_KIB
            },
            4,
            "error 4 TooShort 65536\n",
        ),
        (
            Numbers {
                header_size: 513,
                ..ESP_64_KIB
            },
            0,
            BACKUP_64_KIB,
        ),
    ] {
        check(
            &rt,
            Case {
                what: printed,
                numbers,
                status,
                printed,
                ..SMALL
            },
        )?;
    }
    let image = other_table(rt.alloc(), KIB_64, 0x83)?;
    let printed = "error 4 OtherTable 131\n";
    check_image(
        &rt,
        Case {
            what: "another table",
            status: 4,
            printed,
            ..SMALL
        },
        image,
    )
}

fn check<R: Abort + AllocGlobal>(rt: &R, case: Case) -> Result<(), Fail> {
    let mut image = esp_image(rt.alloc(), case.numbers)?;
    for at in [case.turned.0, case.turned.1] {
        assert!(rt; at < image.len());
        image[at] ^= u8::from(at != 0);
    }
    match case.len {
        0 => (),
        usize::MAX => image.clear(),
        len => image.resize(len, 0)?,
    }
    check_image(rt, case, image)
}

fn check_image<R: Abort + AllocGlobal>(rt: &R, case: Case, image: Vec<u8>) -> Result<(), Fail> {
    let mut disk = MemDisk::new(
        rt.alloc(),
        List::from_vec(image),
        call(rt.alloc(), case.disk)?,
    );
    let mut out = MemSink::new(rt.alloc(), call(rt.alloc(), case.sink)?);
    let words = words(rt.alloc(), case.words)?;
    let mut folders = folder(rt.alloc(), &[], 0)?;
    let mut sources = source(rt.alloc(), 0, 0)?;
    let status = run(
        rt.alloc(),
        words.as_slice(),
        &mut disk,
        &mut folders,
        &mut sources,
        &mut out,
    );
    assert!(rt; out.bytes() == case.printed.as_bytes());
    assert!(rt; status == case.status);
    assert!(rt; disk.calls().is_empty());
    Ok(())
}
