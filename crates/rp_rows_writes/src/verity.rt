use rp_base::{Failed, List, Text};
use rp_io::{MemSources, Stored};
use rp_verity::{Builder, TreeOut, hash_blocks, levels, root_of};
use std::process::Abort;
use std::test::Fail;

// Keeps the places of the blocks that it took, and fails one put.
#[derive(Drop)]
struct Places {
    places: Vec<u64>,
    fail: usize,
    faults: u64,
}

impl TreeOut for Places {
    ghost use Rattle.std.specs.Prelude.{None};

    ghost told = { λ _. None };

    ghost faults = { λ out. out.faults };

    fn faults(&self) -> u64 {
        self.faults
    }

    fn put(&mut self, index: u64, _block: &[u8]) -> Result<(), Failed> {
        if self.places.len() == self.fail || self.places.push(index).is_err() {
            self.faults = self.faults.saturating_add(1);
            return Err(Failed);
        }
        Ok(())
    }
}

#[test]
fn shapes(rt: HostRuntime) {
    // data blocks, levels, hash blocks
    let cases: [(u64, u32, u64); 8] = [
        (1, 0, 1),
        (2, 1, 2),
        (128, 1, 2),
        (129, 2, 4),
        (256, 2, 4),
        (16_384, 2, 130),
        (16_385, 3, 133),
        (102_400, 3, 809),
    ];
    for (blocks, level, hash) in cases {
        assert_eq!(rt; levels(blocks), level);
        assert_eq!(rt; hash_blocks(blocks), hash);
    }
}

// The tree over so many blocks of zeros, in a room of four blocks.
fn built(rt: &impl Abort, blocks: u64, out: &mut Places) -> Result<[u8; 32], Failed> {
    let salt = [0x11; 32];
    let mut room = [0u8; 4 * 4096];
    assert!(rt; blocks >= 1 && blocks <= 100_000);
    assert!(rt; levels(blocks) <= 3);
    let mut builder = Builder::new(blocks, &salt, &mut room);
    'pushes: for k in 0..blocks {
        builder.push(out)?;
    }
    builder.finish(out)
}

// The root hashes are those of another program.
#[test]
fn trees_of_zeros(rt: HostRuntime) -> Result<(), Fail> {
    let cases: [(u64, &str); 4] = [
        (
            1,
            "b345391c288625fd68e218e6646eae5f91322336ed51fcbbb2a19214e8f2c0bc",
        ),
        (
            128,
            "aafa8598c73f3661c40ce770e423904fd799e5f8164fd9c58c0f4e74d296b476",
        ),
        (
            129,
            "f82df898b7ef6dfcc6ff7298e647a3cddfad64a836ac4b2a30e5bfc2c90764f8",
        ),
        (
            16_385,
            "b9de1fb1ef260fe68e0b880ff0671f19f84a19cb2714fca459dfe88d60a5f4a8",
        ),
    ];
    for (blocks, root) in cases {
        let mut out = Places {
            places: Vec::new(rt.alloc()),
            fail: usize::MAX,
            faults: 0,
        };
        let found = built(&rt, blocks, &mut out)?;
        assert_eq!(rt; hex::encode(rt.alloc(), &found)?.as_str(), root);
        assert_eq!(rt; out.places.len() as u64 + 1, hash_blocks(blocks));
    }
    Ok(())
}

// The order in which the blocks of three levels become complete, and a put that fails.
#[test]
fn order_of_puts(rt: HostRuntime) -> Result<(), Fail> {
    let mut out = Places {
        places: Vec::new(rt.alloc()),
        fail: usize::MAX,
        faults: 0,
    };
    built(&rt, 16_385, &mut out)?;
    let (front, end) = out
        .places
        .as_slice()
        .split_at_checked(128)
        .ok_or("132 places")?;
    for (place, index) in (3..131).zip(front) {
        assert_eq!(rt; place, *index);
    }
    assert_eq!(rt; end, [1, 131, 2, 0].as_slice());
    let mut failing = Places {
        places: Vec::new(rt.alloc()),
        fail: 1,
        faults: 0,
    };
    assert!(rt; built(&rt, 257, &mut failing).is_err());
    assert_eq!(rt; failing.places.as_slice(), [1].as_slice());
    Ok(())
}

// A source of three bytes in a row of two blocks: zeros follow.
#[test]
fn root_of_a_source(rt: HostRuntime) -> Result<(), Fail> {
    let mut files = List::new(rt.alloc());
    files.push(Stored {
        path: Text::from_str(rt.alloc(), "/zeros")?,
        bytes: List::from_vec([0u8; 3].to_vec(rt.alloc())?),
    })?;
    let mut sources = MemSources::new(files, List::new(rt.alloc()));
    let mut room = [0u8; 2 * 4096];
    assert!(rt; levels(2) <= 1);
    let root = root_of(&mut sources, "/zeros", 3, 2, &[0x11; 32], &mut room)?;
    assert_eq!(rt;
        hex::encode(rt.alloc(), &root)?.as_str(),
        "96404c5ae10e91c80bb2b3e42f915fbd0b42d9ce4c46b040ecd11addb9446832"
    );
    assert!(rt; root_of(&mut sources, "/zeros", 4, 2, &[0x11; 32], &mut room).is_err());
    Ok(())
}
