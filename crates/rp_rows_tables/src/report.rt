ghost use Rattle.std.specs.Prelude.{◌≡◌, IfOk, length};

use rp_base::{Change, Guid, List, Note, Plan, Role, Row, Table, Text, Want};
use rp_defs::{Definition, Definitions, Verity};
use rp_report::plan_text;
use std::alloc::Global;
use std::test::Fail;

const LINUX: Guid = Guid([
    0x0f, 0xc6, 0x3d, 0xaf, 0x84, 0x83, 0x47, 0x72, 0x8e, 0x79, 0x3d, 0x69, 0xd8, 0x47, 0x7d, 0xe4,
]);

const WANT: Want = Want {
    min: 2560,
    max: 1 << 52,
    weight: 1000,
    pad_min: 0,
    pad_max: 1 << 52,
    pad_weight: 0,
};

fn row(slot: u16, start: u64) -> Row {
    Row {
        slot,
        kind: LINUX,
        id: Guid([0x11; 16]),
        start,
        size: 8,
        attrs: 1 << 59,
        name: [0; 36],
    }
}

fn note(slot: u16, file: Option<u16>, change: Change) -> Note {
    Note {
        slot,
        file,
        change,
        source: None,
        role: Role::Plain,
    }
}

// A plan of two rows, of a foreign one and of a new one, which drops the second definition.
fn plan(alloc: Global) -> Result<Plan, Fail>
    ensures { IfOk result (λ plan. length plan.notes ≡ length plan.goal.rows) }
{
    Ok(Plan {
        target: 131_072,
        goal: Table {
            sector: 512,
            entries: 128,
            disk: Guid([0xaa; 16]),
            first: 2048,
            last: 131_038,
            rows: List::from_vec(vec![in alloc; row(0, 2048), row(1, 2056)]?),
        },
        notes: List::from_vec(vec![in alloc;
            note(0, None, Change::Same),
            note(1, Some(0), Change::New),
        ]?),
        dropped: List::from_vec(vec![in alloc; 1]?),
        threshold: 9,
    })
}

fn definition(alloc: Global, file: &str) -> Result<Definition, Fail> {
    Ok(Definition {
        file: Text::from_str(alloc, file)?,
        kind: LINUX,
        label: None,
        id: None,
        priority: 0,
        want: WANT,
        attrs: 0,
        source: None,
        verity: Verity::Off,
        factory_reset: false,
        split: None,
    })
}

fn definitions(alloc: Global) -> Result<Definitions, Fail> {
    Ok(Definitions {
        list: List::from_vec(vec![in alloc;
            definition(alloc, "a.conf")?,
            definition(alloc, "b.conf")?,
        ]?),
        ignored: 3,
    })
}

#[test]
fn with_ample_memory_a_plan_has_its_text(rt: HostRuntime) -> Result<(), Fail> {
    let alloc = rt.alloc();
    let plan = plan(alloc)?;
    let definitions = definitions(alloc)?;
    let text = plan_text(alloc, false, &plan, &definitions, 19, 23, true, None)?;
    assert_eq!(rt;
        text.as_str(),
        "plan target 131072 usable 2048-131038 disk aaaaaaaa-aaaa-aaaa-aaaa-aaaaaaaaaaaa
0 same - linux-generic start 2048 size 8 id 11111111-1111-1111-1111-111111111111 attrs 0800000000000000 name \"\"
1 new a.conf linux-generic start 2056 size 8 id 11111111-1111-1111-1111-111111111111 attrs 0800000000000000 name \"\"
dropped b.conf
ignored 3
steps 19 writes 23
applied
"
    );
    let text = plan_text(alloc, true, &plan, &definitions, 19, 23, false, None)?;
    assert_eq!(rt;
        text.as_str(),
        "{\"disk\":\"aaaaaaaa-aaaa-aaaa-aaaa-aaaaaaaaaaaa\",\"dropped\":[\"b.conf\"],\"ignored\":3,\"rows\":[\
        {\"attrs\":\"0800000000000000\",\"change\":\"same\",\"file\":null,\"id\":\"11111111-1111-1111-1111-111111111111\",\
        \"name\":\"\",\"size\":8,\"slot\":0,\"start\":2048,\"type\":\"linux-generic\"},\
        {\"attrs\":\"0800000000000000\",\"change\":\"new\",\"file\":\"a.conf\",\"id\":\"11111111-1111-1111-1111-111111111111\",\
        \"name\":\"\",\"size\":8,\"slot\":1,\"start\":2056,\"type\":\"linux-generic\"}],\
        \"steps\":19,\"target\":131072,\"usable\":[2048,131038],\"writes\":23}\n"
    );
    Ok(())
}

#[test]
fn behind_a_reset_it_tells_the_slots(rt: HostRuntime) -> Result<(), Fail> {
    let alloc = rt.alloc();
    let plan = plan(alloc)?;
    let definitions = definitions(alloc)?;
    let text = plan_text(
        alloc,
        false,
        &plan,
        &definitions,
        27,
        20,
        true,
        Some(&[0, 5]),
    )?;
    assert_eq!(rt;
        text.as_str(),
        "plan target 131072 usable 2048-131038 disk aaaaaaaa-aaaa-aaaa-aaaa-aaaaaaaaaaaa
0 same - linux-generic start 2048 size 8 id 11111111-1111-1111-1111-111111111111 attrs 0800000000000000 name \"\"
1 new a.conf linux-generic start 2056 size 8 id 11111111-1111-1111-1111-111111111111 attrs 0800000000000000 name \"\"
dropped b.conf
reset 0
reset 5
ignored 3
steps 27 writes 20
applied
"
    );
    let text = plan_text(
        alloc,
        true,
        &plan,
        &definitions,
        27,
        20,
        true,
        Some(&[0, 5]),
    )?;
    assert_eq!(rt;
        text.as_str(),
        "{\"applied\":true,\"disk\":\"aaaaaaaa-aaaa-aaaa-aaaa-aaaaaaaaaaaa\",\"dropped\":[\"b.conf\"],\"ignored\":3,\"reset\":[0,5],\"rows\":[\
        {\"attrs\":\"0800000000000000\",\"change\":\"same\",\"file\":null,\"id\":\"11111111-1111-1111-1111-111111111111\",\
        \"name\":\"\",\"size\":8,\"slot\":0,\"start\":2048,\"type\":\"linux-generic\"},\
        {\"attrs\":\"0800000000000000\",\"change\":\"new\",\"file\":\"a.conf\",\"id\":\"11111111-1111-1111-1111-111111111111\",\
        \"name\":\"\",\"size\":8,\"slot\":1,\"start\":2056,\"type\":\"linux-generic\"}],\
        \"steps\":27,\"target\":131072,\"usable\":[2048,131038],\"writes\":20}\n"
    );
    // With no slot taken out, the key is there all the same, and no line.
    let text = plan_text(alloc, true, &plan, &definitions, 0, 0, false, Some(&[]))?;
    assert!(rt;
        text.as_str()
            .contains("\"ignored\":3,\"reset\":[],\"rows\":")
    );
    let text = plan_text(alloc, false, &plan, &definitions, 0, 0, false, Some(&[]))?;
    assert!(rt; text.as_str().contains("dropped b.conf\nignored 3\n"));
    Ok(())
}
