use rp_base::List;
use rp_policy::{Judged, Kind};
use rp_types::Designator;
use rp_verdict::{Verdict, Verdicts};
use rp_verdict_text::verdict_text;
use std::test::Fail;

#[test]
fn with_ample_memory_verdicts_have_their_text(rt: HostRuntime) -> Result<(), Fail> {
    let alloc = rt.alloc();
    let root = Verdict {
        designator: Designator::Root,
        slot: Some(1),
        judged: Judged::Use(Kind::Verity),
    };
    let usr = Verdict {
        designator: Designator::Usr,
        slot: None,
        judged: Judged::Absent,
    };
    let verdicts = Verdicts {
        list: List::from_vec(vec![in alloc; root, usr]?),
        extra: List::from_vec(vec![in alloc; 7u16]?),
    };
    let text = verdict_text(alloc, false, &verdicts)?;
    assert_eq!(rt; text.as_str(), "root 1 verity\nusr - absent\nextra 7\n");
    let text = verdict_text(alloc, true, &verdicts)?;
    assert_eq!(rt;
        text.as_str(),
        "{\"extra\":[7],\"verdicts\":[{\"designator\":\"root\",\"slot\":1,\"verdict\":\"verity\"},\
        {\"designator\":\"usr\",\"slot\":null,\"verdict\":\"absent\"}]}\n"
    );
    Ok(())
}
