use flow_outside::words::Words;
use std::test::Fail;

#[test]
fn keeps_words_in_their_order(rt: HostRuntime) -> Result<(), Fail> {
    let mut words = Words::new(rt.alloc());
    words.push("check")?;
    words.push("plan.json")?;
    assert_eq!(rt; words.len(), 2);
    assert_eq!(rt; words.at(0), "check");
    assert_eq!(rt; words.at(1), "plan.json");
    Ok(())
}
