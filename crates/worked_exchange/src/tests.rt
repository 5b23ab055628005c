use exchange_core::event::Event;
use exchange_core::fault::{RunFault, StepFault};
use exchange_core::page::Page;
use exchange_core::run::run;
use exchange_core::state::State;
use std::test::Fail;

#[test]
fn each_step_moves_one_lane(rt: HostRuntime) -> Result<(), Fail> {
    let mut state = State::start(rt.alloc(), 3)?;
    assert_eq!(rt; state.sent(2, 1).len(), 0);
    assert!(rt; state.mailbox(2, 1).is_none());

    let page = Page::of(b"seven".to_vec(rt.alloc())?);
    assert_eq!(rt; state.step(Event::Put { p: 2, c: 1, page }), Ok(()));
    assert_eq!(rt; state.sent(2, 1).len(), 1);
    assert_eq!(rt; state.received(2, 1).len(), 0);
    let waiting = state.mailbox(2, 1).ok_or("an empty mailbox")?;
    assert_eq!(rt; waiting.bytes(), b"seven".as_slice());

    let page = Page::of(b"eight".to_vec(rt.alloc())?);
    let full = state.step(Event::Put { p: 2, c: 1, page });
    assert_eq!(rt; full, Err(StepFault::NotNow));

    assert_eq!(rt; state.step(Event::Got { p: 2, c: 1 }), Ok(()));
    assert!(rt; state.mailbox(2, 1).is_none());
    let got = state.received(2, 1).first().ok_or("nothing received")?;
    assert_eq!(rt; got.bytes(), b"seven".as_slice());
    assert_eq!(rt; state.sent(1, 2).len(), 0);
    Ok(())
}

#[test]
fn a_run_stops_at_its_first_refusal(rt: HostRuntime) -> Result<(), Fail> {
    let mut events = Vec::new(rt.alloc());
    let page = Page::of(b"one".to_vec(rt.alloc())?);
    events.push(Event::Put { p: 0, c: 1, page })?;
    events.push(Event::Got { p: 0, c: 1 })?;
    events.push(Event::Got { p: 0, c: 1 })?;
    let fault = run(rt.alloc(), 2, events).err();
    assert_eq!(rt; fault, Some(RunFault::NotNow { place: 2 }));
    Ok(())
}

#[test]
fn a_run_leaves_what_was_received(rt: HostRuntime) -> Result<(), Fail> {
    let mut events = Vec::new(rt.alloc());
    let page = Page::of(b"one".to_vec(rt.alloc())?);
    events.push(Event::Put { p: 1, c: 0, page })?;
    events.push(Event::Got { p: 1, c: 0 })?;
    let page = Page::of(b"two".to_vec(rt.alloc())?);
    events.push(Event::Put { p: 1, c: 0, page })?;
    let state = run(rt.alloc(), 2, events)?;
    assert_eq!(rt; state.sent(1, 0).len(), 2);
    assert_eq!(rt; state.received(1, 0).len(), 1);
    let waiting = state.mailbox(1, 0).ok_or("an empty mailbox")?;
    assert_eq!(rt; waiting.bytes(), b"two".as_slice());
    Ok(())
}
