//! Each call that takes memory, once, with memory to spare, and whom `next_told` names.
use jsp_outbox::Outboxes;
use jsp_reply::{Reply, Said};
use std::test::Fail;

fn done(id: u64) -> Said {
    Said::new(Reply::Done { id })
}

#[test]
fn answers_are_posted_and_handed_out(rt: HostRuntime) -> Result<(), Fail> {
    let mut outboxes = Outboxes::new(rt.alloc());
    let mut sayings = Vec::new(rt.alloc());
    sayings.push((2, done(6)))?;
    sayings.push((1, done(7)))?;
    let _posts = outboxes.post_all(rt.alloc(), sayings)?;
    let _posted = outboxes.post(rt.alloc(), 2, done(8))?;
    assert_eq!(rt; outboxes.hand_out(rt.alloc(), 2, 1)?.len(), 1);
    assert_eq!(rt; outboxes.waiting(2), 1);
    Ok(())
}

#[test]
fn outboxes_are_copied_and_made_again(rt: HostRuntime) -> Result<(), Fail> {
    let mut outboxes = Outboxes::new(rt.alloc());
    let _posted = outboxes.post(rt.alloc(), 1, done(5))?;
    let again = Outboxes::of(outboxes.to_items(rt.alloc())?)?;
    assert_eq!(rt; again.next_after(0), Some(1));
    Ok(())
}

#[test]
fn whom_something_is_told_is_named_once_for_it(rt: HostRuntime) -> Result<(), Fail> {
    let mut outboxes = Outboxes::new(rt.alloc());
    let _posted = outboxes.post(rt.alloc(), 1, done(5))?;
    let _posted = outboxes.post(rt.alloc(), 2, done(6))?;
    assert_eq!(rt; outboxes.next_told(), Some(2));
    assert_eq!(rt; outboxes.next_told(), Some(1));
    assert_eq!(rt; outboxes.next_told(), None);
    let _posted = outboxes.post(rt.alloc(), 1, done(7))?;
    assert_eq!(rt; outboxes.next_told(), Some(1));
    assert_eq!(rt; outboxes.next_told(), None);
    Ok(())
}

#[test]
fn very_many_to_whom_something_is_told_are_all_named(rt: HostRuntime) -> Result<(), Fail> {
    let mut outboxes = Outboxes::new(rt.alloc());
    for session in 1..=2_000 {
        let _posted = outboxes.post(rt.alloc(), session, done(session))?;
    }
    for session in 1..=2_000 {
        assert_eq!(rt; outboxes.next_told(), Some(session));
    }
    Ok(())
}

#[test]
fn what_waits_has_a_weight(rt: HostRuntime) -> Result<(), Fail> {
    let mut outboxes = Outboxes::new(rt.alloc());
    assert_eq!(rt; outboxes.weight(1), 0);
    let _posted = outboxes.post(rt.alloc(), 1, done(5))?;
    let one = outboxes.weight(1);
    assert!(rt; 0 < one);
    let posted = outboxes.post(rt.alloc(), 1, done(6))?;
    assert_eq!(rt; outboxes.weight(1), one.saturating_add(one));
    outboxes.take_back(posted);
    assert_eq!(rt; outboxes.weight(1), one);
    let _posted = outboxes.post(rt.alloc(), 1, done(7))?;
    assert_eq!(rt; outboxes.hand_out(rt.alloc(), 1, 1)?.len(), 1);
    assert_eq!(rt; outboxes.weight(1), one);
    assert_eq!(rt; outboxes.hand_out(rt.alloc(), 1, 1)?.len(), 1);
    assert_eq!(rt; outboxes.weight(1), 0);
    Ok(())
}
