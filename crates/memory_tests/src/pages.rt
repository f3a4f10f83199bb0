use corten_base::PageBuf;
use frame_pool::Pool;
use std::test::Fail;
use swap_slots::Area;

fn moves_between_threads<T: Send + Sync>(_value: &T) {}

#[test]
fn a_frame_is_written_and_given_back(rt: HostRuntime) -> Result<(), Fail> {
    let mut pool = Pool::new(rt.alloc(), 2)?;
    let mut frame = pool.take().ok_or("the frame")?;
    pool.write_at(&mut frame, 1, b"ab");
    let mut found = [7; 4];
    frame.read_at(0, &mut found);
    assert_eq!(rt; found, [0, b'a', b'b', 0]);
    assert_eq!(rt; (frame.number(), pool.count(0), pool.free()), (0, 1, 1));
    moves_between_threads(&pool);
    moves_between_threads(&frame);
    pool.give_back(frame);
    assert_eq!(rt; pool.free(), 2);
    Ok(())
}

#[test]
fn a_frame_is_shared(rt: HostRuntime) -> Result<(), Fail> {
    let mut pool = Pool::new(rt.alloc(), 1)?;
    let mut frame = pool.take().ok_or("the frame")?;
    let (body, spare) = frame.share_body(rt.alloc())?;
    let second = pool.share(&frame, body, spare);
    assert_eq!(rt; (pool.count(0), frame.bytes()[0]), (2, 0));
    assert!(rt; frame.own_body(PageBuf::zero(rt.alloc())?).is_none());
    let _second = second;
    Ok(())
}

#[test]
fn a_slot_is_shared_and_taken_out(rt: HostRuntime) -> Result<(), Fail> {
    let mut area = Area::new(rt.alloc(), 1)?;
    let mut page = PageBuf::zero(rt.alloc())?;
    page.write_at(0, b"new");
    let mut slot = area.put(page.bytes()).ok_or("the slot")?;
    let (body, spare) = slot.share_body(rt.alloc())?;
    let second = area.share(&slot, body, spare);
    assert_eq!(rt; (second.number(), area.count(0), area.free()), (0, 2, 0));
    moves_between_threads(&area);
    moves_between_threads(&slot);
    area.give_back(slot);
    let mut out = [0; 4096];
    area.take_out(second, &mut out);
    assert!(rt; out.starts_with(b"new"));
    Ok(())
}
