// A queue of two numbers.
use lb_fifo::Fifo;

#[test]
fn first_in_first_out(rt: HostRuntime) {
    let mut queue: Fifo<u32, 2> = Fifo::new();
    assert!(rt; queue.front().is_none());
    queue.put(3);
    queue.put(5);
    assert_eq!(rt; queue.len(), 2);
    assert_eq!(rt; queue.front().copied(), Some(3));
    assert_eq!(rt; *queue.item(1), 5);
    queue.set_front(4);
    assert_eq!(rt; queue.as_slice(), [4, 5].as_slice());
    assert_eq!(rt; queue.take(), 4);
    queue.put(6);
    assert_eq!(rt; queue.take(), 5);
    assert_eq!(rt; queue.take(), 6);
    assert_eq!(rt; queue.len(), 0);
}
