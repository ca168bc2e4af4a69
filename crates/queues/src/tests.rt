use super::queue::*;

// First all entries come in rising order, then those that were put.
#[test]
fn normal_course(rt: HostRuntime) {
    let mut w = [0u32; 4];
    let mut q = Queue::rising(3);
    assert_eq!(rt; q.take(&mut w), Some(0));
    assert_eq!(rt; q.take(&mut w), Some(1));
    assert!(rt; q.put(&mut w, 1) && q.put(&mut w, 0));
    assert_eq!(rt; w, [1, 2, 0, 0]);
    assert!(rt; !q.put(&mut w, 1), "it was put already");
    assert!(rt; !q.put(&mut w, 2), "it waits since the start");
    assert!(rt; !q.put(&mut w, 3), "it is none of the queue's");
    assert_eq!(rt; q.take(&mut w), Some(2));
    assert_eq!(rt; q.head(), Some(1));
    assert_eq!(rt; q.take(&mut w), Some(1));
    assert_eq!(rt; q.take(&mut w), Some(0));
    assert!(rt; q.is_empty());
    assert_eq!(rt; w, [0, 0, 0, 0]);
}

// Something else made a place lead outside: the number comes out as it stands, and the queue is empty then.
#[test]
fn leads_outside(rt: HostRuntime) {
    let mut w = [0u32, 0, 7];
    let mut q = Queue::rising(2);
    assert_eq!(rt; q.take(&mut w), Some(0));
    assert_eq!(rt; q.take(&mut w), Some(1));
    assert!(rt; q.put(&mut w, 0) && q.put(&mut w, 1));
    w[0] = 4;
    assert_eq!(rt; q.take(&mut w), Some(0));
    assert_eq!(rt; q.take(&mut w), Some(2));
    assert!(rt;
        q.is_empty() && !q.put(&mut w, 1),
        "no longer reached, and still marked"
    );
    assert_eq!(rt; w, [0, 1, 7]);
    q.clear(&mut w);
    assert_eq!(rt; w, [0, 0, 7]);
    assert!(rt; q.put(&mut w, 1));
}
