//! The allocator of the tests: it refuses the nth allocation alone, in a thread too.

use failing_allocator::Refusing;
use std::alloc::{AllocError, Allocator, Global};
use std::sync::{Mutex, Wait};
use std::test::Fail;
use std::thread;
use std::thread::Threads;

fn rows<A: Allocator + Copy>(alloc: A, n: u8) -> Result<Vec<Vec<u8, A>, A>, AllocError> {
    let mut all = Vec::new(alloc);
    for i in 0..n {
        let mut row = Vec::new(alloc);
        row.push(i)?;
        all.push(row)?;
    }
    Ok(all)
}

/// How many rows were made of nine.
fn count<A: Allocator + Copy>(alloc: A) -> Option<usize> {
    match rows(alloc, 9) {
        Ok(all) => Some(all.len()),
        Err(_) => None,
    }
}

#[test]
fn refuses_each_in_turn(rt: HostRuntime) -> Result<(), Fail> {
    let heap = Refusing::new(rt.alloc());
    let mut met = 0u64;
    for n in 1..1000u64 {
        heap.refuse(n);
        let made = count(&heap);
        if heap.has_refused() {
            assert_eq!(rt; made, None, "refused {n}");
            met = n;
        } else {
            assert_eq!(rt; made, Some(9));
            break;
        }
    }
    println!(rt; "{met} growths")?;
    assert_eq!(rt; met, 12);
    Ok(())
}

fn add<A: Allocator + Copy>(rt: &impl Wait, list: &Mutex<Vec<u64, A>>) -> bool {
    let mut held = list.lock(rt);
    held.push(1).is_ok()
}

fn both<R: Threads + Wait + Sync, A: Allocator + Copy + Send + Sync>(
    rt: &R,
    list: &Mutex<Vec<u64, A>>,
) -> bool {
    let (a, b) = thread::join(rt, || add(rt, list), || add(rt, list));
    a && b
}

fn len_of<A: Allocator>(list: Mutex<Vec<u64, A>>) -> usize {
    list.into_inner().len()
}

#[test]
fn refuses_in_a_thread(rt: HostRuntime) -> Result<(), Fail> {
    let heap = Refusing::new(rt.alloc());
    let list: Mutex<Vec<u64, &Refusing<Global>>> = Mutex::new(Vec::new(&heap));
    heap.refuse(1);
    let both = both(&rt, &list);
    let refused = heap.has_refused();
    let len = len_of(list);
    assert!(rt; !both);
    assert!(rt; refused);
    assert_eq!(rt; len, 1);
    Ok(())
}
