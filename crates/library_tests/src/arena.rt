//! A small pool, and a small twin.
use pol_arena::{Pool, Twin};
use std::test::Fail;

#[test]
fn a_taken_node_is_given_again(rt: HostRuntime) -> Result<(), Fail> {
    let mut pool = Pool::<u32>::new(rt.alloc());
    pool.reserve(2)?;
    let first = pool.put(7);
    let second = pool.put(8);
    let taken = pool.take(first);
    let again = pool.put(9);
    assert!(rt; first == 0 && second == 1 && taken == 7 && again == 0);
    *pool.get_mut(1) = 6;
    assert!(rt; *pool.get(0) == 9 && *pool.get(1) == 6);
    Ok(())
}

#[test]
fn the_oldest_goes_first(rt: HostRuntime) -> Result<(), Fail> {
    let mut twin = Twin::<u32>::new(rt.alloc());
    twin.reserve(3, 2)?;
    let a = twin.push(0, 7);
    let b = twin.push(1, 8);
    let c = twin.push(0, 9);
    assert!(rt; twin.newest(0) == Some(c) && twin.older(c) == Some(a));
    assert!(rt; twin.newest(1) == Some(b));
    assert!(rt; twin.drop_oldest() == Some(7));
    assert!(rt; twin.drop_oldest() == Some(8));
    assert!(rt; *twin.get(c) == 9);
    Ok(())
}
