//! Each pool is made, and sends what it should first.

use crate::last_come::LastCome;
use pools::c_look::CLook;
use pools::first_come::FirstCome;
use pools::pool::Pool;
use pools::request::{Kind, Request};
use std::test::Fail;

/// The number of the request that goes first of three, with the head between the second and the third.
fn first_sent<P: Pool + Drop>(mut pool: P) -> Option<u64> {
    for (number, first) in [(1, 500), (2, 400), (3, 300)] {
        let _ = pool.put(Request {
            number,
            application: 0,
            first,
            size: 8,
            kind: Kind::Synchronous,
        });
    }
    pool.take(0, 350).map(|request| request.number)
}

#[test]
fn each_pool_is_made_and_sends(rt: HostRuntime) -> Result<(), Fail> {
    assert_eq!(rt; first_sent(FirstCome::new(rt.alloc())?), Some(1));
    assert_eq!(rt; first_sent(CLook::new(rt.alloc())?), Some(2));
    assert_eq!(rt; first_sent(LastCome::new(rt.alloc())?), Some(3));
    Ok(())
}
