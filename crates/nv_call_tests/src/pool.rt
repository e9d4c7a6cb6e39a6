use nv_pool::Pool;
use std::test::Fail;

#[test]
fn chunks_of_payloads(rt: HostRuntime) -> Result<(), Fail> {
    let mut pool = Pool::make(rt.alloc(), 12, 2)?;
    assert_eq!(rt; pool.next(), 0);
    assert_eq!(rt; pool.add(4096), 0);
    assert_eq!(rt; pool.add(1), 8);
    assert!(rt; pool.fits(1536, 0));
    assert!(rt; !pool.fits(1537, 0));
    assert_eq!(rt; pool.add(0), 9);
    assert_eq!(rt; pool.next(), 9);
    assert_eq!(rt; pool.count(), 3);
    Ok(())
}

// The end of the pool is passed, and what came before the last two is forgotten.
#[test]
fn chunks_go_round(rt: HostRuntime) -> Result<(), Fail> {
    let mut pool = Pool::make(rt.alloc(), 12, 2)?;
    assert_eq!(rt; pool.add(4096), 0);
    assert_eq!(rt; pool.add(2048), 8);
    assert!(rt; pool.fits(0, 0));
    assert!(rt; !pool.fits(1, 0));
    assert!(rt; pool.fits(4096, 1));
    assert_eq!(rt; pool.add(513), 0);
    assert!(rt; pool.fits(3072, 1));
    assert!(rt; !pool.fits(3073, 1));
    assert!(rt; pool.fits(4096, 3));
    Ok(())
}
