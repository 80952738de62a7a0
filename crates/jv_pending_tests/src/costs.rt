//! Writes whose time shows a loop that is quadratic in them.
use jv_model::{Bytes, MAX_DATA, WINDOW, copied};
use jv_pending::Pending;
use std::test::Fail;

/// The bytes of each write.
const BYTES: &[u8; 16] = b"sixteen bytes ..";

/// How many writes there are in each order.
const COUNT: u64 = 200_000;

/// Where the forward writes begin, and the backward ones end.
const MIDDLE: u64 = 8 * WINDOW;

#[test]
fn forward_and_backward_writes_take_linear_time(rt: HostRuntime) -> Result<(), Fail> {
    let bytes = copied(rt.alloc(), BYTES.as_slice())?;
    let mut pending = Pending::new(rt.alloc(), u64::MAX);
    assert!(rt; bytes.len() == 16);
    for number in 0..COUNT {
        assert_eq!(rt; pending.write(1, MIDDLE + number * 16, &bytes), Ok(()));
        assert_eq!(rt;
            pending.write(1, MIDDLE - (number + 1) * 16, &bytes),
            Ok(())
        );
        assert_eq!(rt; pending.write(2, number * 16, &bytes), Ok(()));
    }
    assert_eq!(rt; pending.bytes(), 3 * COUNT * 16);
    Ok(())
}

#[test]
fn writes_across_a_border_of_long_runs_take_linear_time(rt: HostRuntime) -> Result<(), Fail> {
    let side = Bytes::from_vec(vec![in rt.alloc(); 0; MAX_DATA as usize]?);
    assert!(rt; side.len() as u64 == MAX_DATA);
    let bytes = copied(rt.alloc(), BYTES.as_slice())?;
    assert!(rt; bytes.len() == 16);
    let mut pending = Pending::new(rt.alloc(), u64::MAX);
    assert_eq!(rt; pending.write(1, WINDOW - MAX_DATA, &side), Ok(()));
    assert_eq!(rt; pending.write(1, WINDOW, &side), Ok(()));
    for _ in 0..COUNT {
        assert_eq!(rt; pending.write(1, WINDOW - 8, &bytes), Ok(()));
    }
    assert_eq!(rt; pending.bytes(), 2 * MAX_DATA);
    Ok(())
}
