use jv_model::{Fault, Reply, copied};
use jv_script_drawn::Totals;
use std::test::Fail;

#[test]
fn five_answers_are_summed_up(rt: HostRuntime) -> Result<(), Fail> {
    let mut totals = Totals::new();
    totals.count(&Reply::SessionMade { sid: 1 });
    totals.count(&Reply::Refused(Fault::NotFound));
    totals.count(&Reply::Data(copied(rt.alloc(), b"abc")?));
    totals.count(&Reply::Count { bytes: 4_096 });
    totals.count(&Reply::Data(copied(rt.alloc(), &[255, 1])?));
    let line = totals.line(rt.alloc())?;
    let text = b"lines 5 ok 4 err 1 bytes 5 sum 550\n";
    assert_eq!(rt; line.as_slice(), text.as_slice());
    Ok(())
}

#[test]
fn no_answers_sum_up_to_zeros(rt: HostRuntime) -> Result<(), Fail> {
    let line = Totals::new().line(rt.alloc())?;
    let text = b"lines 0 ok 0 err 0 bytes 0 sum 0\n";
    assert_eq!(rt; line.as_slice(), text.as_slice());
    Ok(())
}
