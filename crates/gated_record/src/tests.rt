//! The record on a station that stops after each number of disk calls.

use crate::{CLOSED, OPEN, put_record};
use std::test::Fail;
use xs_outside::{MemoryStation, Side};

const RECORD: &[u8] = b"\x01payload";

#[test]
fn a_record_stands_whole_or_not_at_all(rt: HostRuntime) -> Result<(), Fail> {
    let alloc = rt.alloc();
    for calls in 0..5_u64 {
        let mut station = MemoryStation::new(
            Vec::new(alloc),
            [CLOSED].to_vec(alloc)?,
            Vec::new(alloc),
            Vec::new(alloc),
        )?;
        station.stop_after(calls);
        let recorded = put_record(&mut station, Side::A, b"payload").is_ok();
        assert_eq!(rt; recorded, calls == 4);
        for image in station.images()?.as_slice() {
            let whole = image.a.as_slice() == RECORD;
            assert!(rt; whole || (!recorded && image.a.as_slice().first() != Some(&OPEN)));
        }
    }
    Ok(())
}
