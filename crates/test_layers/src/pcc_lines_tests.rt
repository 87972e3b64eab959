//! A line that `pcc` prints of no file that fits on a disk. All other lines are in rows of `pcc`
//! (test_commands).

use file_port::MemSink;
use pcc_lines::print_too_big;
use std::test::Fail;

/// The line of a size that is past all numbers below.
#[test]
fn the_greatest_size(rt: HostRuntime) -> Result<(), Fail> {
    let mut out = MemSink::new(rt.alloc(), 100, Vec::new(rt.alloc()))?;
    print_too_big("bytes", 18_446_744_073_709_551_615, &mut out);
    assert!(rt; out.bytes() == b"too big bytes 18446744073709551615\n".as_slice());
    Ok(())
}
