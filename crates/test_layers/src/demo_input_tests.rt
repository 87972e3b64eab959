//! The source and packets of small and large numbers.

use pcc_demo::{MAX_DEMO, demo_packet, demo_source};
use std::test::Fail;

/// Two loads.
const TWO: &str = "      lda $2,0($31)
      ldq $1,0($16)
      addq $2,$1,$2
      ldq $1,8($16)
      addq $2,$1,$2
      lda $3,0($31)
      .inv (and (eq (band r3 7) 0) (all i (imp (and (ult i r17) (eq (band i 7) 0)) (rd (add r16 i)))))
loop: cmpult $3,$17,$4
      beq $4,done
      addq $16,$3,$5
      ldq $6,0($5)
      addq $2,$6,$2
      addq $3,8,$3
      br loop
done: and $2,1,$0
      ret
";

#[test]
fn sources(rt: HostRuntime) -> Result<(), Fail> {
    let two = demo_source(rt.alloc(), 2)?;
    assert!(rt; two.as_slice() == TWO.as_bytes());
    let most = demo_source(rt.alloc(), MAX_DEMO)?;
    assert!(rt; most.len() == 16_605);
    Ok(())
}

/// The number of `demo`, that of a packet, its length, and its first and last byte.
#[test]
fn packets(rt: HostRuntime) -> Result<(), Fail> {
    let rows = [
        (3, 0, 64, 3, 66),
        (3, 15, 109, 18, 126),
        (400, 0, 64, 144, 207),
        (400, 15, 6_064, 159, 78),
    ];
    for (n, k, length, first, last) in rows {
        let packet = demo_packet(rt.alloc(), n, k)?;
        assert!(rt; packet.len() == length);
        assert!(rt; packet.first().copied() == Some(first));
        assert!(rt; packet.last().copied() == Some(last));
    }
    Ok(())
}
