//! Generating the source of `demo`.

ghost use Rattle.std.specs.Prelude.{◌≡◌, ◌≤◌, ◌<◌, ◌+◌, ◌++◌, IfOk, length};
ghost use Rattle.pcc_demo.specs.Sources as definition;

use itoa::Buffer;
use std::alloc::{AllocError, Global};

/// The maximal number of loads that `demo` takes.
pub const MAX_DEMO: u32 = 400;

/// An upper bound, in bytes, of the source's length with up to `MAX_DEMO` loads.
pub const MAX_DEMO_SOURCE: usize = 65_536;

/// An upper bound, in bytes, of the length of the two lines of a load.
const LOAD: usize = 64;

/// Register 2 is 0.
const FIRST_LINE: &str = "      lda $2,0($31)\n";

/// A loop over the packet's quadwords, with its invariant, and the return.
const LAST_LINES: &str = "      lda $3,0($31)
      .inv (and (eq (band r3 7) 0) (all i (imp (and (ult i r17) (eq (band i 7) 0)) (rd (add r16 i)))))
loop: cmpult $3,$17,$4
      beq $4,done
      addq $16,$3,$5
      ldq $6,0($5)
      addq $2,$6,$2
      addq $3,8,$3
      br loop
done: and $2,1,$0
      ret
";

/// Adds the lines that load quadword `j` of the first eight, counted round, and sum it.
fn push_load(text: &mut Vec<u8>, j: u32) -> Result<(), AllocError>
    requires { j < MAX_DEMO }
    ensures exact { IfOk result (λ done. text.new.items
        ≡ text.old.items ++ definition.load_lines j) }
    ensures short { IfOk result (λ done. length text.new.items
        ≤ length text.old.items + LOAD) }
{
    let mut digits = Buffer::new();
    text.extend_from_slice(b"      ldq $1,")?;
    text.extend_from_slice(digits.format(8 * (j % 8)).as_bytes())?;
    text.extend_from_slice(b"($16)\n      addq $2,$1,$2\n")?;
    Ok(())
}

/// Returns the text of the source with `n` loads, which is within the limit of a source.
///
/// Errors: out of memory.
pub fn demo_source(alloc: Global, n: u32) -> Result<Vec<u8>, AllocError>
    requires { n ≤ MAX_DEMO }
    ensures exact { IfOk result (λ text. text.items ≡ definition.demo_source n) }
    ensures short { IfOk result (λ text. length text.items ≤ MAX_DEMO_SOURCE) }
{
    let mut text = Vec::from_slice(alloc, FIRST_LINE.as_bytes())?;
    for j in 0..n {
        push_load(&mut text, j)?;
    }
    text.extend_from_slice(LAST_LINES.as_bytes())?;
    Ok(text)
}
