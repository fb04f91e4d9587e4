// The register of methods 3 and 4 over a segment of a framed line: `enter_kept` enters what is neither fill nor the first DLE of a
// pair (rule `kept_bytes` of crate block_framing). It takes every input.
#![tactic(auto)]

ghost use Rattle.std.specs.Prelude.{◌≡◌, false, true};
ghost use Rattle.generator16.specs.Register.{register_after};
ghost use Rattle.block.specs.Signs.{table_of};
ghost use Rattle.block_framing.specs.Framings.{is_kept, kept_bytes};
ghost use Rattle.block_register.specs.Runs.{KeptRun};

use block::Code;
use block_segments::{Keeping, copy_kept, is_kept};
use generator16::{Generator16, enter_one, enter_run};
use runs::{ByteTest, short_run};

// What is kept of a clear text where it stands behind no DLE.
#[derive(Clone, Copy)]
struct KeptClear {
    code: Code,
}

impl ByteTest for KeptClear {
    ghost passing = { λ test. is_kept (table_of test.code) true false false };

    fn passes(self, b: u8) -> bool {
        is_kept(self.code, true, false, false, b)
    }
}

// How many kept bytes a part of a clear text begins with: none is counted behind a DLE.
fn kept_length(code: Code, behind: bool, part: &[u8]) -> usize
    ensures { KeptRun (table_of code) behind part.now 0 result }
{
    if behind {
        return 0;
    }
    short_run(KeptClear { code }, part)
}

// The kept bytes of a clear text: a byte, then the run of kept bytes behind it. A turn takes as many bytes as the run has, so no `for`
// is plainer.
fn enter_clear<G: Generator16>(start: u16, code: Code, part: &[u8]) -> u16
    ensures { result ≡ register_after G.generator start (kept_bytes (table_of code) true false false part.now) }
{
    let mut register = start;
    let mut keeping = Keeping::new(code, true, false);
    let mut rest = part;
    while let Some((b, after)) = rest.split_first() {
        if keeping.keeps(*b) {
            register = enter_one::<G>(register, *b);
        }
        let (kept, left) = after.split_at(kept_length(keeping.code, keeping.behind, after));
        register = enter_run::<G>(register, kept);
        rest = left;
    }
    register
}

// The kept bytes of a header or a plain text, by pieces: what a piece keeps is gathered, and enters as one run. The buffer is fixed, since
// the library takes no memory.
fn enter_gathered<G: Generator16>(start: u16, code: Code, part: &[u8]) -> u16
    ensures { result ≡ register_after G.generator start (kept_bytes (table_of code) false false false part.now) }
{
    let mut gathered = [0u8; 256];
    let mut register = start;
    for piece in part.chunks(256) {
        let n = copy_kept(code, false, false, piece, &mut gathered);
        register = enter_run::<G>(register, &gathered[..n]);
    }
    register
}

// The kept bytes of a segment of methods 3 and 4, entered into a register.
pub fn enter_kept<G: Generator16>(start: u16, code: Code, clear: bool, part: &[u8]) -> u16
    ensures { result ≡ register_after G.generator start (kept_bytes (table_of code) clear false false part.now) }
{
    if clear {
        return enter_clear::<G>(start, code, part);
    }
    enter_gathered::<G>(start, code, part)
}
