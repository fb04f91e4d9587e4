// Runs: how many bytes a part begins with that pass a test (rule `first_failing` of crate block). Sixteen bytes are passed over at
// once as long as all of them pass, then byte by byte. Each function takes every input.
#![tactic(auto)]

ghost use Rattle.std.specs.Prelude.{◌≡◌, ℕ, Bool, true, ◌*◌, ◌≤◌, length};
ghost use Rattle.block.specs.Scan.{first_failing, AllPass};

// A test of a byte, with what it is set to.
pub trait ByteTest: Copy {
    ghost passing: { Self → ℕ → Bool };

    fn passes(self, b: u8) -> bool
        ensures { result ≡ passing self b };

    // Whether 16 bytes are known to pass. The compiler takes all 16 at once.
    fn sixteen_pass(self, sixteen: &[u8; 16]) -> bool
        ensures { result ≡ true → AllPass (passing self) sixteen.now 0 16 }
    {
        let mut all = true;
        for b in sixteen {
            all = all & self.passes(*b);
        }
        all
    }
}

// The run, byte by byte, as short ones are best found.
pub fn short_run<T: ByteTest>(test: T, part: &[u8]) -> usize
    ensures { result ≡ first_failing (T.passing test) 0 part.now }
{
    part.iter()
        .position(|b| !test.passes(*b))
        .unwrap_or(part.len())
}

// How many sixteens a part begins with that are known to pass.
fn sixteens_passed<T: ByteTest>(test: T, part: &[u8]) -> usize
    ensures { (16 * result ≤ length part.now) × AllPass (T.passing test) part.now 0 (16 * result) }
{
    let sixteens = part.as_chunks::<16>().0;
    sixteens
        .iter()
        .position(|sixteen| !test.sixteen_pass(sixteen))
        .unwrap_or(sixteens.len())
}

// The run, by sixteens and then byte by byte.
pub fn run<T: ByteTest>(test: T, part: &[u8]) -> usize
    ensures { result ≡ first_failing (T.passing test) 0 part.now }
{
    let passed = 16 * sixteens_passed(test, part);
    passed + short_run(test, &part[passed..])
}
