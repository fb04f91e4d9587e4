// The line's columns, one after the other. The place on the line moves on by the length of each column, for which the text's length is
// divided by d once.
ghost use Rattle.std.specs.Prelude.{◌≡◌, ◌+◌, ◌-◌, ◌<◌, ◌≤◌, ◌^◌, ℕ, List, length, min};
ghost use Rattle.interleave.specs.Steps.{start, size, Sent, Returned};

// The length of column c, where each has so many rows and the first `longer` columns one more.
fn column_length(rows: usize, longer: usize, c: usize) -> usize
    requires { rows < 2 ^ 63 }
    ensures { result ≡ rows + min 1 (longer - c) }
{
    if c < longer { rows + 1 } else { rows }
}

// Column c of the text goes to the line from place k on.
fn put_column(d: usize, c: usize, rows: usize, text: &[u8], out: &mut [u8], k: usize)
    requires column { c < d }
    requires whole { rows ≡ size d (length text.now) c }
    requires begins { k ≡ start d (length text.now) c }
    requires room { length text.now ≤ length out.old }
    ensures { (before : List ℕ) → Sent d text.now before out.old k → Sent d text.now before out.new (k + rows) }
{
    for r in 0..rows {
        out[k + r] = text[c + r * d];
    }
}

// Column c of the line, which begins at place k, goes back to where it stood in the text.
fn take_column(d: usize, c: usize, rows: usize, line: &[u8], out: &mut [u8], k: usize)
    requires column { c < d }
    requires whole { rows ≡ size d (length line.now) c }
    requires begins { k ≡ start d (length line.now) c }
    requires room { length line.now ≤ length out.old }
    ensures { (before : List ℕ) → Returned d line.now before out.old k → Returned d line.now before out.new (k + rows) }
{
    for r in 0..rows {
        out[c + r * d] = line[k + r];
    }
}

pub(crate) fn put_columns(d: usize, text: &[u8], out: &mut [u8])
    requires d_least { 1 ≤ d }
    requires room { length text.now ≤ length out.old }
    ensures { Sent d text.now out.old out.new (length text.now) }
{
    let rows = text.len() / d;
    let longer = text.len() % d;
    let mut k = 0;
    for c in 0..d {
        let length = column_length(rows, longer, c);
        put_column(d, c, length, text, &mut *out, k);
        k += length;
    }
}

pub(crate) fn take_columns(d: usize, line: &[u8], out: &mut [u8])
    requires d_least { 1 ≤ d }
    requires room { length line.now ≤ length out.old }
    ensures { Returned d line.now out.old out.new (length line.now) }
{
    let rows = line.len() / d;
    let longer = line.len() % d;
    let mut k = 0;
    for c in 0..d {
        let length = column_length(rows, longer, c);
        take_column(d, c, length, line, &mut *out, k);
        k += length;
    }
}
