// Runs the published check values and document 01's rows 11 to 13 and 15 to 17 through the calls, and prints what they answer, a
// row a line. The file `stdout` holds what the papers say.
#![tactic(auto)]

use block::Method;
use cyclic::Cyclic;
use cyclic3::Cyclic3;
use cyclic4::Cyclic4;
use cyclic5::Cyclic5;
use cyclic6::Cyclic6;
use registers::{sent16, sent32};
use std::io;

mod print;
mod rows;

fn print_check(rt: &impl Print, label: &str, check: u64, digits: usize) -> io::Result<()> {
    println!(rt; "{label}{check:0digits$x}")
}

// A check in the order sent.
fn print_sent(rt: &impl Print, label: &str, sent: &[u8]) -> io::Result<()> {
    print!(rt; "{label}")?;
    for byte in sent {
        print!(rt; " {byte:02x}")?;
    }
    print!(rt; "\n")
}

// The check values that are published for each polynomial.
fn published(rt: &impl Print) -> io::Result<()> {
    print_check(
        rt,
        "123456789, method 3: ",
        Cyclic3::check_of(b"123456789") as u64,
        4,
    )?;
    print_check(
        rt,
        "123456789, method 4: ",
        Cyclic4::check_of(b"123456789") as u64,
        4,
    )?;
    print_check(
        rt,
        "123456789, method 4 in two parts: ",
        Cyclic4::new().enter(b"1234").enter(b"56789").check() as u64,
        4,
    )?;
    print_check(
        rt,
        "123456789, method 5: ",
        Cyclic5::check_of(b"123456789") as u64,
        4,
    )?;
    print_check(
        rt,
        "123456789, method 6: ",
        Cyclic6::check_of(b"123456789") as u64,
        8,
    )
}

// Document 01's rows 11 to 13.
fn checks(rt: &impl Print) -> io::Result<()> {
    let row_11 = sent16(Cyclic5::check_of(b"\xff"));
    let row_12 = sent16(Cyclic5::check_of(b"\xff\xff"));
    let row_13 = sent32(Cyclic6::check_of(b"\xff"));
    print_sent(rt, "row 11, check of FF, method 5:", &row_11)?;
    print_sent(rt, "row 12, check of FF FF, method 5:", &row_12)?;
    print_sent(rt, "row 13, check of FF, method 6:", &row_13)
}

fn main(rt: HostRuntime) -> io::Result<()> {
    published(&rt)?;
    checks(&rt)?;
    rows::row_13(&rt)?;
    rows::row_15(&rt)?;
    rows::row_16_taken(&rt)?;
    rows::row_16_refused(&rt)?;
    rows::row_17(&rt, "row 17, empty line, method 1:", Method::Parity)?;
    rows::row_17(&rt, "row 17, empty line, method 2:", Method::Matrix)?;
    rows::row_17(&rt, "row 17, empty line, method 3:", Method::Cyclic)?;
    rows::row_17(
        &rt,
        "row 17, empty line, method 4:",
        Method::CyclicAlternative,
    )?;
    rows::row_17(&rt, "row 17, empty line, method 7:", Method::Diagonal)
}
