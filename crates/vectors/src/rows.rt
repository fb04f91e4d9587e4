// Document 01's rows 13 and 15 to 17, run through the calls.
use crate::print::{print_read, print_written};
use block::{Code, ETX, EndSign, Link, Method, Parity, Parts, STX, Shape, WriteRefusal};
use block_answers::block_written;
use block_reader::read_block;
use block_writer::write_block;
use frame::FrameMethod;
use frame_answers::frame_written;
use frame_writer::write_frame;
use std::io;

fn even(method: Method) -> Link {
    Link {
        method,
        parity: Parity::Even,
        code: Code::Koi7,
    }
}

pub fn row_13(rt: &impl Print) -> io::Result<()> {
    let mut out = [0u8; 16];
    let written = write_frame(FrameMethod::Cyclic32, 8, b"\xff", &mut out);
    print_written(
        rt,
        "row 13, write FF, method 6:",
        "bits",
        frame_written(written),
    )
}

pub fn row_15(rt: &impl Print) -> io::Result<()> {
    let mut out = [0u8; 16];
    let read = read_block(even(Method::Matrix), b"\x82\x41\x03\x43", &mut out);
    print_read(rt, "row 15, 82 41 03 43, method 2, even parity:", read)
}

fn write_text(text: &[u8], line: &mut [u8]) -> Result<usize, WriteRefusal> {
    let parts = Parts {
        shape: Shape::Text,
        end: EndSign::Etx,
        header: b"",
        text,
    };
    write_block(even(Method::Cyclic), &parts, &mut *line)
}

// Text and end sign are counted. The line is STX, text, ETX and two bytes of check.
pub fn row_16_taken(rt: &impl Print) -> io::Result<()> {
    let text = [b'A'; 4095];
    let mut line = [0u8; 4099];
    let mut out = [0u8; 4096];
    let written = write_text(&text, &mut line);
    print_written(
        rt,
        "row 16, write counted 4096:",
        "written",
        block_written(written),
    )?;
    let read = read_block(even(Method::Cyclic), &line, &mut out);
    print_read(rt, "row 16, read counted 4096:", read)
}

pub fn row_16_refused(rt: &impl Print) -> io::Result<()> {
    let text = [b'A'; 4096];
    let mut line = [b'A'; 4100];
    let mut out = [0u8; 4096];
    let written = write_text(&text, &mut line);
    print_written(
        rt,
        "row 16, write counted 4097:",
        "written",
        block_written(written),
    )?;
    line[0] = STX;
    line[4097] = ETX;
    let read = read_block(even(Method::Cyclic), &line, &mut out);
    print_read(rt, "row 16, read counted 4097:", read)
}

pub fn row_17(rt: &impl Print, label: &str, method: Method) -> io::Result<()> {
    let mut out = [0u8; 16];
    let read = read_block(even(method), b"", &mut out);
    print_read(rt, label, read)
}
