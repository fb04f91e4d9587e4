// A sending station that keeps its blocks until they are acknowledged (003 par. 3.5; document 02, cards 6 and 14): `submit` numbers a
// block and copies it into the store, `acknowledge` frees the named block and all before it, `order` puts later blocks under another
// method, and `send` writes the line of a stored block under the block's own. Every input is taken. What does not pass a question is
// refused with document 02's number, and a refused call alters neither record nor store. `submit_to` and `acknowledge_to` are the same
// calls on a record that stays with the line driver.
#![tactic(auto)]

// What the station knows of its blocks: the number of the next one, how many are stored, the cell that the next one goes to, and the
// length of the block in each cell. Their bytes stand in a store of w cells of 4,096 bytes, a ring that is filled from the first
// cell on. Of orders it knows the method that the last one named, the method before it, each by its number or 0 for the method before any
// order, and how many of the stored blocks are from before it. A fresh station is all zeros.
#[derive(Clone, Copy)]
#[repr(C)]
pub struct Station {
    pub next: u8,
    pub stored: u8,
    pub cell: u8,
    pub lengths: [u16; 7],
    pub method: u8,
    pub former: u8,
    pub older: u8,
}

#[derive(Clone, Copy)]
pub enum SenderRefusal {
    // 41: n is not from 1 to 7
    Modulus,
    // 51: w is not from 1 to 7 and below the modulus, or the record is none of this n and w
    Record,
    // 6: the store is shorter than w cells, or the output than the line; the bytes needed
    TooShort(usize),
    // 57: the block is over 4,095 bytes
    TooLong,
    // 55: w blocks are stored already
    Full,
    // 56: the named number is not stored
    NotStored,
    // 67: a block from before the last order is still stored
    OrderPending,
}

// The answer, a block's or an order's number or how many blocks were freed, and the record after it.
#[derive(Clone, Copy)]
pub struct SenderResult {
    pub answer: Result<u8, SenderRefusal>,
    pub after: Station,
}

mod calls;
mod ordering;
mod questions;
mod records;
mod ring;
mod sending;

pub use calls::{acknowledge, acknowledge_to, submit, submit_to, submit_zeros};
pub use ordering::order;
pub use questions::ask_store;
pub use sending::send;
