// The static library for C and Rust: reading and writing blocks, frames and fixed blocks, the number check, the sender, orders of another
// method and the receiver, interleaving, replay, the checks of methods 3 to 6 and those of two parts joined. Methods, shapes, degrees and refusals go by document 01's
// numbers; 0 is success. Every input is taken: a code outside its list answers 1, with an answer of zeros. The output keeps every byte
// that a success does not name. Bit 0 of a check is its highest power and is sent first. A slice is passed as a pointer and then a
// length, a `&mut` number or array as a pointer. include/corridor.h documents every call.
#![tactic(auto)]

ghost use Rattle.std.specs.Prelude.{◌≡◌};
ghost use Rattle.bits.specs.Bytes.{low_bits, bits_of};
ghost use Rattle.cyclic.specs.Check.{check_bits, method3, method4, method5, method6};

use cyclic::Cyclic;
use cyclic3::Cyclic3;
use cyclic4::Cyclic4;
use cyclic5::Cyclic5;
use cyclic6::Cyclic6;

mod blocks;
mod fixed_blocks;
mod frames;
mod interleaving;
mod joins;
mod numbers;
mod orders_of_methods;
mod replays;
mod senders;

pub use blocks::{corridor_read_block, corridor_write_block};
pub use fixed_blocks::{corridor_read_fixed, corridor_write_fixed};
pub use frames::{corridor_read_frame, corridor_write_frame};
pub use interleaving::{corridor_deinterleave, corridor_interleave};
pub use joins::{corridor_join_3, corridor_join_4, corridor_join_5, corridor_join_6};
pub use numbers::corridor_receive;
pub use orders_of_methods::{
    corridor_order, corridor_send, corridor_tell_block, corridor_tell_order,
};
pub use replays::{corridor_replay_panel, corridor_replay_service};
pub use senders::{corridor_acknowledge, corridor_submit};

// The number of a code outside its list.
pub(crate) const UNKNOWN_CODE: u32 = 1;

// The four checks are calls of their own: C has a name for each, and each contract gives its own method's check.
#[unsafe(no_mangle)]
pub extern "C" fn corridor_check_3(content: &[u8]) -> u16
    ensures { low_bits 16 result ≡ check_bits method3 (bits_of content.now) }
{
    Cyclic3::check_of(content)
}

#[unsafe(no_mangle)]
pub extern "C" fn corridor_check_4(content: &[u8]) -> u16
    ensures { low_bits 16 result ≡ check_bits method4 (bits_of content.now) }
{
    Cyclic4::check_of(content)
}

#[unsafe(no_mangle)]
pub extern "C" fn corridor_check_5(content: &[u8]) -> u16
    ensures { low_bits 16 result ≡ check_bits method5 (bits_of content.now) }
{
    Cyclic5::check_of(content)
}

#[unsafe(no_mangle)]
pub extern "C" fn corridor_check_6(content: &[u8]) -> u32
    ensures { low_bits 32 result ≡ check_bits method6 (bits_of content.now) }
{
    Cyclic6::check_of(content)
}
