//! The stack. The program asks for its pages before anything else: if the stack had to grow when memory has
//! run out, a signal would end the program.
ghost use Rattle.std.specs.Prelude.{◌≡◌, ◌≤◌, nat_lt, Some, None, if◌then◌else◌};
ghost use Rattle.command_line.specs.Stack.{STACK_BYTES};

use std::alloc::{AllocError, Global};

/// The bytes of stack to reserve: what the deepest calls need, plus a third.
const STACK: usize = 2 * 1024 * 1024;

/// Reserves memory for the stack of the deepest calls. It allocates as much on the heap first, where running
/// out of memory is an error that can be returned.
pub fn reserve_stack(alloc: Global) -> Result<(), AllocError> {
    let mut block = Vec::with_capacity(alloc, STACK)?;
    block.push(1)?;
    // Freeing a small block leaves the allocator's limits unchanged.
    block.shrink_to_fit();
    let byte = block[0];
    match byte_of_stack(byte, byte as usize) {
        Some(same) if same == byte => Ok(()),
        _ => Err(AllocError),
    }
}

/// Fills as many bytes of stack as the deepest calls need with a byte, and returns the one at an index.
fn byte_of_stack(byte: u8, at: usize) -> Option<u8>
    ensures { result ≡ (if nat_lt at STACK_BYTES then Some byte else None) }
{
    byte_of::<STACK>(byte, at)
}

/// Fills `BYTES` bytes of stack with a byte, and returns the one at an index. It is never inlined, so that
/// they are released when it returns.
#[inline(never)]
fn byte_of<const BYTES: usize>(byte: u8, at: usize) -> Option<u8>
    requires { BYTES ≤ STACK_BYTES }
    ensures { result ≡ (if nat_lt at BYTES then Some byte else None) }
{
    let bytes = [byte; BYTES];
    bytes.get(at).copied()
}
