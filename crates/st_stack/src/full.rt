//! A stack full of frames that are exported as those of one thread are: each lies above the one before it.

use crate::stack::PhysStack;
use st_base::chain::Frame;
use std::test::Fail;

const LOW: u64 = 0x8000_0000;

const HIGH: u64 = 0x8010_0000;

#[test]
fn a_stack_full_of_frames_is_exported(rt: HostRuntime) -> Result<(), Fail> {
    let mut stack = PhysStack::open(rt.alloc(), LOW, HIGH)?;
    let mut low = LOW;
    while low < HIGH {
        let f = Frame {
            low,
            base: low + 16,
        };
        assert!(rt; stack.export(f) && stack.is_exported(f), "{low}");
        low += 16;
    }
    assert_eq!(rt; stack.limit(), LOW);
    Ok(())
}
