//! Programs that the tests run, and what is printed of them.
use std::alloc::{AllocError, Global};

/// `empty.s`: it gives its argument back.
pub const EMPTY: &str = "main:
    .st_args 1,0
    addi sp,sp,-16
    sd ra,8(sp)
    sd s0,0(sp)
    addi s0,sp,16
    ld ra,8(sp)
    ld s0,0(sp)
    addi sp,sp,16
    ret
";

/// `put.s`: the function `putd` prints a number's decimal digits.
pub const PUT: &str = "putd:
    .st_args 1,0
    addi sp,sp,-32
    sd ra,24(sp)
    sd s0,16(sp)
    sd s1,8(sp)
    addi s0,sp,32
    mv s1,a0
    li t0,10
    divu a0,s1,t0
    beqz a0,.Ld
    call putd
.Ld:
    li t0,10
    remu a0,s1,t0
    addi a0,a0,48
    call st_putc
    li a0,0
    ld ra,24(sp)
    ld s0,16(sp)
    ld s1,8(sp)
    addi sp,sp,32
    ret
";

/// `fib.s`: the Fibonacci number of the decimal number in the input, with a fork for each left branch.
pub const FIB: &str = "main:
    .st_args 1,0
    addi sp,sp,-48
    sd ra,40(sp)
    sd s0,32(sp)
    sd s1,24(sp)
    sd s2,16(sp)
    sd s3,8(sp)
    addi s0,sp,48
    li s1,0
    li s2,0x40000000
    add s3,s2,a0
.Lread:
    bgeu s2,s3,.Lgo
    lbu t0,0(s2)
    addi t0,t0,-48
    sltiu t1,t0,10
    beqz t1,.Lgo
    li t1,10
    mul s1,s1,t1
    add s1,s1,t0
    addi s2,s2,1
    j .Lread
.Lgo:
    mv a0,s1
    call fib
    call putd
    li a0,10
    call st_putc
    li a0,0
    ld ra,40(sp)
    ld s0,32(sp)
    ld s1,24(sp)
    ld s2,16(sp)
    ld s3,8(sp)
    addi sp,sp,48
    ret
fib:
    .st_args 1,0
    addi sp,sp,-32
    sd ra,24(sp)
    sd s0,16(sp)
    sd s1,8(sp)
    sd s8,0(sp)
    addi s0,sp,32
    li t0,2
    bltu a0,t0,.Lleaf
    mv s1,a0
    addi a0,s1,-1
    .st_fork s8
    call fib
    addi a0,s1,-2
    call fib
    mv s1,a0
    mv a6,s8
    call st_touch
    add a0,a0,s1
.Lleaf:
    ld ra,24(sp)
    ld s0,16(sp)
    ld s1,8(sp)
    ld s8,0(sp)
    addi sp,sp,32
    ret
";

/// `cut.s`: it prints before and after it forks a thread that traps.
pub const CUT: &str = "main:
    addi sp,sp,-32
    sd ra,24(sp)
    sd s0,16(sp)
    sd s8,8(sp)
    addi s0,sp,32
    li a0,65
    call st_putc
    .st_fork s8
    call bad
    li a0,66
    call st_putc
    li a0,0
    ld ra,24(sp)
    ld s0,16(sp)
    ld s8,8(sp)
    addi sp,sp,32
    ret
bad:
    addi sp,sp,-16
    sd ra,8(sp)
    sd s0,0(sp)
    addi s0,sp,16
    ebreak
";

/// `race.s`: two threads trap, the first one later in time.
pub const RACE: &str = "main:
    addi sp,sp,-32
    sd ra,24(sp)
    sd s0,16(sp)
    sd s8,8(sp)
    addi s0,sp,32
    .st_fork s8
    call slow
    .st_fork s8
    call bad
    li a0,0
    ld ra,24(sp)
    ld s0,16(sp)
    ld s8,8(sp)
    addi sp,sp,32
    ret
slow:
    addi sp,sp,-16
    sd ra,8(sp)
    sd s0,0(sp)
    addi s0,sp,16
    li t0,1000
.L0:
    addi t0,t0,-1
    bnez t0,.L0
    ebreak
bad:
    addi sp,sp,-16
    sd ra,8(sp)
    sd s0,0(sp)
    addi s0,sp,16
    ebreak
";

/// `stuck.s`: it joins a counter that has too few.
pub const STUCK: &str = "main:
    addi sp,sp,-32
    sd ra,24(sp)
    sd s0,16(sp)
    sd s8,8(sp)
    addi s0,sp,32
    call st_counter
    mv s8,a6
    call st_done
    mv a6,s8
    call st_done
    mv a6,s8
    li a0,3
    call st_join
    li a0,0
    ld ra,24(sp)
    ld s0,16(sp)
    ld s8,8(sp)
    addi sp,sp,32
    ret
";

/// `late.s`: a child joins a counter that its parent adds to later.
pub const LATE: &str = "main:
    addi sp,sp,-32
    sd ra,24(sp)
    sd s0,16(sp)
    sd s8,8(sp)
    sd s9,0(sp)
    addi s0,sp,32
    call st_counter
    mv s8,a6
    .st_fork s9
    call child
    mv a6,s8
    call st_done
    li a0,65
    call st_putc
    li a0,0
    ld ra,24(sp)
    ld s0,16(sp)
    ld s8,8(sp)
    ld s9,0(sp)
    addi sp,sp,32
    ret
child:
    .st_args 0,1
    addi sp,sp,-16
    sd ra,8(sp)
    sd s0,0(sp)
    addi s0,sp,16
    li a0,1
    call st_join
    li a0,0
    ld ra,8(sp)
    ld s0,0(sp)
    addi sp,sp,16
    ret
";

/// `deep.s`: it calls as deep as the input is long.
pub const DEEP: &str = "main:
    .st_args 1,0
    addi sp,sp,-16
    sd ra,8(sp)
    sd s0,0(sp)
    addi s0,sp,16
    call f
    ld ra,8(sp)
    ld s0,0(sp)
    addi sp,sp,16
    ret
f:
    .st_args 1,0
    addi sp,sp,-16
    sd ra,8(sp)
    sd s0,0(sp)
    addi s0,sp,16
    beqz a0,.L0
    addi a0,a0,-1
    call f
.L0:
    ld ra,8(sp)
    ld s0,0(sp)
    addi sp,sp,16
    ret
";

/// `many.s`: it forks as often as the input is long.
pub const MANY: &str = "main:
    .st_args 1,0
    addi sp,sp,-32
    sd ra,24(sp)
    sd s0,16(sp)
    sd s1,8(sp)
    sd s8,0(sp)
    addi s0,sp,32
    mv s1,a0
.L0:
    beqz s1,.L1
    .st_fork s8
    call f
    addi s1,s1,-1
    j .L0
.L1:
    li a0,0
    ld ra,24(sp)
    ld s0,16(sp)
    ld s1,8(sp)
    ld s8,0(sp)
    addi sp,sp,32
    ret
f:
    addi sp,sp,-16
    sd ra,8(sp)
    sd s0,0(sp)
    addi s0,sp,16
    li a0,0
    ld ra,8(sp)
    ld s0,0(sp)
    addi sp,sp,16
    ret
";

/// `load.s`: it loads the first byte of the input.
pub const LOAD: &str = "main:
    addi sp,sp,-16
    sd ra,8(sp)
    sd s0,0(sp)
    addi s0,sp,16
    li t0,0x40000000
    lb a0,0(t0)
    ld ra,8(sp)
    ld s0,0(sp)
    addi sp,sp,16
    ret
";

/// `spill.s`: it prints as many bytes as the input has.
pub const SPILL: &str = "main:
    .st_args 1,0
    addi sp,sp,-32
    sd ra,24(sp)
    sd s0,16(sp)
    sd s1,8(sp)
    addi s0,sp,32
    mv s1,a0
.L0:
    beqz s1,.L1
    li a0,46
    call st_putc
    addi s1,s1,-1
    j .L0
.L1:
    li a0,0
    ld ra,24(sp)
    ld s0,16(sp)
    ld s1,8(sp)
    addi sp,sp,32
    ret
";

/// `kind.s`: it touches a counter.
pub const KIND: &str = "main:
    addi sp,sp,-32
    sd ra,24(sp)
    sd s0,16(sp)
    addi s0,sp,32
    call st_counter
    nop
    call st_touch
    ld ra,24(sp)
    ld s0,16(sp)
    addi sp,sp,32
    ret
";

/// `leaf.s`: it saves no `ra`.
pub const LEAF: &str = "main:
    addi sp,sp,-16
    sd s0,8(sp)
    addi s0,sp,16
    li a0,0
    ld s0,8(sp)
    addi sp,sp,16
    jr ra
";

/// `slot.s`: a slot that one path leaves undefined.
pub const SLOT: &str = "main:
    .st_args 1,0
    addi sp,sp,-32
    sd ra,24(sp)
    sd s0,16(sp)
    addi s0,sp,32
    beqz a0,.L0
    sd a0,-24(s0)
.L0:
    ld a0,-24(s0)
    ld ra,24(sp)
    ld s0,16(sp)
    addi sp,sp,32
    ret
";

/// `killed.s`: a register that a call takes away.
pub const KILLED: &str = "main:
    addi sp,sp,-16
    sd ra,8(sp)
    sd s0,0(sp)
    addi s0,sp,16
    li t0,1
    call st_poll
    mv a0,t0
    ld ra,8(sp)
    ld s0,0(sp)
    addi sp,sp,16
    ret
";

/// `forked.s`: a fork gives no value.
pub const FORKED: &str = "main:
    addi sp,sp,-32
    sd ra,24(sp)
    sd s0,16(sp)
    sd s8,8(sp)
    addi s0,sp,32
    .st_fork s8
    call f
    ld ra,24(sp)
    ld s0,16(sp)
    ld s8,8(sp)
    addi sp,sp,32
    ret
f:
    addi sp,sp,-16
    sd ra,8(sp)
    sd s0,0(sp)
    addi s0,sp,16
    li a0,0
    ld ra,8(sp)
    ld s0,0(sp)
    addi sp,sp,16
    ret
";

/// The canonical text of `empty.s`.
pub const CANONICAL: &str = "main:
    .st_args 1,0
    .st_handles 0
    addi sp,sp,-16
    sd ra,8(sp)
    sd s0,0(sp)
    addi s0,sp,16
    ld ra,8(sp)
    ld s0,0(sp)
    addi sp,sp,16
    ret
";

/// `empty.s` with another sixth line.
pub fn with_sixth_line(alloc: Global, line: &str) -> Result<String, AllocError> {
    format!(in alloc;
        "main:\n    .st_args 1,0\n    addi sp,sp,-16\n    sd ra,8(sp)\n    sd s0,0(sp)\n    {line}\n    ld ra,8(sp)\n    ld s0,0(sp)\n    addi sp,sp,16\n    ret\n"
    )
}

/// The listing of `empty.s`.
pub const LISTING: &str = "main:
00010000 ff010113
00010004 00113423
00010008 00813023
0001000c 01010413
00010010 00040213
00010014 ff823083
00010018 ff023403
0001001c 00417863
00010020 0041e663
00010024 00020113
00010028 00008067
0001002c fe023c23
00010030 00008067
00010034 00040213
00010038 ff823083
0001003c ff023403
00010040 00008067
";

/// `far.s`: a branch over so many lines `nop` and an epilogue.
pub fn far(alloc: Global, count: usize) -> Result<Vec<u8>, AllocError> {
    let leave = b"ld ra,8(sp)\nld s0,0(sp)\naddi sp,sp,16\nret\n";
    let mut text = Vec::from_slice(
        alloc,
        b"main:\n.st_args 1,0\naddi sp,sp,-16\nsd ra,8(sp)\nsd s0,0(sp)\naddi s0,sp,16\nbeqz a0,.Lend\n",
    )?;
    for _ in 0..count {
        text.extend_from_slice(b"nop\n")?;
    }
    text.extend_from_slice(leave)?;
    text.extend_from_slice(b".Lend:\n")?;
    text.extend_from_slice(leave)?;
    Ok(text)
}
