//! What each kind of instruction does, and what it leaves, on values worked out by hand.
ghost use Rattle.st_step.specs.Acts.{IsBounded};

use crate::act::Act;
use crate::bytes::{bytes_of, with_bytes};
use crate::choose::act_of;
use crate::decoded::Decoded;
use crate::machine::Machine;
use crate::state::State;
use crate::stepping::is_entry;
use st_base::reg::Reg;
use st_base::thread::TrapKind;
use st_rv::ins::{Ins, Op};
use st_rv::results::extended;

const LOW_END: u64 = 0x8000_0000;

const RODATA: [u8; 4] = [0x11, 0x22, 0x33, 0x84];

const INPUT: [u8; 3] = [0xff, 0x7f, 0x01];

const HALF: u64 = 0x1122_3344_5566_7788;

/// A machine 48 bytes above the low end of its stack, with its frame's base at 0x100, where a store may be half done.
fn state(half: Option<u64>) -> State {
    let mut m = State {
        registers: [0; 32],
        pc: 0x1_0040,
        lo: LOW_END,
        hi: LOW_END + 0x1000,
        half,
    };
    m.write(Reg::Ra, 0x1_0101);
    m.write(Reg::Sp, LOW_END + 48);
    m.write(Reg::Tp, LOW_END + 0x100);
    m.write(Reg::S0, LOW_END + 0x100);
    m.write(Reg::A0, 0xaabb_ccdd);
    m.write(Reg::A1, 7);
    m.write(Reg::A2, 5);
    m.write(Reg::A3, 0x2000_0000);
    m.write(Reg::A4, 0x4000_0000);
    m.write(Reg::A5, 0x1_0000_0000);
    m
}

fn ins(op: Op, rd: Reg, rs1: Reg, rs2: Reg, imm: i32) -> Ins
    ensures { IsBounded result }
{
    Ins {
        op,
        rd,
        rs1,
        rs2,
        imm: i64::from(imm),
    }
}

fn result(rd: Reg, value: u64) -> Act {
    Act::Result { rd, value }
}

fn trap(kind: TrapKind) -> Act {
    Act::Trap(kind)
}

#[test]
fn an_act_is_chosen_by_the_instruction_and_the_machine(rt: HostRuntime) {
    for (half, op, rd, rs1, rs2, imm, act) in [
        (
            None,
            Op::Sub,
            Reg::A0,
            Reg::A1,
            Reg::A2,
            0,
            result(Reg::A0, 2),
        ),
        (
            None,
            Op::Addi,
            Reg::A0,
            Reg::A1,
            Reg::Zero,
            -8,
            result(Reg::A0, u64::MAX),
        ),
        (
            None,
            Op::Lui,
            Reg::A0,
            Reg::Zero,
            Reg::Zero,
            0x80000,
            result(Reg::A0, 0xffff_ffff_8000_0000),
        ),
        (
            None,
            Op::Addi,
            Reg::Sp,
            Reg::Sp,
            Reg::Zero,
            -64,
            Act::StackFull { frame: 64 },
        ),
        (
            None,
            Op::Addi,
            Reg::Sp,
            Reg::Sp,
            Reg::Zero,
            -48,
            result(Reg::Sp, LOW_END),
        ),
        (
            None,
            Op::Addi,
            Reg::Sp,
            Reg::Sp,
            Reg::Zero,
            64,
            result(Reg::Sp, LOW_END + 112),
        ),
        (
            None,
            Op::Addi,
            Reg::A0,
            Reg::Sp,
            Reg::Zero,
            -64,
            result(Reg::A0, LOW_END - 16),
        ),
        (
            None,
            Op::Lb,
            Reg::A0,
            Reg::S0,
            Reg::Zero,
            -13,
            Act::Load {
                op: Op::Lb,
                rd: Reg::A0,
                place: 30,
                address: LOW_END + 0xf3,
            },
        ),
        (None, Op::Lw, Reg::A0, Reg::S0, Reg::Zero, -10, Act::Outside),
        (
            None,
            Op::Sd,
            Reg::Zero,
            Reg::S0,
            Reg::A0,
            8,
            Act::StoreWord {
                address: LOW_END + 0x108,
                value: 0xaabb_ccdd,
            },
        ),
        (
            None,
            Op::Sh,
            Reg::Zero,
            Reg::S0,
            Reg::A0,
            6,
            Act::Fetch { place: 32 },
        ),
        (
            Some(HALF),
            Op::Sh,
            Reg::Zero,
            Reg::S0,
            Reg::A0,
            6,
            Act::Store {
                place: 32,
                value: 0xccdd_3344_5566_7788,
            },
        ),
        (
            Some(HALF),
            Op::Sb,
            Reg::Zero,
            Reg::S0,
            Reg::A0,
            2,
            Act::Store {
                place: 32,
                value: 0x1122_3344_55dd_7788,
            },
        ),
        (
            None,
            Op::Sd,
            Reg::Zero,
            Reg::Tp,
            Reg::Zero,
            -8,
            Act::Mark { place: 31 },
        ),
        (
            None,
            Op::Sd,
            Reg::Zero,
            Reg::Tp,
            Reg::A0,
            -8,
            Act::StoreWord {
                address: LOW_END + 0xf8,
                value: 0xaabb_ccdd,
            },
        ),
        (None, Op::Sd, Reg::Zero, Reg::A0, Reg::A0, 0, Act::Outside),
        (
            None,
            Op::Lw,
            Reg::A0,
            Reg::A3,
            Reg::Zero,
            0,
            result(Reg::A0, 0xffff_ffff_8433_2211),
        ),
        (
            None,
            Op::Lb,
            Reg::A0,
            Reg::A4,
            Reg::Zero,
            0,
            result(Reg::A0, u64::MAX),
        ),
        (
            None,
            Op::Lhu,
            Reg::A0,
            Reg::A4,
            Reg::Zero,
            0,
            result(Reg::A0, 0x7fff),
        ),
        (
            None,
            Op::Lb,
            Reg::A0,
            Reg::A4,
            Reg::Zero,
            3,
            trap(TrapKind::LoadRange),
        ),
        (
            None,
            Op::Lw,
            Reg::A0,
            Reg::A4,
            Reg::Zero,
            0,
            trap(TrapKind::LoadRange),
        ),
        (
            None,
            Op::Lw,
            Reg::A0,
            Reg::A4,
            Reg::Zero,
            2,
            trap(TrapKind::Misaligned),
        ),
        (
            None,
            Op::Bne,
            Reg::Zero,
            Reg::A1,
            Reg::Zero,
            -16,
            Act::Go { pc: 0x1_0030 },
        ),
        (
            None,
            Op::Beq,
            Reg::Zero,
            Reg::A1,
            Reg::Zero,
            -16,
            Act::Go { pc: 0x1_0044 },
        ),
        (
            None,
            Op::Jal,
            Reg::Ra,
            Reg::Zero,
            Reg::Zero,
            0x20,
            Act::Link {
                rd: Reg::Ra,
                pc: 0x1_0060,
            },
        ),
        (
            None,
            Op::Jalr,
            Reg::Ra,
            Reg::Ra,
            Reg::Zero,
            4,
            Act::Link {
                rd: Reg::Ra,
                pc: 0x1_0104,
            },
        ),
        (
            None,
            Op::Jalr,
            Reg::Zero,
            Reg::A5,
            Reg::Zero,
            0,
            Act::Outside,
        ),
        (
            None,
            Op::Ebreak,
            Reg::Zero,
            Reg::Zero,
            Reg::Zero,
            0,
            trap(TrapKind::Abort),
        ),
    ] {
        let i = ins(op, rd, rs1, rs2, imm);
        assert_eq!(rt;
            act_of(&state(half), &Decoded::of(i, false), &RODATA, &INPUT),
            act
        );
    }
}

#[test]
fn bytes_are_taken_of_a_word_and_put_into_it(rt: HostRuntime) {
    let word = 0xfedc_ba98_8654_3210;
    for (op, at, size, value) in [
        (Op::Lb, 3, 1usize, 0xffff_ffff_ffff_ff86),
        (Op::Lbu, 7, 1, 0xfe),
        (Op::Lw, 0, 4, 0xffff_ffff_8654_3210),
        (Op::Lwu, 4, 4, 0xfedc_ba98),
        (Op::Ld, 0, 8, word),
    ] {
        if at < 8 && size <= 8 {
            assert_eq!(rt; extended(op, bytes_of(word, at, size)), value);
        }
    }
    assert_eq!(rt; with_bytes(HALF, 0, 4, 0xaabb_ccdd), 0x1122_3344_aabb_ccdd);
}

#[test]
fn a_machine_goes_on_and_keeps_zero(rt: HostRuntime) {
    let mut m = state(Some(HALF));
    m.put(Reg::A0, 2);
    assert!(rt; m.read(Reg::A0) == 2 && m.pc == 0x1_0044 && m.half.is_none());
    m.put(Reg::Zero, 9);
    assert!(rt; m.read(Reg::Zero) == 0 && m.pc == 0x1_0048);
    m.link(Reg::Ra, 0x1_0104);
    assert!(rt; m.read(Reg::Ra) == 0x1_004c && m.pc == 0x1_0104);
    let mut first = Machine::new(LOW_END, LOW_END + 64);
    let second = first.copy();
    first.set_reg(Reg::A0, 5);
    assert!(rt; first.reg(Reg::A0) == 5 && second.reg(Reg::A0) == 0);
    assert!(rt; second.low_end() == LOW_END && second.high_end() == LOW_END + 64);
}

#[test]
fn entries_stand_below_the_code(rt: HostRuntime) {
    for (pc, is) in [
        (0x10, true),
        (0x90, true),
        (0, false),
        (0x18, false),
        (0xa0, false),
    ] {
        assert_eq!(rt; is_entry(pc), is);
    }
}
