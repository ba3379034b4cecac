// What the operations work out.
ghost use Rattle.std.specs.Prelude.{◌≡◌, ℕ, ◌+◌, ◌<◌};
ghost use Rattle.std.proofs.Math.Option.{some};
ghost use Rattle.isa.specs.Manual.{alu as alu1, less_s, sar as sar1, muls, branch};
ghost use Rattle.isa.specs.Ops.{alu_f3, alu_other, mul_f3, cond_f3};

use crate::instr::{AluOp, Cond, MulOp};

fn less_signed(x: u32, y: u32) -> bool
    ensures { result ≡ less_s x y }
{
    x.cast_signed() < y.cast_signed()
}

// The shift to the right that keeps the top bit.
fn sar(x: u32, n: u32) -> u32
    requires { n < 32 }
    ensures { result ≡ sar1 x n }
{
    (x.cast_signed() >> n).cast_unsigned()
}

pub fn alu(op: AluOp, x: u32, y: u32) -> u32
    ensures { result ≡ alu1 (alu_f3 op) (alu_other op) x y }
{
    match op {
        AluOp::Add => y.wrapping_add(x),
        AluOp::Sub => x.wrapping_sub(y),
        AluOp::Sll => x.wrapping_shl(y),
        AluOp::Slt => less_signed(x, y) as u32,
        AluOp::Sltu => (x < y) as u32,
        AluOp::Xor => x ^ y,
        AluOp::Srl => x.wrapping_shr(y),
        AluOp::Sra => sar(x, y % 32),
        AluOp::Or => x | y,
        AluOp::And => x & y,
    }
}

pub fn muldiv(op: MulOp, x: u32, y: u32) -> u32
    ensures { some result ≡ muls (mul_f3 op) x y }
{
    match op {
        MulOp::Mul => x.wrapping_mul(y),
        MulOp::Mulhu => ((x as u64 * y as u64) >> 32) as u32,
        MulOp::Divu => { if y == 0 { u32::MAX } else { x / y } }
        MulOp::Remu => { if y == 0 { x } else { x % y } }
    }
}

pub fn taken(cond: Cond, x: u32, y: u32) -> bool
    ensures { some result ≡ branch (cond_f3 cond) x y }
{
    match cond {
        Cond::Eq => x == y,
        Cond::Ne => x != y,
        Cond::Lt => x.cast_signed() < y.cast_signed(),
        Cond::Ge => x.cast_signed() >= y.cast_signed(),
        Cond::Ltu => x < y,
        Cond::Geu => x >= y,
    }
}
