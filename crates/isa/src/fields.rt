// The fields of an instruction word.
ghost use Rattle.std.specs.Prelude.{◌≡◌, ℕ, ◌+◌, ◌^◌, ◌<◌};
ghost use Rattle.isa.specs.Words.{signed};
ghost use Rattle.isa.specs.Registers.{reg_of, rd_of, rs1_of, rs2_of};
ghost use Rattle.isa.specs.Manual.{f_op, f_rd, f_3, f_1, f_2, f_7, imm_i, imm_s, imm_b, imm_u, imm_j};

use crate::reg::Reg;

fn low_bits(n: u32) -> Reg
    ensures { result ≡ reg_of n }
{
    Reg {
        number: (n & 31) as u8,
    }
}

pub fn opcode(word: u32) -> u32
    ensures { result ≡ f_op word }
{
    word & 0x7f
}

pub fn rd(word: u32) -> Reg
    ensures { result ≡ rd_of word }
{
    low_bits(word >> 7)
}

pub fn funct3(word: u32) -> u32
    ensures { result ≡ f_3 word }
{
    (word >> 12) & 7
}

pub fn rs1(word: u32) -> Reg
    ensures { result ≡ rs1_of word }
{
    low_bits(word >> 15)
}

pub fn rs2(word: u32) -> Reg
    ensures { result ≡ rs2_of word }
{
    low_bits(word >> 20)
}

pub fn funct7(word: u32) -> u32
    ensures { result ≡ f_7 word }
{
    word >> 25
}

// The top bit of `bits` bits, carried on through 32.
fn sign_extend(bits: u32, x: u32) -> u32
    requires { (0 < bits) × ((bits < 32) × (x < 2 ^ bits)) }
    ensures { result ≡ signed bits x }
{
    if x < 1 << (bits - 1) {
        x
    } else {
        x.wrapping_sub(1 << bits)
    }
}

pub fn imm_i(word: u32) -> u32
    ensures { result ≡ imm_i word }
{
    sign_extend(12, word >> 20)
}

pub fn imm_u(word: u32) -> u32
    ensures { result ≡ imm_u word }
{
    word & 0xffff_f000
}

pub fn imm_s(word: u32) -> u32
    ensures { result ≡ imm_s word }
{
    sign_extend(12, (word >> 25) << 5 | (word >> 7) & 0x1f)
}

// Apart from imm_j: each format scatters its bits in an order of its own, which a table of shifts makes no plainer.
pub fn imm_b(word: u32) -> u32
    ensures { result ≡ imm_b word }
{
    let high = (word >> 31) << 12 | ((word >> 7) & 1) << 11;
    sign_extend(
        13,
        high | ((word >> 25) & 0x3f) << 5 | ((word >> 8) & 0xf) << 1,
    )
}

pub fn imm_j(word: u32) -> u32
    ensures { result ≡ imm_j word }
{
    let high = (word >> 31) << 20 | ((word >> 12) & 0xff) << 12;
    sign_extend(
        21,
        high | ((word >> 20) & 1) << 11 | ((word >> 21) & 0x3ff) << 1,
    )
}
