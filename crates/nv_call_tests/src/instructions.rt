//! Words that GNU as (binutils 2.40 for riscv64-unknown-elf) wrote for lines of assembler text.
use nv_isa::{Insn, decode, encode};
use std::alloc::Global;
use std::test::Fail;

// A row a line: the word, its operation, rd, rs1, rs2 and immediate, and the line. The last rows are of other extensions, of 64-bit machines and of no
// machine: RV32IMA has no instruction for them.
const WORDS: &str = "
00000fb7 Lui 31 0 0 0 | lui x31, 0
00001537 Lui 10 0 0 4096 | lui x10, 1
123450b7 Lui 1 0 0 305418240 | lui x1, 74565
7ffff037 Lui 0 0 0 2147479552 | lui x0, 524287
80000fb7 Lui 31 0 0 -2147483648 | lui x31, 524288
fffff537 Lui 10 0 0 -4096 | lui x10, 1048575
00000097 Auipc 1 0 0 0 | auipc x1, 0
00001017 Auipc 0 0 0 4096 | auipc x0, 1
12345f97 Auipc 31 0 0 305418240 | auipc x31, 74565
7ffff517 Auipc 10 0 0 2147479552 | auipc x10, 524287
80000097 Auipc 1 0 0 -2147483648 | auipc x1, 524288
fffff017 Auipc 0 0 0 -4096 | auipc x0, 1048575
00000fef Jal 31 0 0 0 | jal x31, . + (0)
0020056f Jal 10 0 0 2 | jal x10, . + (2)
004000ef Jal 1 0 0 4 | jal x1, . + (4)
fffff06f Jal 0 0 0 -2 | jal x0, . + (-2)
ffdfffef Jal 31 0 0 -4 | jal x31, . + (-4)
7fe0056f Jal 10 0 0 2046 | jal x10, . + (2046)
001000ef Jal 1 0 0 2048 | jal x1, . + (2048)
801ff06f Jal 0 0 0 -2048 | jal x0, . + (-2048)
000fffef Jal 31 0 0 1044480 | jal x31, . + (1044480)
7ffff56f Jal 10 0 0 1048574 | jal x10, . + (1048574)
800000ef Jal 1 0 0 -1048576 | jal x1, . + (-1048576)
ffe0006f Jal 0 0 0 -1046530 | jal x0, . + (-1046530)
00000fe7 Jalr 31 0 0 0 | jalr x31, 0(x0)
00158567 Jalr 10 11 0 1 | jalr x10, 1(x11)
fff100e7 Jalr 1 2 0 -1 | jalr x1, -1(x2)
7fff8067 Jalr 0 31 0 2047 | jalr x0, 2047(x31)
80000fe7 Jalr 31 0 0 -2048 | jalr x31, -2048(x0)
00c58063 Beq 0 11 12 0 | beq x11, x12, . + (0)
01f10163 Beq 0 2 31 2 | beq x2, x31, . + (2)
feff8fe3 Beq 0 31 15 -2 | beq x31, x15, . + (-2)
7e100fe3 Beq 0 0 1 4094 | beq x0, x1, . + (4094)
80c58063 Beq 0 11 12 -4096 | beq x11, x12, . + (-4096)
01f11263 Bne 0 2 31 4 | bne x2, x31, . + (4)
feff9ee3 Bne 0 31 15 -4 | bne x31, x15, . + (-4)
7e101f63 Bne 0 0 1 2046 | bne x0, x1, . + (2046)
00c590e3 Bne 0 11 12 2048 | bne x11, x12, . + (2048)
7ff14fe3 Blt 0 2 31 4094 | blt x2, x31, . + (4094)
80ffc063 Blt 0 31 15 -4096 | blt x31, x15, . + (-4096)
801050e3 Bge 0 0 1 -2048 | bge x0, x1, . + (-2048)
00c5df63 Bge 0 11 12 30 | bge x11, x12, . + (30)
03f16063 Bltu 0 2 31 32 | bltu x2, x31, . + (32)
80ffe063 Bltu 0 31 15 -4096 | bltu x31, x15, . + (-4096)
7e107fe3 Bgeu 0 0 1 4094 | bgeu x0, x1, . + (4094)
fec5ff63 Bgeu 0 11 12 -2050 | bgeu x11, x12, . + (-2050)
7ff10083 Lb 1 2 0 2047 | lb x1, 2047(x2)
800f8003 Lb 0 31 0 -2048 | lb x0, -2048(x31)
7ff01f83 Lh 31 0 0 2047 | lh x31, 2047(x0)
80059503 Lh 10 11 0 -2048 | lh x10, -2048(x11)
00012083 Lw 1 2 0 0 | lw x1, 0(x2)
ffffa003 Lw 0 31 0 -1 | lw x0, -1(x31)
7ff02f83 Lw 31 0 0 2047 | lw x31, 2047(x0)
8005a503 Lw 10 11 0 -2048 | lw x10, -2048(x11)
7ff14083 Lbu 1 2 0 2047 | lbu x1, 2047(x2)
800fc003 Lbu 0 31 0 -2048 | lbu x0, -2048(x31)
7ff05f83 Lhu 31 0 0 2047 | lhu x31, 2047(x0)
8005d503 Lhu 10 11 0 -2048 | lhu x10, -2048(x11)
7ff10fa3 Sb 0 2 31 2047 | sb x31, 2047(x2)
80ff8023 Sb 0 31 15 -2048 | sb x15, -2048(x31)
7e101fa3 Sh 0 0 1 2047 | sh x1, 2047(x0)
80c59023 Sh 0 11 12 -2048 | sh x12, -2048(x11)
01f12023 Sw 0 2 31 0 | sw x31, 0(x2)
feffafa3 Sw 0 31 15 -1 | sw x15, -1(x31)
00102fa3 Sw 0 0 1 31 | sw x1, 31(x0)
02c5a023 Sw 0 11 12 32 | sw x12, 32(x11)
7ff12fa3 Sw 0 2 31 2047 | sw x31, 2047(x2)
80ffa023 Sw 0 31 15 -2048 | sw x15, -2048(x31)
00000f93 Addi 31 0 0 0 | addi x31, x0, 0
00158513 Addi 10 11 0 1 | addi x10, x11, 1
fff10093 Addi 1 2 0 -1 | addi x1, x2, -1
7fff8013 Addi 0 31 0 2047 | addi x0, x31, 2047
80000f93 Addi 31 0 0 -2048 | addi x31, x0, -2048
7ff5a513 Slti 10 11 0 2047 | slti x10, x11, 2047
80012093 Slti 1 2 0 -2048 | slti x1, x2, -2048
ffffa013 Slti 0 31 0 -1 | slti x0, x31, -1
7ff03f93 Sltiu 31 0 0 2047 | sltiu x31, x0, 2047
8005b513 Sltiu 10 11 0 -2048 | sltiu x10, x11, -2048
fff13093 Sltiu 1 2 0 -1 | sltiu x1, x2, -1
7fffc013 Xori 0 31 0 2047 | xori x0, x31, 2047
80004f93 Xori 31 0 0 -2048 | xori x31, x0, -2048
fff5c513 Xori 10 11 0 -1 | xori x10, x11, -1
7ff16093 Ori 1 2 0 2047 | ori x1, x2, 2047
800fe013 Ori 0 31 0 -2048 | ori x0, x31, -2048
fff06f93 Ori 31 0 0 -1 | ori x31, x0, -1
7ff5f513 Andi 10 11 0 2047 | andi x10, x11, 2047
80017093 Andi 1 2 0 -2048 | andi x1, x2, -2048
fffff013 Andi 0 31 0 -1 | andi x0, x31, -1
00001f93 Slli 31 0 0 0 | slli x31, x0, 0
00159513 Slli 10 11 0 1 | slli x10, x11, 1
01011093 Slli 1 2 0 16 | slli x1, x2, 16
01ff9013 Slli 0 31 0 31 | slli x0, x31, 31
00005f93 Srli 31 0 0 0 | srli x31, x0, 0
0015d513 Srli 10 11 0 1 | srli x10, x11, 1
01015093 Srli 1 2 0 16 | srli x1, x2, 16
01ffd013 Srli 0 31 0 31 | srli x0, x31, 31
40005f93 Srai 31 0 0 0 | srai x31, x0, 0
4015d513 Srai 10 11 0 1 | srai x10, x11, 1
41015093 Srai 1 2 0 16 | srai x1, x2, 16
41ffd013 Srai 0 31 0 31 | srai x0, x31, 31
00100fb3 Add 31 0 1 0 | add x31, x0, x1
00c58533 Add 10 11 12 0 | add x10, x11, x12
41f100b3 Sub 1 2 31 0 | sub x1, x2, x31
40ff8033 Sub 0 31 15 0 | sub x0, x31, x15
00101fb3 Sll 31 0 1 0 | sll x31, x0, x1
00c59533 Sll 10 11 12 0 | sll x10, x11, x12
01f120b3 Slt 1 2 31 0 | slt x1, x2, x31
00ffa033 Slt 0 31 15 0 | slt x0, x31, x15
00103fb3 Sltu 31 0 1 0 | sltu x31, x0, x1
00c5b533 Sltu 10 11 12 0 | sltu x10, x11, x12
01f140b3 Xor 1 2 31 0 | xor x1, x2, x31
00ffc033 Xor 0 31 15 0 | xor x0, x31, x15
00105fb3 Srl 31 0 1 0 | srl x31, x0, x1
00c5d533 Srl 10 11 12 0 | srl x10, x11, x12
41f150b3 Sra 1 2 31 0 | sra x1, x2, x31
40ffd033 Sra 0 31 15 0 | sra x0, x31, x15
00106fb3 Or 31 0 1 0 | or x31, x0, x1
00c5e533 Or 10 11 12 0 | or x10, x11, x12
01f170b3 And 1 2 31 0 | and x1, x2, x31
00fff033 And 0 31 15 0 | and x0, x31, x15
0ff0000f Fence 0 0 0 255 | fence
0210000f Fence 0 0 0 33 | fence r, w
8330000f Fence 0 0 0 -1997 | fence.tso
00000073 Ecall 0 0 0 0 | ecall
00100073 Ebreak 0 0 0 0 | ebreak
02100fb3 Mul 31 0 1 0 | mul x31, x0, x1
02c58533 Mul 10 11 12 0 | mul x10, x11, x12
03f110b3 Mulh 1 2 31 0 | mulh x1, x2, x31
02ff9033 Mulh 0 31 15 0 | mulh x0, x31, x15
02102fb3 Mulhsu 31 0 1 0 | mulhsu x31, x0, x1
02c5a533 Mulhsu 10 11 12 0 | mulhsu x10, x11, x12
03f130b3 Mulhu 1 2 31 0 | mulhu x1, x2, x31
02ffb033 Mulhu 0 31 15 0 | mulhu x0, x31, x15
02104fb3 Div 31 0 1 0 | div x31, x0, x1
02c5c533 Div 10 11 12 0 | div x10, x11, x12
03f150b3 Divu 1 2 31 0 | divu x1, x2, x31
02ffd033 Divu 0 31 15 0 | divu x0, x31, x15
02106fb3 Rem 31 0 1 0 | rem x31, x0, x1
02c5e533 Rem 10 11 12 0 | rem x10, x11, x12
03f170b3 Remu 1 2 31 0 | remu x1, x2, x31
02fff033 Remu 0 31 15 0 | remu x0, x31, x15
1005a52f LoadReserved 10 11 0 0 | lr.w x10, (x11)
10002faf LoadReserved 31 0 0 0 | lr.w x31, (x0)
1405a52f LoadReserved 10 11 0 2 | lr.w.aq x10, (x11)
120120af LoadReserved 1 2 0 1 | lr.w.rl x1, (x2)
160fa02f LoadReserved 0 31 0 3 | lr.w.aqrl x0, (x31)
18c5a52f StoreConditional 10 11 12 0 | sc.w x10, x12, (x11)
1df120af StoreConditional 1 2 31 2 | sc.w.aq x1, x31, (x2)
1affa02f StoreConditional 0 31 15 1 | sc.w.rl x0, x15, (x31)
1e102faf StoreConditional 31 0 1 3 | sc.w.aqrl x31, x1, (x0)
09f120af AmoSwap 1 2 31 0 | amoswap.w x1, x31, (x2)
0cffa02f AmoSwap 0 31 15 2 | amoswap.w.aq x0, x15, (x31)
0a102faf AmoSwap 31 0 1 1 | amoswap.w.rl x31, x1, (x0)
0ec5a52f AmoSwap 10 11 12 3 | amoswap.w.aqrl x10, x12, (x11)
00c5a52f AmoAdd 10 11 12 0 | amoadd.w x10, x12, (x11)
00ffa02f AmoAdd 0 31 15 0 | amoadd.w x0, x15, (x31)
04102faf AmoAdd 31 0 1 2 | amoadd.w.aq x31, x1, (x0)
02c5a52f AmoAdd 10 11 12 1 | amoadd.w.rl x10, x12, (x11)
07f120af AmoAdd 1 2 31 3 | amoadd.w.aqrl x1, x31, (x2)
20102faf AmoXor 31 0 1 0 | amoxor.w x31, x1, (x0)
24c5a52f AmoXor 10 11 12 2 | amoxor.w.aq x10, x12, (x11)
23f120af AmoXor 1 2 31 1 | amoxor.w.rl x1, x31, (x2)
26ffa02f AmoXor 0 31 15 3 | amoxor.w.aqrl x0, x15, (x31)
60c5a52f AmoAnd 10 11 12 0 | amoand.w x10, x12, (x11)
65f120af AmoAnd 1 2 31 2 | amoand.w.aq x1, x31, (x2)
62ffa02f AmoAnd 0 31 15 1 | amoand.w.rl x0, x15, (x31)
66102faf AmoAnd 31 0 1 3 | amoand.w.aqrl x31, x1, (x0)
41f120af AmoOr 1 2 31 0 | amoor.w x1, x31, (x2)
44ffa02f AmoOr 0 31 15 2 | amoor.w.aq x0, x15, (x31)
42102faf AmoOr 31 0 1 1 | amoor.w.rl x31, x1, (x0)
46c5a52f AmoOr 10 11 12 3 | amoor.w.aqrl x10, x12, (x11)
80ffa02f AmoMin 0 31 15 0 | amomin.w x0, x15, (x31)
84102faf AmoMin 31 0 1 2 | amomin.w.aq x31, x1, (x0)
82c5a52f AmoMin 10 11 12 1 | amomin.w.rl x10, x12, (x11)
87f120af AmoMin 1 2 31 3 | amomin.w.aqrl x1, x31, (x2)
a0102faf AmoMax 31 0 1 0 | amomax.w x31, x1, (x0)
a4c5a52f AmoMax 10 11 12 2 | amomax.w.aq x10, x12, (x11)
a3f120af AmoMax 1 2 31 1 | amomax.w.rl x1, x31, (x2)
a6ffa02f AmoMax 0 31 15 3 | amomax.w.aqrl x0, x15, (x31)
c0c5a52f AmoMinu 10 11 12 0 | amominu.w x10, x12, (x11)
c5f120af AmoMinu 1 2 31 2 | amominu.w.aq x1, x31, (x2)
c2ffa02f AmoMinu 0 31 15 1 | amominu.w.rl x0, x15, (x31)
c6102faf AmoMinu 31 0 1 3 | amominu.w.aqrl x31, x1, (x0)
e1f120af AmoMaxu 1 2 31 0 | amomaxu.w x1, x31, (x2)
e4ffa02f AmoMaxu 0 31 15 2 | amomaxu.w.aq x0, x15, (x31)
e2102faf AmoMaxu 31 0 1 1 | amomaxu.w.rl x31, x1, (x0)
e6c5a52f AmoMaxu 10 11 12 3 | amomaxu.w.aqrl x10, x12, (x11)
0000100f none | fence.i
300110f3 none | csrrw x1, mstatus, x2
c0002073 none | csrrs x0, cycle, x0
003231f3 none | csrrc x3, fcsr, x4
340fd0f3 none | csrrwi x1, mscratch, 31
340060f3 none | csrrsi x1, mscratch, 0
3400f0f3 none | csrrci x1, mscratch, 1
02c5853b none | mulw x10, x11, x12
03f150bb none | divuw x1, x2, x31
1005b52f none | lr.d x10, (x11)
18c5b52f none | sc.d x10, x12, (x11)
00c5b52f none | amoadd.d x10, x12, (x11)
e7f130af none | amomaxu.d.aqrl x1, x31, (x2)
1015a52f none | lr.w x10, (x11) with rs2 1
16f5a52f none | lr.w.aqrl x10, (x11) with rs2 15
28c5a52f none | an atomic operation of funct5 5
00c5852f none | an atomic operation of funct3 0
04c58533 none | an operation of registers of funct7 2
00012087 none | flw f1, 0(x2)
00112027 none | fsw f1, 0(x2)
003170d3 none | fadd.s f1, f2, f3
00013083 none | ld x1, 0(x2)
00016083 none | lwu x1, 0(x2)
00113023 none | sd x1, 0(x2)
0031009b none | addiw x1, x2, 3
003100bb none | addw x1, x2, x3
02011093 none | slli x1, x2, 32
03f15093 none | srli x1, x2, 63
42015093 none | srai x1, x2, 32
30200073 none | mret
10200073 none | sret
10500073 none | wfi
c0001073 none | unimp
12000073 none | sfence.vma x0, x0
00000000 none | all bits 0
ffffffff none | all bits 1
00000173 none | ecall with rd 2
00003063 none | a branch of funct3 3
";

fn fields_of(alloc: Global, insn: &Insn) -> Result<String, Fail> {
    let mut fields = String::new(alloc);
    write!(
        fields,
        "{:?} {} {} {} {}",
        insn.op, insn.rd, insn.rs1, insn.rs2, insn.imm
    )?;
    Ok(fields)
}

// Whether the word is read as the row says, and written as it was read.
fn is_as_said(alloc: Global, row: &str) -> Result<bool, Fail> {
    let (spelled, _) = row.split_once(" | ").ok_or("no line")?;
    let (word, fields) = spelled.split_once(' ').ok_or("no fields")?;
    let word = u32::from_str_radix(word, 16)?;
    match decode(word) {
        Some(insn) => Ok(encode(&insn) == word && fields_of(alloc, &insn)?.as_str() == fields),
        None => Ok(fields == "none"),
    }
}

#[test]
fn assembled_words(rt: HostRuntime) -> Result<(), Fail> {
    for row in WORDS.split('\n') {
        if !row.is_empty() {
            assert!(rt; is_as_said(rt.alloc(), row)?, "{row}");
        }
    }
    Ok(())
}
