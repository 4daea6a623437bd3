ghost use Rattle.std.specs.Prelude.{◌≡◌, ◌++◌, map, IfOk, OnOk};
ghost use Rattle.rand_core.specs.Steps.{first_words};
ghost use Rattle.rand_pcg.specs.Lcg.{advance};
ghost use Rattle.rand_pcg.specs.Pcg.{multiplier_64, pcg32};
ghost use Rattle.load_gen.specs.Load.{access, program};

use core_isa::{Instr, Program};
use mesh_gen::NoMemory;
use rand_core::utils::NextWord;
use rand_pcg::Pcg32;
use std::alloc::Global;

// How many accesses of a tile are drawn.
const DRAWN: u8 = 8;

// The drawn accesses leave the first two lines to the token and the counter.
const FIRST_ADDRESS: u32 = 8;

const ADDRESSES: u32 = 56;

// Registers: always 0, the tile's number, what a drawn load receives, the token, the counter.
const ZERO: u8 = 0;

const TILE: u8 = 1;

const LOADED: u8 = 2;

const TOKEN: u8 = 3;

const COUNTER: u8 = 4;

const NEXT_TILE: u8 = 5;

// The addresses of the token and of the counter.
const TOKEN_AT: u32 = 0;

const COUNTER_AT: u32 = 4;

// The place of the first instruction after the drawn accesses, to which a tile that waits for the token comes back.
const WAIT: u16 = 9;

// What a tile does after its drawn accesses: it waits for the token, adds one to the counter, and hands the token on.
const GUARDED: [Instr; 7] = [
    Instr::Ld {
        rd: TOKEN,
        ra: ZERO,
        n: TOKEN_AT,
    },
    Instr::Bne {
        ra: TOKEN,
        rb: TILE,
        target: WAIT,
    },
    Instr::Ld {
        rd: COUNTER,
        ra: ZERO,
        n: COUNTER_AT,
    },
    Instr::Addi {
        rd: COUNTER,
        ra: COUNTER,
        n: 1,
    },
    Instr::St {
        rs: COUNTER,
        ra: ZERO,
        n: COUNTER_AT,
    },
    Instr::Addi {
        rd: NEXT_TILE,
        ra: TILE,
        n: 1,
    },
    Instr::St {
        rs: NEXT_TILE,
        ra: ZERO,
        n: TOKEN_AT,
    },
];

/// The program of a tile, for which the generator gives its next words.
pub(crate) fn draw_program(alloc: Global, words: &mut Pcg32) -> Result<Program, NoMemory>
    ensures program { IfOk result (λ drawn. drawn ≡ program words.old) }
    ensures after { OnOk result (words.new ≡ advance 64 multiplier_64 8 words.old) }
{
    let mut instrs = Vec::new(alloc);
    instrs.push(Instr::Tid { rd: TILE })?;
    push_accesses(&mut instrs, words)?;
    instrs.extend_from_slice(&GUARDED)?;
    Ok(Program::new(instrs))
}

// Appends the accesses that are drawn.
fn push_accesses(instrs: &mut Vec<Instr>, words: &mut Pcg32) -> Result<(), NoMemory>
    ensures drawn { OnOk result (instrs.new.items
        ≡ instrs.old.items ++ map access (first_words pcg32 8 words.old)) }
    ensures after { OnOk result (words.new ≡ advance 64 multiplier_64 8 words.old) }
{
    for _word in 0..DRAWN {
        instrs.push(access(words.next_word()))?;
    }
    Ok(())
}

// The access that a word stands for.
fn access(word: u32) -> Instr
    ensures { result ≡ access word }
{
    let n = FIRST_ADDRESS + word % ADDRESSES;
    if word / 64 % 2 == 0 {
        Instr::Ld {
            rd: LOADED,
            ra: ZERO,
            n,
        }
    } else {
        Instr::St {
            rs: TILE,
            ra: ZERO,
            n,
        }
    }
}
