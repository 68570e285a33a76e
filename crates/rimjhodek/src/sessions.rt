// A session is a register file and a TLB, each lent.
ghost use Rattle.std.specs.Prelude.{◌≡◌};
ghost use Rattle.cop0.specs.Record.{fresh};
ghost use Rattle.tlb.specs.Table.{fresh_table};
ghost use Rattle.rimjhodek.specs.Registers.{cop0_words};
ghost use Rattle.rimjhodek.specs.Table.{table_words};

use crate::{moves, registers};

// A fresh session. Whatever was lent is overwritten whole.
#[unsafe(no_mangle)]
pub extern "C" fn rimjhodek_session_new(cop0: &mut [u64; 38], tlb: &mut [u64; 132])
    ensures { (cop0.new ≡ cop0_words fresh) × (tlb.new ≡ table_words fresh_table) }
{
    registers::rimjhodek_cop0_new(cop0);
    moves::rimjhodek_tlb_new(tlb);
}
