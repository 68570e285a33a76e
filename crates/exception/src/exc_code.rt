// Cause.ExcCode's values (table 6-2): the whole list, with those that this machine cannot reach, so that a value read out of
// Cause can always be named. Numbers by name and no enum, as in the Rust original: a value read out of Cause may be none of them.

// Interrupt.
pub const INT: u64 = 0;

// TLB modification.
pub const MOD: u64 = 1;

// TLB miss on a load or an instruction fetch.
pub const TLBL: u64 = 2;

// TLB miss on a store.
pub const TLBS: u64 = 3;

// Address error on a load or an instruction fetch.
pub const ADEL: u64 = 4;

// Address error on a store.
pub const ADES: u64 = 5;

// Bus error on an instruction fetch.
pub const IBE: u64 = 6;

// Bus error on a data reference.
pub const DBE: u64 = 7;

// `SYSCALL`.
pub const SYS: u64 = 8;

// `BREAK`.
pub const BP: u64 = 9;

// Reserved instruction.
pub const RI: u64 = 10;

// Coprocessor unusable.
pub const CPU: u64 = 11;

// Arithmetic overflow.
pub const OV: u64 = 12;

// Trap.
pub const TR: u64 = 13;

// Floating-point exception.
pub const FPE: u64 = 15;

// Watchpoint.
pub const WATCH: u64 = 23;
