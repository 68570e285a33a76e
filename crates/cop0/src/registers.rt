// The register record, its numbers and masks, and reads and writes under them.
ghost use Rattle.std.specs.Prelude.{◌≡◌, ◌%◌};
ghost use Rattle.cop0.specs.Registers.{named, wide, unused, write_mask, arch_mask};
ghost use Rattle.cop0.specs.Record.{fresh, reg, with_reg};
ghost use Rattle.cop0.specs.File.{read_of, write_of, set_hardware_of};

// The VR4300's system control coprocessor: its register file.
#[repr(C)]
#[derive(Clone, Copy)]
pub struct Cop0 {
    // The registers as stored. `read` and `write` apply the masks that make them architectural.
    // Config's wired bits are not stored: they are joined on a read, so that no write can erase them.
    pub regs: [u64; 32],
    // The position on the Count timeline. Count is derived from it, never incremented.
    pub now: u64,
    // Count's value at its epoch, set by the last write to Count.
    pub count_epoch_value: u32,
    // The timeline position at that epoch.
    pub count_epoch_tick: u64,
    // Count as it was when the timer was last asked.
    pub last_count: u32,
    // Config.EC, the clock ratio, sampled from the DivMode pins at reset and read-only.
    pub ec: u8,
    // The value of the last MTC0 or DMTC0, which the unused registers read.
    pub write_latch: u64,
}

// The register numbers are constants by name (User's Manual, table 1-2): an encoding holds any of 0 to 31, so an enum would
// only add a conversion that can fail.
impl Cop0 {
    // The TLB entry that TLBR and TLBWI use.
    pub const INDEX: u8 = 0;

    // The TLB's replacement counter.
    pub const RANDOM: u8 = 1;

    // The even page of a TLB entry.
    pub const ENTRY_LO0: u8 = 2;

    // The odd page of a TLB entry.
    pub const ENTRY_LO1: u8 = 3;

    // Page-table base and faulting VPN2, for a 32-bit refill.
    pub const CONTEXT: u8 = 4;

    // The TLB's page size.
    pub const PAGE_MASK: u8 = 5;

    // How many TLB entries are not replaced.
    pub const WIRED: u8 = 6;

    // The faulting address.
    pub const BAD_VADDR: u8 = 8;

    // The free-running counter, at half the pipeline's clock.
    pub const COUNT: u8 = 9;

    // VPN2 and ASID of a TLB entry.
    pub const ENTRY_HI: u8 = 10;

    // What Count is compared with for the timer's interrupt.
    pub const COMPARE: u8 = 11;

    // Mode and interrupt masks.
    pub const STATUS: u8 = 12;

    // The last exception's cause, and the pending interrupts.
    pub const CAUSE: u8 = 13;

    // Where an exception returns to.
    pub const EPC: u8 = 14;

    // The processor's revision.
    pub const PRID: u8 = 15;

    // Caches, byte order and clock ratio.
    pub const CONFIG: u8 = 16;

    // The physical address of the last LL.
    pub const LL_ADDR: u8 = 17;

    // The watched address, low part.
    pub const WATCH_LO: u8 = 18;

    // The watched address, high part.
    pub const WATCH_HI: u8 = 19;

    // Page-table base and faulting VPN2, for a 64-bit refill.
    pub const XCONTEXT: u8 = 20;

    // Parity error, which the VR4300 does not use.
    pub const PERR: u8 = 26;

    // Cache error, which the VR4300 does not use.
    pub const CACHE_ERR: u8 = 27;

    // A primary cache tag, low part.
    pub const TAG_LO: u8 = 28;

    // A primary cache tag, high part.
    pub const TAG_HI: u8 = 29;

    // Where an error exception returns to.
    pub const ERROR_EPC: u8 = 30;

    // The eight registers of 64 bits, a bit for each (table 1-2); the other 24 have 32. No rule makes this list: they are
    // those that hold an address or a TLB entry.
    pub const WIDE: u32 = (1 << Self::ENTRY_LO0)
        | (1 << Self::ENTRY_LO1)
        | (1 << Self::CONTEXT)
        | (1 << Self::BAD_VADDR)
        | (1 << Self::ENTRY_HI)
        | (1 << Self::EPC)
        | (1 << Self::XCONTEXT)
        | (1 << Self::ERROR_EPC);

    // The numbers "reserved for future use" (table 1-2). The hardware was measured to have one shared latch there, and no
    // storage.
    pub const UNUSED: [u8; 7] = [7, 21, 22, 23, 24, 25, 31];

    // The bits that software can write. A 0 bit is wired, reserved or the hardware's own, and keeps its value. Which bits
    // these are, and by which figure, is in specs/Registers.antt, for this table and the next.
    pub const WRITE_MASK: [u64; 32] = [
        0x8000_003F, // Index
        0, // Random
        0x3FFF_FFFF, // EntryLo0
        0x3FFF_FFFF, // EntryLo1
        0xFFFF_FFFF_FF80_0000, // Context
        0x01FF_E000, // PageMask
        0x3F, // Wired: six bits
        0,
        0, // BadVAddr
        0xFFFF_FFFF, // Count
        0xC000_00FF_FFFF_E0FF, // EntryHi
        0xFFFF_FFFF, // Compare
        0xFF57_FFFF, // Status
        0x0000_0300, // Cause
        0xFFFF_FFFF_FFFF_FFFF, // EPC
        0, // PRId
        0x0F00_800F, // Config
        0xFFFF_FFFF, // LLAddr
        0xFFFF_FFFB, // WatchLo
        0xF, // WatchHi
        0xFFFF_FFFE_0000_0000, // XContext
        0,
        0,
        0,
        0,
        0,
        0xFF, // PErr
        0, // CacheErr
        0x0FFF_FFC0, // TagLo
        0, // TagHi
        0xFFFF_FFFF_FFFF_FFFF, // ErrorEPC
        0,
    ];

    // The bits that a register has, whoever writes them: what a read can give.
    pub const ARCH_MASK: [u64; 32] = [
        0x8000_003F, // Index
        0x3F, // Random
        0x3FFF_FFFF, // EntryLo0
        0x3FFF_FFFF, // EntryLo1
        0xFFFF_FFFF_FFFF_FFF0, // Context
        0x01FF_E000, // PageMask
        0x3F, // Wired
        0,
        0xFFFF_FFFF_FFFF_FFFF, // BadVAddr
        0xFFFF_FFFF, // Count
        0xC000_00FF_FFFF_E0FF, // EntryHi
        0xFFFF_FFFF, // Compare
        0xFF77_FFFF, // Status
        0xB000_FF7C, // Cause
        0xFFFF_FFFF_FFFF_FFFF, // EPC
        0xFFFF, // PRId
        0x0F00_800F, // Config
        0xFFFF_FFFF, // LLAddr
        0xFFFF_FFFB, // WatchLo
        0xF, // WatchHi
        0xFFFF_FFFF_FFFF_FFF0, // XContext
        0,
        0,
        0,
        0,
        0,
        0xFF, // PErr
        0, // CacheErr
        0x0FFF_FFC0, // TagLo
        0, // TagHi
        0xFFFF_FFFF_FFFF_FFFF, // ErrorEPC
        0,
    ];

    // Cold reset (6.4.4). What the manual leaves undefined is 0, so that every machine starts alike.
    #[tactic(auto, unfolding(crate::specs::Record::fresh))]
    pub fn new() -> Cop0
        ensures { result ≡ fresh }
    {
        let mut regs = [0u64; 32];
        // ERL (2) and BEV (22).
        regs[Self::STATUS as usize] = 0x0040_0004;
        regs[Self::RANDOM as usize] = 31;
        // BE (15): the console is big-endian.
        regs[Self::CONFIG as usize] = 0x8000;
        // Imp 0B, the VR4300 series (5.4.5); Rev 22, the later retail units.
        regs[Self::PRID as usize] = 0x0B22;
        Cop0 {
            regs,
            now: 0,
            count_epoch_value: 0,
            count_epoch_tick: 0,
            last_count: 0,
            // 1:1.5, the ratio of the console's clocks.
            ec: 7,
            write_latch: 0,
        }
    }

    // The numbers of the registers that have a name, in the order of table 1-2: what a host's own names are held to.
    pub fn numbers() -> [u8; 25]
        ensures { result ≡ named }
    {
        [
            Self::INDEX,
            Self::RANDOM,
            Self::ENTRY_LO0,
            Self::ENTRY_LO1,
            Self::CONTEXT,
            Self::PAGE_MASK,
            Self::WIRED,
            Self::BAD_VADDR,
            Self::COUNT,
            Self::ENTRY_HI,
            Self::COMPARE,
            Self::STATUS,
            Self::CAUSE,
            Self::EPC,
            Self::PRID,
            Self::CONFIG,
            Self::LL_ADDR,
            Self::WATCH_LO,
            Self::WATCH_HI,
            Self::XCONTEXT,
            Self::PERR,
            Self::CACHE_ERR,
            Self::TAG_LO,
            Self::TAG_HI,
            Self::ERROR_EPC,
        ]
    }

    // Is this one of the `UNUSED` numbers?
    #[tactic(auto, unfolding(crate::specs::Registers::unused, crate::specs::Registers::among))]
    pub fn is_unused(n: u8) -> bool
        ensures { result ≡ unused (n % 32) }
    {
        matches!(n % 32, 7 | 21..=25 | 31)
    }

    // A register's architectural value.
    pub fn read(self, n: u8) -> u64
        ensures { result ≡ read_of self n }
    {
        let k = n % 32;
        // First, since an unused number has no bits under `ARCH_MASK`.
        if Self::is_unused(n) {
            return self.write_latch;
        }
        if k == Self::COUNT {
            return self.count() as u64;
        }
        let own = self.reg(n) & Self::arch_mask(n);
        // With EC and the wired bits (figure 5-16).
        if k == Self::CONFIG {
            return own | (self.ec as u64 * 0x1000_0000) | 0x0006_6460;
        }
        own
    }

    // A write under the register's mask, with what Count, Compare and Wired do besides.
    #[tactic(auto, using(crate::proofs::FileLaws::to_count, crate::proofs::FileLaws::to_compare, crate::proofs::FileLaws::to_wired, crate::proofs::FileLaws::to_other))]
    pub fn write(mut self, n: u8, value: u64) -> Cop0
        ensures { result ≡ write_of self n value }
    {
        let k = n % 32;
        self = self.with_reg(n, bits::merge(Self::write_mask(n), value, self.reg(n)));
        // Count is a value at an epoch and no stored number, so that it cannot drift from the clock.
        if k == Self::COUNT {
            self.count_epoch_value = bits::low32(value);
            self.count_epoch_tick = self.now;
            return self.ask();
        }
        // The timer's bit is latched until Compare is written (6.4.18). Both writes move an end of the interval that the
        // timer asks about, so the next one starts here: a write makes no edge.
        if k == Self::COMPARE {
            return self.set_ip(7, false).ask();
        }
        if k == Self::WIRED {
            return self.with_reg(Self::RANDOM, 31);
        }
        self
    }

    // A write past the write mask, for what the hardware owns. It reaches no bit that the register does not have.
    #[tactic(auto, unfolding(crate::specs::File::set_hardware_of))]
    pub fn set_hardware(mut self, n: u8, value: u64) -> Cop0
        ensures { result ≡ set_hardware_of self n value }
    {
        self = self.with_reg(n, value & Self::arch_mask(n));
        self
    }

    // Register `n` as stored.
    pub(crate) fn reg(self, n: u8) -> u64
        ensures { result ≡ reg self (n % 32) }
    {
        let k = (n % 32) as usize;
        self.regs[k]
    }

    // The record with another value stored in register `n`.
    pub(crate) fn with_reg(mut self, n: u8, x: u64) -> Cop0
        ensures { result ≡ with_reg self (n % 32) x }
    {
        let at = (n % 32) as usize;
        self.regs[at] = x;
        self
    }

    // Beside `arch_mask`, and no function of both tables: each contract names the manual's own table.
    #[tactic(auto, unfolding(crate::specs::Registers::write_mask))]
    fn write_mask(n: u8) -> u64
        ensures { result ≡ write_mask (n % 32) }
    {
        let i = (n % 32) as usize;
        Self::WRITE_MASK[i]
    }

    #[tactic(auto, unfolding(crate::specs::Registers::arch_mask))]
    fn arch_mask(n: u8) -> u64
        ensures { result ≡ arch_mask (n % 32) }
    {
        let i = (n % 32) as usize;
        Self::ARCH_MASK[i]
    }
}

// Is register `n` 64 bits wide?
#[tactic(auto, using(crate::proofs::Numbers::wide_bits))]
pub fn is_wide(n: u8) -> bool
    ensures { result ≡ wide (n % 32) }
{
    let k = (n % 32) as u32;
    bits::field(Cop0::WIDE as u64, k, k) == 1
}
