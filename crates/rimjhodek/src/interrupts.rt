// Interrupts and Random.
ghost use Rattle.std.specs.Prelude.{◌≡◌};
ghost use Rattle.bits.specs.Field.{field_of};
ghost use Rattle.cop0.specs.Interrupt.{set_ip_of, interrupt_pending_of};
ghost use Rattle.cop0.specs.Random.{random_steps, tick_random_of, tick_random_by_of};
ghost use Rattle.rimjhodek.specs.Registers.{cop0_in, put_in};

// The hardware sets or clears a pending bit of Cause.
#[tactic(auto, using(crate::proofs::Pending::ip_set))]
#[unsafe(no_mangle)]
pub extern "C" fn rimjhodek_set_ip(cop0: &mut [u64; 38], bit: u32, on: bool)
    ensures { cop0.new ≡ put_in cop0.old (set_ip_of (cop0_in cop0.old) bit on) }
{
    let at = 8 + bit % 8;
    cop0[13] = bits::with_field(cop0[13], at, at, on as u64);
}

// Is an interrupt taken now? IE alone of Status's lowest three bits is set, and a pending bit meets its mask bit.
#[unsafe(no_mangle)]
pub extern "C" fn rimjhodek_interrupt_pending(cop0: &[u64; 38]) -> bool
    ensures { result ≡ interrupt_pending_of (cop0_in cop0.now) }
{
    let status = cop0[12];
    if bits::field(status, 2, 0) != 1 {
        return false;
    }
    bits::field(cop0[13] & status, 15, 8) != 0
}

// One step of Random.
#[tactic(auto, using(crate::proofs::Pending::random_once))]
#[unsafe(no_mangle)]
pub extern "C" fn rimjhodek_tick_random(cop0: &mut [u64; 38])
    ensures { cop0.new ≡ put_in cop0.old (tick_random_of (cop0_in cop0.old)) }
{
    cop0[1] = stepped(cop0[6], cop0[1], 1);
}

// `n` steps of Random.
#[tactic(auto, using(crate::proofs::Pending::random_stepped))]
#[unsafe(no_mangle)]
pub extern "C" fn rimjhodek_tick_random_by(cop0: &mut [u64; 38], n: u64)
    ensures { cop0.new ≡ put_in cop0.old (tick_random_by_of (cop0_in cop0.old) n) }
{
    cop0[1] = stepped(cop0[6], cop0[1], n);
}

// Random after `n` steps, of Wired and Random as stored: the walk down to Wired, and then a cycle that is entered at 31.
#[tactic(auto, using(crate::proofs::Pending::walked, crate::proofs::Pending::entered, crate::proofs::Pending::cycled))]
fn stepped(wired: u64, random: u64, n: u64) -> u64
    ensures { result ≡ random_steps (field_of wired 5 0) n (field_of random 5 0) }
{
    let low = bits::field(wired, 5, 0);
    let cur = bits::field(random, 5, 0);
    let d = (cur + 64 - low) % 64;
    if n <= d {
        return (cur + 64 - n) % 64;
    }
    let cycle = (95 - low) % 64 + 1;
    // How far past the walk, with the step to 31 as place 0 of the cycle. Few steps need no division.
    let past = n - d - 1;
    if past < cycle {
        return (95 - past) % 64;
    }
    (95 - past % cycle) % 64
}
