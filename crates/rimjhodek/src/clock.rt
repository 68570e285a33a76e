// Count, Compare, the timer, and the advance.
ghost use Rattle.std.specs.Prelude.{◌≡◌};
ghost use Rattle.cop0.specs.Clock.{count_of, timer_matches_of, edge_of, asked, ticks_until_match_of};
ghost use Rattle.cop0.specs.Advance.{advance_told, advance_of};
ghost use Rattle.rimjhodek.specs.Answers.{flag_of};
ghost use Rattle.rimjhodek.specs.Registers.{cop0_in, put_in, comes_to_compare};

use crate::answers::Flag;
use crate::words::cop0_in;
use crate::{interrupts, registers};
use cop0::Refusal;

#[unsafe(no_mangle)]
pub extern "C" fn rimjhodek_count(cop0: &[u64; 38]) -> u32
    ensures { result ≡ count_of (cop0_in cop0.now) }
{
    bits::low32(registers::count(cop0))
}

// Is Count equal to Compare?
#[unsafe(no_mangle)]
pub extern "C" fn rimjhodek_timer_matches(cop0: &[u64; 38]) -> bool
    ensures { result ≡ timer_matches_of (cop0_in cop0.now) }
{
    cop0_in(*cop0).timer_matches()
}

// How many counts may pass until the timer's next edge.
#[unsafe(no_mangle)]
pub extern "C" fn rimjhodek_count_ticks_until_timer_match(cop0: &[u64; 38]) -> u64
    ensures { result ≡ ticks_until_match_of (cop0_in cop0.now) }
{
    cop0_in(*cop0).count_ticks_until_timer_match()
}

// Has Count come to Compare since the timer was last asked? The last-asked mark moves to the present Count.
#[tactic(auto, using(crate::proofs::Advancing::edge_is))]
#[unsafe(no_mangle)]
pub extern "C" fn rimjhodek_timer_edge(cop0: &mut [u64; 38]) -> bool
    ensures { (result ≡ edge_of (cop0_in cop0.old))
        × (cop0.new ≡ put_in cop0.old (asked (cop0_in cop0.old))) }
{
    let last = bits::low32(cop0[35]);
    let compare = bits::low32(cop0[11]);
    let count = bits::low32(registers::count(cop0));
    registers::ask(cop0);
    is_reached(count, compare, last)
}

// Does Compare lie after the last-asked Count, and not after the present one? A distance of 0 wraps to the largest, and so one
// comparison tests both.
#[tactic(auto, using(crate::proofs::Advancing::reaches))]
fn is_reached(count: u32, compare: u32, last: u32) -> bool
    ensures { result ≡ comes_to_compare count compare last }
{
    let to_compare = compare.wrapping_sub(last);
    let traveled = count.wrapping_sub(last);
    to_compare.wrapping_sub(1) < traveled
}

// Moves the clock by `counts` and Random by `steps`, asks the timer and raises its interrupt on an edge.
#[unsafe(no_mangle)]
pub extern "C" fn rimjhodek_advance(cop0: &mut [u64; 38], counts: u64, steps: u64) -> Flag
    ensures { (result ≡ flag_of (advance_told (cop0_in cop0.old) counts steps))
        × (cop0.new ≡ put_in cop0.old (advance_of (cop0_in cop0.old) counts steps)) }
{
    if counts >= 0x1_0000_0000 {
        return Flag {
            refused: Refusal::Counts.number(),
            ..Flag::default()
        };
    }
    let now = cop0[32].wrapping_add(counts);
    cop0[32] = now;
    interrupts::rimjhodek_tick_random_by(cop0, steps);
    if rimjhodek_timer_edge(cop0) {
        interrupts::rimjhodek_set_ip(cop0, 7, true);
        return Flag {
            refused: 0,
            is: true,
        };
    }
    Flag {
        refused: 0,
        is: false,
    }
}
