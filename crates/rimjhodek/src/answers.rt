// Answers as they cross: the number of the refusal, or 0, and then the answer's values, each 0 where there is none.
ghost use Rattle.std.specs.Prelude.{◌≡◌, [], ◌∷◌};
ghost use Rattle.bits.specs.Told.{answered, refused};
ghost use Rattle.cache.specs.Answers.{told_done, told_value, told_plan, told_writeback};
ghost use Rattle.cache.specs.Both.{hits_told};
ghost use Rattle.tags.specs.Words.{hit_of};
ghost use Rattle.tags.specs.Places.{word_for};
ghost use Rattle.rimjhodek.specs.Answers.{flag_of, number_of, plan_of, eviction_of};
ghost use Rattle.rimjhodek.specs.Numbered.{unknown};

use crate::refusals::UNKNOWN;
use cache::Refusal;
use tags::{tag_array, tag_word};

// Yes or no.
#[repr(C)]
#[derive(Clone, Copy, Default)]
pub struct Flag {
    pub refused: u8,
    pub is: bool,
}

#[repr(C)]
#[derive(Clone, Copy, Default)]
pub struct Number {
    pub refused: u8,
    pub value: u64,
}

// What an access must do first: 0 nothing, 1 fill the line, 2 write the line back to `addr` and then fill it.
#[repr(C)]
#[derive(Clone, Copy, Default)]
pub struct Plan {
    pub refused: u8,
    pub plan: u8,
    pub addr: u32,
}

// Whether a line is to be written back, and to which address.
#[repr(C)]
#[derive(Clone, Copy, Default)]
pub struct Eviction {
    pub refused: u8,
    pub evict: bool,
    pub addr: u32,
}

impl Number {
    pub(crate) fn of(value: u64) -> Number
        ensures { result ≡ number_of (answered (value ∷ [])) }
    {
        Number { refused: 0, value }
    }

    // The answer where a number names nothing.
    pub(crate) fn unknown() -> Number
        ensures { result ≡ number_of (refused unknown) }
    {
        Number {
            refused: UNKNOWN,
            ..Number::default()
        }
    }
}

// A function and no `From`: a number and a Result are both types of other crates.
pub(crate) fn done_of(answer: Result<(), Refusal>) -> u8
    ensures { result ≡ (told_done answer).number }
{
    match answer {
        Ok(()) => 0,
        Err(refusal) => refusal.number(),
    }
}

// Whether an address hits: a cache's `hits` without the Result that it answers by, which costs more than the question.
#[tactic(auto, using(bits::proofs::FieldLaws::bit_undone), unfolding(cache::specs::Both::hits_told))]
pub(crate) fn hits_in(tags: &[u32], addr: u32, size: u32) -> Flag
    ensures { result ≡ flag_of (hits_told size tags.now addr) }
{
    if tag_array::is_whole(tags) {
        let word = tag_array::word_for(tags, addr, size);
        return Flag {
            refused: 0,
            is: tag_word::is_hit(word, addr),
        };
    }
    Flag {
        refused: Refusal::Lent.number(),
        ..Flag::default()
    }
}

// The same of tag words whose number their type says.
pub(crate) fn hit_in(tags: &[u32; 512], addr: u32, size: u32) -> bool
    ensures { result ≡ hit_of (word_for size tags.now addr) addr }
{
    tag_word::is_hit(tag_array::word_for(tags, addr, size), addr)
}

impl From<Result<u64, Refusal>> for Number {
    ghost from_gives = { λ answer number. number ≡ number_of (told_value answer) };

    fn from(answer: Result<u64, Refusal>) -> Number {
        match answer {
            Ok(value) => Number::of(value),
            Err(refusal) => Number {
                refused: refusal.number(),
                ..Number::default()
            },
        }
    }
}

impl From<Result<cache::Plan, Refusal>> for Plan {
    ghost from_gives = { λ answer plan. plan ≡ plan_of (told_plan answer) };

    fn from(answer: Result<cache::Plan, Refusal>) -> Plan {
        match answer {
            Ok(cache::Plan::Hit) => Plan::default(),
            Ok(cache::Plan::Fill) => Plan {
                plan: 1,
                ..Plan::default()
            },
            Ok(cache::Plan::Evict(addr)) => Plan {
                refused: 0,
                plan: 2,
                addr,
            },
            Err(refusal) => Plan {
                refused: refusal.number(),
                ..Plan::default()
            },
        }
    }
}

impl From<Result<Option<u32>, Refusal>> for Eviction {
    ghost from_gives = { λ answer eviction. eviction ≡ eviction_of (told_writeback answer) };

    fn from(answer: Result<Option<u32>, Refusal>) -> Eviction {
        match answer {
            Ok(None) => Eviction::default(),
            Ok(Some(addr)) => Eviction {
                refused: 0,
                evict: true,
                addr,
            },
            Err(refusal) => Eviction {
                refused: refusal.number(),
                ..Eviction::default()
            },
        }
    }
}
