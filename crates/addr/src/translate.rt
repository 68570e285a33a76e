// Translation: directly where the segment says so, else by the TLB.
ghost use Rattle.std.specs.Prelude.{◌≡◌};
ghost use Rattle.addr.specs.Answers.{told_translate};
ghost use Rattle.addr.specs.Translate.{by_entry, translate_answer, translate_table};

use crate::access::Access;
use crate::segments::{Cached, Segment};
use tlb::{Tlb, TlbFault, Translated};

#[derive(Clone, Copy)]
pub struct Physical {
    pub addr: u32,
    pub cached: Cached,
    // The number of the TLB's entry that gave it, or 32 where none was asked, the number of an empty slot
    // (`WhichEntry.direct_has_32`).
    pub entry: u8,
}

// Why a translation failed. Two cases, since they raise different exceptions from different vectors.
#[derive(Clone, Copy, PartialEq, Eq)]
pub enum TranslateError {
    // Not an address of the access's mode.
    Address,
    // An address that the TLB could not resolve.
    Tlb(TlbFault),
}

// What a translation answers, and the table after it.
#[derive(Clone, Copy)]
pub struct Translation {
    pub answer: Result<Physical, TranslateError>,
    pub tlb: Tlb,
}

// Translates an address. The table comes back as the lookup left it, since a second match shuts it down.
pub fn translate_via(tlb: Tlb, vaddr: u64, asid: u8, store: bool, access: Access) -> Translation
    ensures { (told_translate result.answer ≡ told_translate (translate_answer tlb vaddr asid store access))
        × (result.tlb ≡ translate_table tlb vaddr asid access) }
{
    match access.segment(vaddr) {
        Segment::Direct { addr, cached } => Translation {
            answer: Ok(Physical {
                addr,
                cached,
                entry: 32,
            }),
            tlb,
        },
        Segment::Invalid => Translation {
            answer: Err(TranslateError::Address),
            tlb,
        },
        Segment::Mapped => {
            let looked = tlb.lookup(vaddr, asid, store);
            let after = looked.tlb;
            // By `let .. else`, the form that the scope gives this place.
            let Ok(found) = looked.answer else {
                return Translation {
                    answer: Err(TranslateError::Tlb(looked.answer.unwrap_err())),
                    tlb: after,
                };
            };
            Translation {
                answer: Ok(by_entry(found)),
                tlb: after,
            }
        }
    }
}

// An address that an entry gave. Its C field decides whether a mapped page is cached. A function and no `From`, by the name of its
// definition.
fn by_entry(found: Translated) -> Physical
    ensures { result ≡ by_entry found }
{
    let cached = if found.uncached {
        Cached::No
    } else {
        Cached::Yes
    };
    Physical {
        addr: found.addr,
        cached,
        entry: found.entry,
    }
}
