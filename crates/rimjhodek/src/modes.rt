// Modes and segments.
ghost use Rattle.std.specs.Prelude.{◌≡◌, cond, slice_get, Some, None, Ok};
ghost use Rattle.addr.specs.Access.{access_of};
ghost use Rattle.addr.specs.Answers.{mode_number, told_access};
ghost use Rattle.bits.specs.Told.{answered};
ghost use Rattle.rimjhodek.specs.Modes.{is_mode, modes, access_in, granted_of, is_cached, segment_values, reached_of, segment_told};

use crate::refusals::UNKNOWN;
use addr::{Access, Cached, Mode, Segment};

// How an access is made. A mode's number is its KSU: 0 is kernel, 1 supervisor, 2 user.
#[repr(C)]
#[derive(Clone, Copy)]
pub struct By {
    pub mode: u8,
    pub wide: bool,
    pub erl: bool,
}

// The access that Status asks for; where it is refused the refusal's number, and all else is 0.
#[repr(C)]
#[derive(Clone, Copy, Default)]
pub struct Granted {
    pub refused: u8,
    pub mode: u8,
    pub wide: bool,
    pub erl: bool,
}

// How an address is reached. `kind` is 0 for directly, 1 by the TLB, 2 not at all.
#[repr(C)]
#[derive(Clone, Copy, Default)]
pub struct Reached {
    pub refused: u8,
    pub kind: u8,
    pub cached: bool,
    pub addr: u32,
}

#[unsafe(no_mangle)]
pub extern "C" fn rimjhodek_from_status(status: u64) -> Granted
    ensures { result ≡ granted_of (access_of status) }
{
    match Access::from_status(status) {
        Ok(access) => Granted::from(access),
        Err(refusal) => Granted {
            refused: refusal.number(),
            ..Granted::default()
        },
    }
}

#[unsafe(no_mangle)]
pub extern "C" fn rimjhodek_segment(vaddr: u64, access: By) -> Reached
    ensures { result ≡ reached_of (segment_told access vaddr) }
{
    match access_in(access) {
        Some(access) => Reached::from(access.segment(vaddr)),
        None => Reached {
            refused: UNKNOWN,
            ..Reached::default()
        },
    }
}

impl From<Segment> for Reached {
    ghost from_gives = { λ segment reached. reached ≡ reached_of (answered (segment_values segment)) };

    fn from(segment: Segment) -> Reached {
        match segment {
            Segment::Direct { addr, cached } => Reached {
                cached: is_cached(cached),
                addr,
                ..Reached::default()
            },
            Segment::Mapped => Reached {
                kind: 1,
                ..Reached::default()
            },
            Segment::Invalid => Reached {
                kind: 2,
                ..Reached::default()
            },
        }
    }
}

impl From<Access> for Granted {
    ghost from_gives = { λ access granted. granted ≡ granted_of (told_access (Ok access)) };

    fn from(access: Access) -> Granted {
        let mode = access.mode;
        Granted {
            refused: 0,
            mode: number_of(mode),
            wide: access.wide,
            erl: access.erl,
        }
    }
}

// The access, where its mode's number names one.
#[tactic(auto, using(crate::proofs::Naming::mode_named))]
pub(crate) fn access_in(by: By) -> Option<Access>
    ensures { result ≡ cond (is_mode by.mode) (Some (access_in by)) None }
{
    Some(Access {
        mode: mode_in(by.mode)?,
        wide: by.wide,
        erl: by.erl,
    })
}

// The mode that a number names.
fn mode_in(mode: u8) -> Option<Mode>
    ensures { result ≡ slice_get modes mode }
{
    match mode {
        0 => Some(Mode::Kernel),
        1 => Some(Mode::Supervisor),
        2 => Some(Mode::User),
        _ => None,
    }
}

// The numbers that cross are written out, so that they do not hang on the order of the cases.
fn number_of(mode: Mode) -> u8
    ensures { result ≡ mode_number mode }
{
    match mode {
        Mode::Kernel => 0,
        Mode::Supervisor => 1,
        Mode::User => 2,
    }
}

pub(crate) fn is_cached(cached: Cached) -> bool
    ensures { result ≡ is_cached cached }
{
    cached == Cached::Yes
}
