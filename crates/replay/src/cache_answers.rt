// What the caches answer of a line that may have to leave, with its bytes.
use crate::told::{Line, Told};
use cache::{MissPlan, Plan, Writeback};

pub(crate) fn of_plan(made: MissPlan) -> Told {
    match made.answer {
        Ok(Plan::Hit) => Told::Hit,
        Ok(Plan::Fill) => Told::Fill,
        Ok(Plan::Evict(addr)) => Told::Evict(addr, Line::from(made.data)),
        Err(refusal) => Told::from(refusal),
    }
}

pub(crate) fn of_writeback<const N: usize>(made: Writeback<N>) -> Told
where
    Line: From<[u8; N]>,
{
    match made.answer {
        Ok(None) => Told::Stays,
        Ok(Some(addr)) => Told::Evict(addr, Line::from(made.data)),
        Err(refusal) => Told::from(refusal),
    }
}
