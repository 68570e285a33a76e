// The operations of a trace.
use crate::row::Row;

// The table of operations: a row for each, in any order. Its first letter is the part that plays it, its second the arm there; then
// come its name, and a letter for each operand, which says what that may be: `f` a flag, `m` a mode, `v` a vector's kind, `e` an
// exception, `A` and `B` what that comes with, `b` 8 bits, `w` 32 bits and `l` 64 bits. A row without an arm answers `unplayed`,
// which no trace may.
pub(crate) fn row_of(name: &[u8]) -> Option<Row<'static>> {
    Row::of(
        b"sa mfc0 b
sb dmfc0 b
sc mtc0 bl
sd dmtc0 bl
se set_ip bf
sf interrupt_pending
sg advance ll
sh is_shutdown
si entry l
sj page_size w
sk pair_size w
sl lookup lbf
sm write_entry l
sn read_entry l
so probe
sp jtlb_has_match lb
sq itlb_probe lb
sr itlb_fill lb
ss translate_via lbfmff
st dispatch eABlfl
su eret
na new
ta state
wa write bl
wb set_hardware bl
wc set_now l
wd tick_random
we tick_random_by l
wf timer_edge
wg nmi l
aa read b
ab timer_matches
ac count
ad count_now
ae count_ticks_until_timer_match
af access
ca from_rs b
cb is_wide b
cc is_unused b
cd segment lmff
ce vector lv
da d_hits w
db d_load_tag w
dc d_store_tag ww
Da d_miss_plan w
Db d_install wll
Dc d_read wl
Dd d_write wll
De d_flush_index wff
Df d_create_dirty_exclusive w
Dg d_line l
ia i_hits w
ib i_load_tag w
ic i_store_tag ww
id i_invalidate_index w
ie i_hit_invalidate w
Ia i_install wllll
Ib i_read_word w
Ic i_flush_hit w
Id i_line l
",
        name,
    )
}
