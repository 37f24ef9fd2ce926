// The fill: both tables of an admitted design, entry by entry.
#![tactic(auto)]

ghost use Rattle.std.specs.Prelude.{◌≡◌, ◌^◌, ◌≤◌, length};
ghost use Rattle.general.specs.Lists.{over};
ghost use Rattle.refusal.specs.Numbers.{verdict_number};
ghost use Rattle.design.specs.Stored.{initial_count, offset_total};
ghost use Rattle.entries.specs.Inputs.{OffsetInput};
ghost use Rattle.filling.specs.Fill.{fill_verdict, initial_entries, table_entries, offset_entries, initial_after, offsets_after};
ghost use Rattle.filling.specs.Inputs.{TableInput};
ghost use Rattle.filling.specs.Segment.{segment_offsets};

use design::{Design, LegalDesign};
use entries::{initial_at, offset_of, slope_sum};
use general::{mirrored, pow2};
use refusal::Cause;
use tables::checked_set;
use values::rows::row_of;
use values::slopes::Segments;

// The initial entries, which begin the table.
fn fill_initial(legal: LegalDesign, initial: &mut [u32])
    requires { initial_count legal.design ≤ length initial.old }
    ensures { initial.new ≡ over initial.old 0 (initial_entries legal.design) }
{
    let row = row_of(legal.design.kind);
    let words = pow2(legal.design.alpha);
    for (word, entry) in initial[..words as usize].iter_mut().enumerate() {
        *entry = initial_at(legal, row, word as u64);
    }
}

// The offsets of a segment, by Hi + Lo of the segment, b and p of its table, and the function's sign.
// The entries of B and 2^b - 1 - B add up to -1, so one product serves both, from the middle of the segment outwards.
// By an index: an iterator's `next` would be a branch on the way to an offset, and `.ci/straight` checks that there is none.
fn fill_segment(slopes: u64, b: u32, p: u32, rising: bool, segment: &mut [i32])
    requires offset_input { OffsetInput slopes b p }
    requires length_value { length segment.old ≡ 2 ^ b }
    ensures { segment.new ≡ segment_offsets slopes b p rising }
{
    let half = pow2(b - 1);
    for far in 0..half {
        let above = half + far;
        let below = half - 1 - far;
        let entry = offset_of(slopes, b, p, rising, above);
        let other = mirrored(entry);
        segment[above as usize] = entry;
        segment[below as usize] = other;
    }
}

// The offsets of table i, segment by segment. Hi and Lo are found once a segment.
// Segments by their place: once a loop over `chunks_exact_mut` is over, a proof knows nothing of what stands in them.
fn fill_table(legal: LegalDesign, i: u32, p: u32, table: &mut [i32])
    requires { TableInput legal.design i p (length table.old) }
    ensures { table.new ≡ table_entries legal.design i }
{
    let d = legal.design;
    let pair = legal.pair(i);
    let row = row_of(d.kind);
    let segments = Segments {
        row,
        w: d.w,
        p: d.q + d.g,
        a: pair.a,
    };
    let size = pow2(pair.b) as usize;
    for segment in 0..pow2(pair.a) {
        let slopes = slope_sum(segments, segment);
        let at = segment as usize * size;
        fill_segment(slopes, pair.b, p, row.rising, &mut table[at..at + size]);
    }
}

// The offset tables, one after another. By the number of the table, which its count and its pair go by.
fn fill_offsets(legal: LegalDesign, offsets: &mut [i32])
    requires { offset_total legal.design ≤ length offsets.old }
    ensures { offsets.new ≡ over offsets.old 0 (offset_entries legal.design) }
{
    let mut at = 0;
    let mut p = 0;
    for i in 0..legal.design.m {
        let end = at + legal.offset_count(i) as usize;
        fill_table(legal, i, p, &mut offsets[at..end]);
        at = end;
        p += legal.pair(i).b;
    }
}

// Fills both tables for an admitted design (document 01, "Filling"). Nothing is written before every check has passed.
pub fn fill(d: Design, initial: &mut [u32], offsets: &mut [i32]) -> Result<(), Cause>
    ensures answer { result ≡ fill_verdict d (length initial.old) (length offsets.old) }
    ensures number { verdict_number result ≡ verdict_number (fill_verdict d (length initial.old) (length offsets.old)) }
    ensures initial_table { initial.new ≡ initial_after d initial.old offsets.old }
    ensures offset_tables { offsets.new ≡ offsets_after d initial.old offsets.old }
{
    let legal = checked_set(d, initial.len(), offsets.len())?;
    if d.limit() <= legal.budget() {
        return Err(Cause::NotAdmitted);
    }
    fill_initial(legal, initial);
    fill_offsets(legal, offsets);
    Ok(())
}
