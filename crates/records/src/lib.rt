// The Intel HEX records of a set: how many there are, what each of them begins with, and what a record that is read holds.
#![tactic(auto)]

ghost use Rattle.std.specs.Prelude.{◌≡◌, ◌≤◌};
ghost use Rattle.design.specs.Stored.{initial_count};
ghost use Rattle.encoding.specs.Inputs.{held};
ghost use Rattle.records.specs.IntelHex.{record_count, bytes_before, record_head};
ghost use Rattle.records.specs.SetBytes.{entry_count, most_bytes};
ghost use Rattle.records.specs.Record.{decoded_record};
ghost use Rattle.records.specs.Inputs.{CountInput, RecordInput};

use design::LegalDesign;
use encoding::Frame;
use frames::{Decoded, decode_digits};
use general::pow2;
use refusal::Cause;

// How many bytes a data record holds, but for the last.
pub const DATA_BYTES: usize = 16;

// How many bytes have an address.
pub const MOST_BYTES: usize = 65536;

// How many bytes a record has before its data: length, address and type.
pub const HEAD_BYTES: usize = 4;

// How many entries a set has, and how many of them are initial entries.
#[derive(Clone, Copy, Debug, PartialEq, Eq)]
pub struct Extent {
    pub initials: usize,
    pub entries: usize,
}

// inner: the extent of a legal design's sets.
pub fn extent_of(legal: LegalDesign) -> Extent
    ensures { result ≡ record { initials = initial_count legal.design; entries = entry_count legal.design } }
{
    let initials = pow2(legal.design.alpha) as usize;
    Extent {
        initials,
        entries: initials + legal.offset_total() as usize,
    }
}

// inner: how many records so many bytes have, the end record among them.
pub fn record_count(total: usize) -> usize
    requires { total ≤ most_bytes }
    ensures { result ≡ record_count total }
{
    (total + 15) / DATA_BYTES + 1
}

// inner: how many bytes the first n records hold.
pub fn bytes_before(total: usize, n: usize) -> usize
    requires { CountInput total n }
    ensures { result ≡ bytes_before total n }
{
    total.min(DATA_BYTES * n)
}

// inner: what record n begins with: length, where a frame has its kind, address and type. The one record that holds no bytes is the end
// record.
pub fn head_of(total: usize, n: usize) -> Frame
    requires { RecordInput total n }
    ensures result_value { held result ≡ record_head total n }
    ensures count_value { result.count ≡ 4 }
{
    let start = bytes_before(total, n);
    let size = bytes_before(total, n + 1) - start;
    if size == 0 {
        return Frame::of_kind(0).with(2, 0).with(1, 1);
    }
    Frame::of_kind(size as u8).with(2, start as u32).with(1, 0)
}

// How many bytes a record has beside its data: those of its head, and the sum.
const OTHER_BYTES: usize = HEAD_BYTES + 1;

// The longest record: a colon and two digits a byte, of which there are at most 255 beside the others.
pub const LONGEST_RECORD: usize = 1 + 2 * (255 + OTHER_BYTES);

// inner: the bytes of a record, or the refusal 21.
pub fn decode_record(text: &[u8]) -> Result<Decoded, Cause>
    ensures { result ≡ decoded_record text.now }
{
    if text.len() % 2 == 0 || LONGEST_RECORD < text.len() || text[0] != b':' {
        return Err(Cause::Record);
    }
    let Some(decoded) = decode_digits(&text[1..]) else {
        return Err(Cause::Record);
    };
    if decoded.count != decoded.bytes[0] as usize + OTHER_BYTES {
        return Err(Cause::Record);
    }
    Ok(decoded)
}
