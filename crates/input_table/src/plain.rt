ghost use Rattle.std.specs.Prelude.{◌≡◌, ◌≢◌, ◌≤◌, ◌⊎◌, [], take, drop, length, false, IfOk, IfSome, MatchBool};
ghost use Rattle.csv.specs.Machine.{Runs, next_record};
ghost use Rattle.csv.specs.Reading.{default_config, strip_bom};
ghost use Rattle.csv.specs.Records.{fields_of};
ghost use Rattle.csv.specs.declared.parser.State.TheVariants as st;
ghost use Rattle.input_table.specs.private.Plain.{IsFieldEnd, IsRecordStart, TakesRecord, has_quote};

use csv::ByteRecord;
use std::alloc::AllocError;

/// The text, if its records can be taken without `csv`: it has no quote, and no byte order mark in front.
pub(crate) fn unquoted(text: &[u8]) -> Option<&[u8]>
    ensures { IfSome result (λ rest. (rest.now ≡ strip_bom text.now) × (has_quote rest.now ≡ false)) }
{
    if may_have_mark(text) || text.contains(&b'"') {
        return None;
    }
    Some(text)
}

/// Whether the first byte of a text begins a byte order mark.
fn may_have_mark(text: &[u8]) -> bool
    ensures { result ≡ false → strip_bom text.now ≡ text.now }
{
    let Some((first, _)) = text.split_first() else {
        return false;
    };
    *first == 0xEF
}

/// Whether a byte ends a field.
fn ends_field(byte: u8) -> bool
    ensures { MatchBool result
        ((byte ≡ 44) ⊎ ((byte ≡ 13) ⊎ (byte ≡ 10)))
        ((byte ≢ 44) × (byte ≢ 13) × (byte ≢ 10)) }
{
    // Most bytes of numbers stand behind the comma.
    byte <= b',' && (byte == b',' || byte == b'\n' || byte == b'\r')
}

/// How many bytes the first field of a text has.
fn field_len(text: &[u8]) -> usize
    ensures within { result ≤ length text.now }
    ensures field { Runs default_config st.InField (take result text.now) }
    ensures end { IsFieldEnd (drop result text.now) }
{
    for (at, byte) in text.iter().enumerate() {
        if ends_field(*byte) {
            return at;
        }
    }
    text.len()
}

/// Whether a byte ends a line.
pub(crate) fn is_line_end(byte: u8) -> bool
    ensures { MatchBool result ((byte ≡ 13) ⊎ (byte ≡ 10)) ((byte ≢ 13) × (byte ≢ 10)) }
{
    byte == b'\n' || byte == b'\r'
}

/// A text without the ends of lines at its front.
pub(crate) fn without_line_ends(text: &[u8]) -> &[u8]
    ensures same { next_record default_config st.StartRecord [] [] result.now ≡ next_record default_config st.StartRecord [] [] text.now }
    ensures start { IsRecordStart result.now }
    ensures quotes { has_quote text.now ≡ false → has_quote result.now ≡ false }
{
    let mut rest = text;
    while let Some((first, others)) = rest.split_first() {
        if !is_line_end(*first) {
            break;
        }
        rest = others;
    }
    rest
}

/// Takes the next record of a text without quotes, and gives what follows it, or None where there is no record.
pub(crate) fn take_record<'a>(
    text: &'a [u8],
    row: &mut ByteRecord,
) -> Result<Option<&'a [u8]>, AllocError>
    ensures { has_quote text.now ≡ false → IfOk result (TakesRecord text.now (fields_of row.new)) }
{
    row.clear();
    let mut rest = without_line_ends(text);
    if rest.is_empty() {
        return Ok(None);
    }
    'fields: loop {
        let (field, behind) = rest.split_at(field_len(rest));
        row.push_field(field)?;
        let Some((mark, others)) = behind.split_first() else {
            return Ok(Some(behind));
        };
        if *mark != b',' {
            return Ok(Some(others));
        }
        rest = others;
    }
}
