ghost use Rattle.std.specs.Prelude.{◌≡◌, ℕ, List, [], IfOk, IfErr, None};

use crate::ends::TableEnd;
use crate::plain::{take_record, unquoted};
use csv::{ByteRecord, Reader, ReaderBuilder};
use std::alloc::Global;

/// The records of a table's bytes, one after the other in one record.
#[derive(Drop)]
pub(crate) struct Records<'a> {
    rdr: Reader<&'a [u8]>,
    /// What is left of a text without quotes, whose records are taken without the reader, in half the time.
    pub(crate) unquoted: Option<&'a [u8]>,
    row: ByteRecord,
}

impl<'a> Records<'a> {
    ghost use Rattle.input_table.specs.private.Standing.{IsStanding, Took};
    ghost use Rattle.input_table.specs.Fields.{Record};

    pub(crate) fn new(alloc: Global, bytes: &'a [u8]) -> Records<'a>
        ensures { IsStanding bytes.now [] result }
    {
        let mut builder = ReaderBuilder::new();
        let rdr = builder
            .has_headers(false)
            .flexible(true)
            .from_reader(alloc, bytes);
        Records {
            rdr,
            unquoted: unquoted(bytes),
            row: ByteRecord::new(alloc),
        }
    }

    /// Takes the next record, if there is one.
    pub(crate) fn next(&mut self) -> Result<bool, TableEnd>
        ensures took { (text : List ℕ) (rows : List Record) → IsStanding text rows self.old
            → IfOk result (λ found. Took text rows found self.new) }
        ensures memory { IfErr result (λ end. end ≡ TableEnd.NoMemory) }
    {
        let Some(text) = self.unquoted else {
            return self.next_by_reader();
        };
        match take_record(text, &mut self.row) {
            Err(_) => Err(TableEnd::NoMemory),
            Ok(None) => Ok(false),
            Ok(Some(rest)) => {
                self.unquoted = Some(rest);
                Ok(true)
            }
        }
    }

    /// The same by the reader.
    fn next_by_reader(&mut self) -> Result<bool, TableEnd>
        requires { self.old.unquoted ≡ None }
        ensures took { (text : List ℕ) (rows : List Record) → IsStanding text rows self.old
            → IfOk result (λ found. Took text rows found self.new) }
        ensures memory { IfErr result (λ end. end ≡ TableEnd.NoMemory) }
    {
        let Ok(found) = self.rdr.read_byte_record(&mut self.row) else {
            return Err(TableEnd::NoMemory);
        };
        Ok(found)
    }

    /// The record that was taken last.
    pub(crate) fn row(&self) -> &ByteRecord
        ensures { result.now ≡ self.now.row }
    {
        &self.row
    }
}
