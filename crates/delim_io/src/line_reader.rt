ghost use Rattle.std.specs.Prelude.{◌≡◌, ℕ, ◌+◌, ◌<◌, ◌≤◌, true, false, [], ◌∷◌, ◌⊎◌, List, Some, None, IfOk, IsErr, IsErrOf, Err, length, take, drop};
ghost use Rattle.flow_outside.specs.Causes.{Rose};
ghost use Rattle.flow_outside.specs.Readers.{Lives, OthersStand, left_of, name_of};
ghost use Rattle.flow_outside.specs.Told.{IfTold};
ghost use Rattle.memchr.specs.Find.{IsFirstByte, is_byte};
ghost use Rattle.flow_types.specs.Types.{Fields};
ghost use Rattle.delim_io.specs.Input.{input_limit, parts_at, rows_of};
ghost use Rattle.delim_io.specs.LinesLeft.{AdvancesLines, GivesRow, HasRecord, ReadsAhead, RisesBelow, StaysOpen, rows_ahead, rows_left};

use crate::first_form::{INPUT_LIMIT, all_plain};
use crate::input_kind::InputKind;
use crate::line_record::write_record;
use flow_outside::failure::Memory;
use flow_outside::shelf::Shelf;
use flow_types::schema::{RECORD_LIMIT, Schema};
use memchr::memchr;
use std::alloc::Global;
use std::marker::Model;
use thiserror::Error;

/// How many bytes are read at once, at most.
const PIECE: usize = 65_536;

/// Why no row is given.
#[derive(Clone, Copy, Debug, PartialEq, Eq, Error)]
pub enum LineFault {
    /// Want of memory.
    #[error("out of memory")]
    Memory,
    /// The shelf failed: its count at the reader's name rose in this call.
    #[error("the input can't be read")]
    Read,
    /// The input isn't of its form: the first line, field and kind of fault.
    #[error("the input isn't of a form that is served")]
    Bad {
        line: u64,
        field: u32,
        kind: InputKind,
    },
}

/// An input of the first form that is read in pieces and given row by row, each as its record in the reader's own
/// buffer. No row is made, and nothing is allocated for one. Its rows are those of `first_form`, one by one.
#[derive(Drop)]
pub struct LineReader {
    schema: Schema,
    delimiter: u8,
    // all bytes that were read, of which the first `start` were given as rows
    ahead: Vec<u8>,
    start: usize,
    row: Vec<u8>,
    len: usize,
    piece: Vec<u8>,
}

impl Model for LineReader {
    ghost use Rattle.std.specs.Prelude.{◌≡◌, ◌≤◌, ◌<◌, drop, take, vec_len};
    ghost use Rattle.flow_types.specs.Limits.{record_limit};
    ghost use Rattle.delim_io.specs.LinesLeft.{LinesView};

    ghost Value = { LinesView };

    ghost view = { λ r. record {
      fields = r.schema;
      delimiter = r.delimiter;
      given = r.start;
      ahead = drop r.start r.ahead.items;
      row_bytes = take r.len r.row.items;
    } };

    ghost invariant = { λ r. (r.start ≤ vec_len r.ahead) × (r.len ≤ record_limit)
        × (vec_len r.row ≡ record_limit) × (0 < vec_len r.piece) };
}

impl LineReader {
    /// A reader of lines with rows of this schema, at the first byte of an input. It takes 144 KiB of memory,
    /// and later as many bytes as the input has.
    pub fn open(alloc: Global, schema: Schema, delimiter: u8) -> Result<LineReader, Memory>
        ensures { IfOk result (λ r. r ≡ record {
          fields = schema;
          delimiter = delimiter;
          given = 0;
          ahead = [];
          row_bytes = [];
        }) }
    {
        let Ok(row) = Vec::from_elem(alloc, 0u8, RECORD_LIMIT as usize) else {
            return Err(Memory);
        };
        let Ok(piece) = Vec::from_elem(alloc, 0u8, PIECE) else {
            return Err(Memory);
        };
        Ok(LineReader {
            schema,
            delimiter,
            ahead: Vec::new(alloc),
            start: 0,
            row,
            len: 0,
            piece,
        })
    }

    /// The record of the row that was given last. It costs nothing.
    pub fn record(&self) -> &[u8]
        ensures { result.now ≡ self.now.row_bytes }
    {
        &self.row[..self.len]
    }

    /// Reads on to the next row, whose record it then has: false exactly at the end, and then reader `id` of
    /// the shelf has ended. Each row ends within the first `INPUT_LIMIT` bytes. `Bad` exactly where what is left
    /// isn't of the first form, with line 0, field 0 and `NotBuilt`. After false or a fault it isn't called again.
    pub fn advance<S: Shelf>(&mut self, shelf: &mut S, id: u32) -> Result<bool, LineFault>
        requires { Lives (S.readers shelf.old) id }
        ensures rows { IfOk result (λ more. IfTold (left_of (S.readers shelf.old id)) (λ left.
            AdvancesLines more self.old self.new left (left_of (S.readers shelf.new id)))) }
        ensures record { IfOk result (λ more. more ≡ true → HasRecord self.new) }
        ensures rises { IfOk result (λ more. more ≡ true → RisesBelow input_limit self.old.given self.new.given) }
        ensures bad { (line field : ℕ) (kind : InputKind) → IsErrOf result (LineFault.Bad line field kind) →
            ((line ≡ 0) × (field ≡ 0) × (kind ≡ InputKind.NotBuilt))
            × IfTold (left_of (S.readers shelf.old id)) (λ left. rows_ahead self.old left ≡ None) }
        ensures cause { result ≡ Err LineFault.Read → let name = name_of (S.readers shelf.old id) in
            Rose (S.faults_at shelf.old name) (S.faults_at shelf.new name) }
        ensures open { IfOk result (λ more. StaysOpen more (S.readers shelf.old id)
            (S.readers shelf.new id) (S.living shelf.old) (S.living shelf.new)) }
        ensures shelf { (S.told shelf.new ≡ S.told shelf.old)
            × ((k : List ℕ) → S.faults_at shelf.old k ≤ S.faults_at shelf.new k)
            × OthersStand (S.readers shelf.old) (S.readers shelf.new) id }
        ensures own { (self.new.fields ≡ self.old.fields) × (self.new.delimiter ≡ self.old.delimiter) }
    {
        'pieces: loop {
            if let Some(at) = memchr(b'\n', &self.ahead[self.start..]) {
                return self.give_line(at);
            }
            if self.ahead.len() > INPUT_LIMIT {
                return Err(not_built());
            }
            if !self.fill(shelf, id)? {
                return self.end_of_input();
            }
        }
    }

    // Gives the row of the line that ends at this place of those ahead.
    fn give_line(&mut self, at: usize) -> Result<bool, LineFault>
        requires { IsFirstByte (is_byte 10) self.old.ahead (Some at) }
        ensures row { IfOk result (λ more. (more ≡ true) × ((left : List ℕ) → GivesRow self.old self.new left left)) }
        ensures record { IfOk result (λ more. HasRecord self.new) }
        ensures rises { IfOk result (λ more. RisesBelow input_limit self.old.given self.new.given) }
        ensures refused { IsErr result → (left : List ℕ) → rows_ahead self.old left ≡ None }
        ensures fault { (fault : LineFault) → IsErrOf result fault → fault ≡ LineFault.Bad 0 0 InputKind.NotBuilt }
        ensures own { (self.new.fields ≡ self.old.fields) × (self.new.delimiter ≡ self.old.delimiter) }
    {
        let end = self.start + at;
        if end >= INPUT_LIMIT {
            return Err(not_built());
        }
        let line = &self.ahead[self.start..end];
        if !all_plain(line) {
            return Err(not_built());
        }
        match write_record(line, &self.schema, self.delimiter, self.row.as_mut_slice()) {
            None => Err(not_built()),
            Some(len) => {
                self.len = len;
                self.start = end + 1;
                Ok(true)
            }
        }
    }

    // Reads the next bytes behind those ahead: false at the end of the input.
    fn fill<S: Shelf>(&mut self, shelf: &mut S, id: u32) -> Result<bool, LineFault>
        requires { Lives (S.readers shelf.old) id }
        ensures ahead { IfOk result (λ more. more ≡ true → IfTold (left_of (S.readers shelf.old id))
            (λ left. ReadsAhead self.old self.new left (left_of (S.readers shelf.new id)))) }
        ensures grows { IfOk result (λ more. more ≡ true → length self.old.ahead < length self.new.ahead) }
        ensures end { IfOk result (λ more. more ≡ false → (self.new ≡ self.old)
            × IfTold (left_of (S.readers shelf.old id)) (λ left. left ≡ [])) }
        ensures same { self.new ≡ record self.old { ahead = self.new.ahead } }
        ensures fault { (fault : LineFault) → IsErrOf result fault → (fault ≡ LineFault.Memory) ⊎ (fault ≡ LineFault.Read) }
        ensures cause { result ≡ Err LineFault.Read → let name = name_of (S.readers shelf.old id) in
            Rose (S.faults_at shelf.old name) (S.faults_at shelf.new name) }
        ensures open { IfOk result (λ more. StaysOpen more (S.readers shelf.old id)
            (S.readers shelf.new id) (S.living shelf.old) (S.living shelf.new)) }
        ensures shelf { (S.told shelf.new ≡ S.told shelf.old)
            × ((k : List ℕ) → S.faults_at shelf.old k ≤ S.faults_at shelf.new k)
            × OthersStand (S.readers shelf.old) (S.readers shelf.new) id }
    {
        let Ok(count) = shelf.read(id, &mut self.piece) else {
            return Err(LineFault::Read);
        };
        if count == 0 {
            return Ok(false);
        }
        let Ok(()) = self.ahead.extend_from_slice(&self.piece[..count]) else {
            return Err(LineFault::Memory);
        };
        Ok(true)
    }

    // The answer where no line feed is left and nothing is left to be read.
    fn end_of_input(&self) -> Result<bool, LineFault>
        requires last { parts_at 10 self.now.ahead ≡ self.now.ahead ∷ [] }
        requires small { self.now.given + length self.now.ahead ≤ input_limit }
        ensures end { IfOk result (λ more. (more ≡ false) × (rows_ahead self.now [] ≡ Some [])) }
        ensures refused { IsErr result → rows_ahead self.now [] ≡ None }
        ensures fault { (fault : LineFault) → IsErrOf result fault → fault ≡ LineFault.Bad 0 0 InputKind.NotBuilt }
    {
        if self.start == self.ahead.len() {
            Ok(false)
        } else {
            Err(not_built())
        }
    }
}

fn not_built() -> LineFault
    ensures { result ≡ LineFault.Bad 0 0 InputKind.NotBuilt }
{
    LineFault::Bad {
        line: 0,
        field: 0,
        kind: InputKind::NotBuilt,
    }
}

/// The law of a reader's rows: what is left of an input at its first byte is what the first form makes of it.
pub fn all_rows_are_left()
    ensures { (fields : Fields) (delimiter : ℕ) (bytes : List ℕ) →
        rows_left fields delimiter 0 bytes ≡ rows_of fields delimiter bytes }
{}
