// A circuit and a sheet for it, neither of them refused: what each call on both begins with.

ghost use Rattle.std.specs.Prelude.{◌≡◌, IfOk};
ghost use Rattle.circuit.specs.Run.{values_in};
ghost use Rattle.circuit.specs.Runs.{first_from, found};
ghost use Rattle.circuit.specs.Answer.{given, answer_by};
ghost use Rattle.tags.specs.Tag.{kept};
ghost use Rattle.tags.specs.Sheet.{sheet_of, sheet_on};
ghost use Rattle.tags.specs.Tagged.{tagged_call};

use crate::first::first_broken;
use crate::sheet::check_sheet;
use circuit::file::CircuitFile;
use circuit::refusal::Refusal;

#[derive(Clone, Copy, Debug, PartialEq, Eq)]
pub struct Tagged<'a> {
    pub file: CircuitFile<'a>,
    pub sheet: &'a [u8],
    ghost fits: { sheet_on file.sizes sheet.now ≡ given (sheet_of sheet.now) },
}

impl<'a> Tagged<'a> {
    // The circuit's refusals 1 to 10, then the sheet's, 26 and 27.
    pub fn read(circuit: &'a [u8], sheet: &'a [u8]) -> Result<Tagged<'a>, Refusal>
        ensures answer { answer_by (λ t. sheet_of t.sheet.now) result ≡ tagged_call circuit.now sheet.now }
        ensures same { IfOk result (λ t. (t.file.bytes.now ≡ circuit.now) × (t.sheet.now ≡ sheet.now)) }
    {
        let file = CircuitFile::read(circuit)?;
        check_sheet(sheet, file.sizes)?;
        Ok(Tagged { file, sheet })
    }

    // Refusal 28: the first input whose value exceeds the limit of a tag on it.
    pub fn first_broken(&self, values: &[u32]) -> Option<u32>
        ensures { result ≡ found (first_from (kept (sheet_of self.now.sheet.now) (values_in values.now)) 1 self.now.file.sizes.i) }
    {
        first_broken(self.sheet, values, self.file.sizes.i)
    }
}
