// One call of a record, and whether its answer and its buffer are what the record says.

use crate::record::{Kind, Record, Refusal};
use std::alloc::{AllocError, Global};
use std::array;

// What each byte of buffers and of lent numbers is before a call, and what such a number is.
const FILLING: u8 = 165;

const UNTOUCHED: u64 = FILLING as u64 * 0x0101_0101_0101_0101;

// What a call returned, and the lent numbers after it, with the filling in place of those that aren't lent.
#[derive(Clone, Copy, Debug, PartialEq, Eq)]
struct Told {
    returned: u64,
    numbers: [u64; 5],
}

impl Record<'_> {
    // Whether the call does what the record says: in the buffer it writes some bytes at the start, as far as there is
    // room for them, and leaves the filling after them.
    pub(crate) fn agrees(&self, alloc: Global, buffer: &mut [u8]) -> Result<bool, AllocError> {
        buffer.fill(FILLING);
        let size = self.lent.saturating_mul(self.kind.width());
        let Some(lent) = buffer.get_mut(..size) else {
            return Ok(false);
        };
        if self.call(alloc, lent)? != self.told() {
            return Ok(false);
        }
        let said = &self.written[..self.written.len().min(buffer.len())];
        let left = buffer.strip_prefix(said);
        Ok(left.is_some_and(|rest| rest.iter().all(|byte| *byte == FILLING)))
    }

    // Makes the call.
    // Stays: a match on the kind, since each call takes arguments of its own: closures would be a body each anyway.
    fn call(&self, alloc: Global, lent: &mut [u8]) -> Result<Told, AllocError> {
        let Record {
            circuit,
            sheet,
            hand_in,
            ..
        } = *self;
        let mut numbers = [UNTOUCHED; 5];
        let returned = match self.kind {
            Kind::Read => exports::yolqushek_read(circuit, &mut numbers),
            Kind::Derivation => {
                // Stays: an array of its own: `first_chunk_mut` lends four of the five, but by an Option, never None here, which is no plainer.
                let mut four = [UNTOUCHED; 4];
                let returned = exports::yolqushek_mark(circuit, sheet, hand_in, lent, &mut four);
                numbers[..4].copy_from_slice(&four);
                returned
            }
            Kind::Pair => exports::yolqushek_pair(circuit, sheet, hand_in),
            Kind::Solve => exports::yolqushek_solve(circuit, sheet, lent, &mut numbers),
            Kind::Renew => exports::yolqushek_renew(circuit, sheet, hand_in, lent),
            Kind::FirstRun => on_values(alloc, lent, |answer| {
                exports::yolqushek_first_run(circuit, answer)
            })?,
            Kind::NextRun => {
                let given = values_of(alloc, hand_in)?;
                on_values(alloc, lent, |answer| {
                    exports::yolqushek_next_run(circuit, &given, answer)
                })?
            }
            Kind::Watch => watch(circuit, hand_in, window(sheet), lent, &mut numbers),
        };
        Ok(Told { returned, numbers })
    }

    // What the call must return and hand over: a refusal's number and place, and nothing; or the values.
    fn told(&self) -> Told {
        match self.answer {
            Err(Refusal { number, place }) => Told {
                returned: u64::from(number) << 32 | u64::from(place),
                numbers: [UNTOUCHED; 5],
            },
            Ok(values) => {
                let (returned, handed_over) = parted(self.kind, &values);
                let number = |j: usize| handed_over
                    .get(j)
                    .map_or(UNTOUCHED, |value| u64::from(*value));
                Told {
                    returned: u64::from(returned),
                    numbers: array::from_fn(number),
                }
            }
        }
    }
}

// What a call returns on a result, and the values that it hands over: watching where it returns an output.
fn parted(kind: Kind, values: &[u32; 5]) -> (u32, &[u32]) {
    match kind {
        Kind::Read | Kind::Solve => (0, values),
        Kind::Derivation => (0, &values[..4]),
        Kind::Watch if values[0] != 0 => (values[0], &values[1..3]),
        Kind::Pair | Kind::Renew | Kind::FirstRun | Kind::NextRun | Kind::Watch => (values[0], &[]),
    }
}

// What the watching call returns; it lends two of the numbers.
// Stays: as in `call`, an array of its own. The parameters are the call's.
fn watch(
    circuit: &[u8],
    records: &[u8],
    window: u32,
    lent: &mut [u8],
    numbers: &mut [u64; 5],
) -> u64 {
    let mut two = [UNTOUCHED; 2];
    let returned = exports::yolqushek_watch(circuit, records, window, lent, &mut two);
    numbers[..2].copy_from_slice(&two);
    returned
}

// The window that a watching call has in the sheet's place.
fn window(sheet: &[u8]) -> u32 {
    let (windows, _) = sheet.as_chunks::<4>();
    windows
        .first()
        .map_or(0, |window| u32::from_le_bytes(*window))
}

// The values that bytes hold, four bytes each.
fn values_of(alloc: Global, bytes: &[u8]) -> Result<Vec<u32>, AllocError> {
    let (values, _) = bytes.as_chunks::<4>();
    values
        .iter()
        .map(|value| u32::from_le_bytes(*value))
        .collect(alloc)
}

// What a call returns on a buffer of values, whose bytes are lent.
fn on_values<F: FnOnce(&mut [u32]) -> u64>(
    alloc: Global,
    lent: &mut [u8],
    call: F,
) -> Result<u64, AllocError>
    requires { F.IsAlwaysCallable call }
{
    let mut answer = values_of(alloc, lent)?;
    let returned = call(&mut answer);
    let (places, _) = lent.as_chunks_mut::<4>();
    for (place, value) in places.iter_mut().zip(&answer) {
        *place = value.to_le_bytes();
    }
    Ok(returned)
}
