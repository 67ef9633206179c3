// The program's commands: each reads its operands and what its options name, calls the libraries and prints the answer.

use crate::arguments::{Command, Sources};
use crate::failure::Failure;
use crate::files::Input;
use crate::listing::{Found, Judged, Listing, Pair, Refused, Summary};
use crate::text::print;
use crate::{USAGE, every_run, files, watching};
use circuit::reader::{FILE_MOST, SIGNALS_MOST};
use derivation::answer::{DerivationAnswer, Judgement};
use derivation::call::check_derivation;
use derivation::walk::STEPS_MOST;
use derivation::writer::{HEAD_SIZE, STEP_SIZE};
use pair::PairAnswer;
use records::answer::WatchAnswer;
use renewal::answer::RenewalAnswer;
use solver::answer::{Solved, SolverAnswer};
use std::io::{IsTerminal, Write};
use tags::sheet::{ENTRIES_MOST, SHEET_HEADER};
use tags::tag::ENTRY_SIZE;

// One byte more than the longest circuit, the longest derivation and the longest sheet: no more is read of a file, and one that has so many is refused.
const CIRCUIT: u64 = FILE_MOST as u64 + 1;

const HAND_IN: u64 = RENEWED as u64 + 1;

const SHEET: u64 = (SHEET_HEADER + ENTRY_SIZE * ENTRIES_MOST as usize) as u64 + 1;

// Room for the solver's derivation, of three steps a signal at most, and for a renewed one, the longest.
const SOLVED: usize = HEAD_SIZE + STEP_SIZE * 3 * SIGNALS_MOST as usize;

const RENEWED: usize = HEAD_SIZE + STEP_SIZE * STEPS_MOST as usize;

// What a pair file begins with.
// Stays: bytes, here and in the next, as a file has them; the libraries' letters are numbers that their readers ask for.
const PAIR: &[u8] = b"PQT";

// A sheet that says nothing: its mark, the version 1 and the count 0.
const NO_TAGS: &[u8] = b"TQT\x01\0\0\0";

// Does what is asked.
// Stays: a match on the command, since each case has operands of its own, which a table of functions would have to carry too.
pub(crate) fn run(rt: HostRuntime, command: &Command) -> Result<(), Failure<'_>> {
    match command {
        Command::Help => print(rt, USAGE),
        Command::SolveInput => solve_input(rt),
        Command::Solve { sources, output } => solve(rt, sources, output),
        Command::Mark { sources, hand_in } => mark(rt, sources, hand_in),
        Command::Renew {
            sources,
            derivation,
            output,
        } => renew(rt, sources, derivation, output),
        Command::Runs { circuit } => list_runs(rt, circuit),
        Command::Watch {
            circuit,
            records,
            window,
            output,
        } => watch(rt, circuit, records, *window, output),
    }
}

// The listing of the circuit on standard input.
fn solve_input(rt: HostRuntime) -> Result<(), Failure<'static>> {
    if rt.stdin().is_terminal() {
        let _ = rt.stderr().write_all(
            b"yolqushek: waiting for a circuit on standard input; --help says more\n",
        );
    }
    let given = Given {
        circuit: files::read_input(rt, CIRCUIT)?,
        sheet: None,
    };
    let mut derivation = vec![in rt.alloc(); 0; SOLVED]?;
    let answer = solver::call::solve(&given.circuit, given.sheet(), &mut derivation);
    // Stays: the paper's form, let .. else takes the answer apart (docs/DECISIONS.md, "Forms").
    let SolverAnswer::Refused { number, place } = answer else {
        return given.take_answer(rt, answer, derivation, None);
    };
    print(rt, Refused { number, place })
}

// solve CIRCUIT OUT: the same for a file, and the derivation into another, which is not touched where the circuit or the sheet is refused.
fn solve<'a>(rt: HostRuntime, sources: &'a Sources, output: &'a [u8]) -> Result<(), Failure<'a>> {
    let given = Given::read(rt, sources, Some(output))?;
    let mut derivation = vec![in rt.alloc(); 0; SOLVED]?;
    let answer = solver::call::solve(&given.circuit, given.sheet(), &mut derivation);
    given.take_answer(rt, answer, derivation, Some(output))
}

// mark CIRCUIT HANDIN
fn mark<'a>(rt: HostRuntime, sources: &'a Sources, hand_in: &'a [u8]) -> Result<(), Failure<'a>> {
    let given = Given::read(rt, sources, None)?;
    let hand_in = files::read(rt, hand_in, None, HAND_IN)?;
    given.judge(rt, &hand_in)
}

// renew CIRCUIT DERIVATION OUT: OUT is not touched where anything is refused.
fn renew<'a>(
    rt: HostRuntime,
    sources: &'a Sources,
    derivation: &'a [u8],
    output: &'a [u8],
) -> Result<(), Failure<'a>> {
    let given = Given::read(rt, sources, Some(output))?;
    let derivation = files::read(rt, derivation, Some(output), HAND_IN)?;
    given.renew(rt, &derivation, output)
}

// runs CIRCUIT: every satisfying run of a circuit.
fn list_runs(rt: HostRuntime, circuit: &[u8]) -> Result<(), Failure<'_>> {
    let circuit = files::read(rt, circuit, None, CIRCUIT)?;
    every_run::print_runs(rt, &circuit)
}

// watch CIRCUIT RECORDS OUT: the pair file of two recorded runs goes to OUT, which is not touched where no pair is found.
fn watch<'a>(
    rt: HostRuntime,
    circuit: &'a [u8],
    records: &'a [u8],
    window: u32,
    output: &'a [u8],
) -> Result<(), Failure<'a>> {
    let circuit = files::read(rt, circuit, Some(output), CIRCUIT)?;
    let records = Input::open(rt, records, Some(output))?;
    let watch = watching::watch_file(rt, &circuit, &records, window)?;
    match watch.answer {
        WatchAnswer::Refused { number, place } => print(rt, Refused { number, place }),
        WatchAnswer::Pair(found) => {
            files::write(rt, output, &watch.pair)?;
            print(rt, Found(found))
        }
        WatchAnswer::NoPair => print(rt, "none\n"),
    }
}

// A circuit, and the sheet that comes with it where one is given.
#[derive(Debug, Drop, PartialEq, Eq)]
struct Given {
    circuit: Vec<u8>,
    sheet: Option<Vec<u8>>,
}

impl Given {
    // The files by their names, the circuit first. Neither may be the output.
    fn read<'a>(
        rt: HostRuntime,
        sources: &'a Sources,
        output: Option<&'a [u8]>,
    ) -> Result<Given, Failure<'a>> {
        let circuit = files::read(rt, &sources.circuit, output, CIRCUIT)?;
        // Stays: by `map` and `transpose` the closure isn't covered: in its result the lifetimes of both names meet, and a closure names none.
        let sheet = match &sources.tags {
            Some(tags) => Some(files::read(rt, tags, output, SHEET)?),
            None => None,
        };
        Ok(Given { circuit, sheet })
    }

    fn sheet(&self) -> &[u8] {
        self.sheet.as_deref().unwrap_or(NO_TAGS)
    }

    // Prints what the solver answers, with the bytes that it wrote.
    fn take_answer<'a>(
        &self,
        rt: HostRuntime,
        answer: SolverAnswer,
        mut derivation: Vec<u8>,
        output: Option<&'a [u8]>,
    ) -> Result<(), Failure<'a>> {
        match answer {
            SolverAnswer::Refused { number, place } => print(rt, Refused { number, place }),
            SolverAnswer::Solved(Solved { judgement, bytes }) => {
                derivation.truncate(bytes);
                let summary = self.summary(judgement);
                self.hand_over(rt, &derivation, summary, output)
            }
        }
    }

    // Judges a hand-in, a pair or a derivation.
    fn judge(&self, rt: HostRuntime, hand_in: &[u8]) -> Result<(), Failure<'static>> {
        if hand_in.starts_with(PAIR) {
            self.judge_pair(rt, hand_in)
        } else {
            self.judge_derivation(rt, hand_in)
        }
    }

    fn judge_pair(&self, rt: HostRuntime, pair: &[u8]) -> Result<(), Failure<'static>> {
        match pair::check_pair(&self.circuit, self.sheet(), pair) {
            PairAnswer::Refused { number, place } => print(rt, Refused { number, place }),
            PairAnswer::Accepted { q } => print(rt, Pair { q }),
        }
    }

    fn judge_derivation(&self, rt: HostRuntime, derivation: &[u8]) -> Result<(), Failure<'static>> {
        let mut marks = [0; SIGNALS_MOST as usize];
        match self.judged(derivation, &mut marks) {
            Err(refused) => print(rt, refused),
            Ok(summary) => print(
                rt,
                Judged {
                    summary,
                    marks: &marks,
                },
            ),
        }
    }

    // What a derivation comes to, and its marks.
    fn judged(&self, derivation: &[u8], marks: &mut [u8]) -> Result<Summary, Refused> {
        match check_derivation(&self.circuit, self.sheet(), derivation, marks) {
            DerivationAnswer::Refused { number, place } => Err(Refused { number, place }),
            DerivationAnswer::Accepted(judgement) => Ok(self.summary(judgement)),
        }
    }

    // Renews a derivation. What is renewed is no longer than what is given, so it has room.
    fn renew<'a>(
        &self,
        rt: HostRuntime,
        derivation: &[u8],
        output: &'a [u8],
    ) -> Result<(), Failure<'a>> {
        let mut renewed = vec![in rt.alloc(); 0; RENEWED]?;
        match renewal::call::renew(&self.circuit, self.sheet(), derivation, &mut renewed) {
            RenewalAnswer::Refused { number, place } => print(rt, Refused { number, place }),
            RenewalAnswer::Renewed { bytes } => {
                renewed.truncate(bytes);
                self.hand_back(rt, &renewed, output)
            }
        }
    }

    // Hands over what is renewed. The derivation call, which accepts whatever was renewed, says what it marks and shows.
    fn hand_back<'a>(
        &self,
        rt: HostRuntime,
        renewed: &[u8],
        output: &'a [u8],
    ) -> Result<(), Failure<'a>> {
        match self.judged(renewed, &mut [0; SIGNALS_MOST as usize]) {
            Err(refused) => print(rt, refused),
            Ok(summary) => self.hand_over(rt, renewed, summary, Some(output)),
        }
    }

    // Writes a derivation into the output, if there is one, and lists it. Nothing is written before it is known that nothing is refused.
    fn hand_over<'a>(
        &self,
        rt: HostRuntime,
        derivation: &[u8],
        summary: Summary,
        output: Option<&'a [u8]>,
    ) -> Result<(), Failure<'a>> {
        if let Some(output) = output {
            files::write(rt, output, derivation)?;
        }
        let circuit = &self.circuit;
        print(
            rt,
            Listing {
                circuit,
                derivation,
                summary,
            },
        )
    }

    // What is told of a derivation: what it shows only where a sheet was given.
    fn summary(&self, judgement: Judgement) -> Summary {
        Summary {
            verdict: judgement.verdict,
            count: judgement.count,
            shown: self.sheet.is_some().then_some(judgement.shown),
        }
    }
}
