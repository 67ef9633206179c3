// The program's arguments: a command, then its operands. An option, `--NAME VALUE`, stands anywhere after the command: it is a word of `OPTIONS`, by which a
// command that takes it takes its value out. One that is left over is misuse.

use crate::failure::Failure;
use std::alloc::AllocError;
use std::collections::BTreeMap;
use std::env::{Env, FillError};

// The longest argument that Linux passes, so that every name is told whole.
const ARGUMENT: usize = 131072;

// The longest word that is an option. A longer one is told as a name when it is opened.
const WORD: usize = 4096;

const TAGS: &str = "--tags";

const WINDOW: &str = "--window";

// The options, each followed by its value.
const OPTIONS: [&str; 2] = [TAGS, WINDOW];

// A file's name as it was given, which need not be UTF-8.
pub type Name = Vec<u8>;

// The values of the options given.
type Options = BTreeMap<&'static str, Name>;

// The names of a circuit and of the sheet that comes with it, where one is given.
#[derive(Debug, Drop, PartialEq, Eq)]
pub struct Sources {
    pub(crate) circuit: Name,
    pub(crate) tags: Option<Name>,
}

// What is asked.
#[derive(Debug, Drop, PartialEq, Eq)]
pub enum Command {
    Help,
    SolveInput,
    Solve {
        sources: Sources,
        output: Name,
    },
    Mark {
        sources: Sources,
        hand_in: Name,
    },
    Renew {
        sources: Sources,
        derivation: Name,
        output: Name,
    },
    Runs {
        circuit: Name,
    },
    Watch {
        circuit: Name,
        records: Name,
        window: u32,
        output: Name,
    },
}

// What the program's arguments ask.
pub(crate) fn asked(rt: HostRuntime) -> Result<Command, Failure<'static>> {
    let mut words = arguments(rt)?.into_iter();
    let Some(word) = words.next() else {
        return Ok(Command::SolveInput);
    };
    let mut request = Request {
        word,
        operands: Vec::new(rt.alloc()),
        options: BTreeMap::new(rt.alloc()),
        awaited: None,
    };
    for word in words {
        request.take(word)?;
    }
    request.checked().ok_or(Failure::Misuse)
}

// The arguments after the program's own name.
fn arguments(rt: HostRuntime) -> Result<Vec<Name>, AllocError> {
    let mut room = vec![in rt.alloc(); 0; ARGUMENT]?;
    (1..usize::MAX)
        .map_while(|k| argument(rt, k, &mut room))
        .try_collect(rt.alloc())
}

// Argument k, if there is one.
// Stays: an argument longer than the room is an empty name, which no command and no file has. Linux passes no such argument, so a failure of its own
// would be a case that never comes.
fn argument(rt: HostRuntime, k: usize, room: &mut [u8]) -> Option<Result<Name, AllocError>> {
    match rt.arg(k, room) {
        Ok(length) => Some(room[..length].to_vec(rt.alloc())),
        Err(FillError::TooLong) => Some(Ok(Vec::new(rt.alloc()))),
        Err(FillError::NotPresent) => None,
    }
}

fn is_option(word: &[u8]) -> bool {
    word.len() <= WORD && word.starts_with(b"--")
}

// The command's word, its operands, the values of the options given, and the option whose value is awaited.
#[derive(Debug, Drop, PartialEq, Eq)]
struct Request {
    word: Name,
    operands: Vec<Name>,
    options: Options,
    awaited: Option<&'static str>,
}

impl Request {
    // One argument more. An option stands once, and not where the value of another should. What looks like one and isn't takes the command's place: so does
    // `--help`.
    fn take(&mut self, word: Name) -> Result<(), Failure<'static>> {
        let option = is_option(&word);
        match self.awaited.take() {
            Some(_) if option => return Err(Failure::Misuse),
            Some(awaited) => {
                self.options.insert(awaited, word)?;
            }
            None if !option => self.operands.push(word)?,
            None => match OPTIONS
                .iter()
                .find(|name| name.as_bytes() == word.as_slice())
            {
                Some(name) if self.options.contains_key(name) => return Err(Failure::Misuse),
                Some(name) => self.awaited = Some(*name),
                None => self.word = word,
            },
        }
        Ok(())
    }

    // The command, if it has as many operands as it takes, no option that it doesn't take, and no option without its value.
    fn checked(self) -> Option<Command> {
        let Request {
            word,
            operands,
            mut options,
            awaited,
        } = self;
        let command = command_of(&word, operands, &mut options)?;
        let is_whole = awaited.is_none() && options.is_empty();
        is_whole.then_some(command)
    }
}

// The command of a word with its operands and the options that it takes, whose values are taken out.
fn command_of(word: &[u8], operands: Vec<Name>, options: &mut Options) -> Option<Command> {
    let command = match word {
        b"solve" => {
            let [circuit, output] = <[Name; 2]>::try_from(operands).ok()?;
            let sources = Sources::of(circuit, options);
            Command::Solve { sources, output }
        }
        b"mark" => {
            let [circuit, hand_in] = <[Name; 2]>::try_from(operands).ok()?;
            let sources = Sources::of(circuit, options);
            Command::Mark { sources, hand_in }
        }
        b"renew" => {
            let [circuit, derivation, output] = <[Name; 3]>::try_from(operands).ok()?;
            let sources = Sources::of(circuit, options);
            Command::Renew {
                sources,
                derivation,
                output,
            }
        }
        b"runs" => {
            let [circuit] = <[Name; 1]>::try_from(operands).ok()?;
            Command::Runs { circuit }
        }
        b"watch" => {
            let [circuit, records, output] = <[Name; 3]>::try_from(operands).ok()?;
            let window = window_in(options)?;
            Command::Watch {
                circuit,
                records,
                window,
                output,
            }
        }
        b"--help" if operands.is_empty() => Command::Help,
        _ => return None,
    };
    Some(command)
}

impl Sources {
    // A circuit's name, and that of the sheet among the options.
    fn of(circuit: Name, options: &mut Options) -> Sources {
        Sources {
            circuit,
            tags: options.remove(&TAGS),
        }
    }
}

// The window among the options, in decimal digits and below 2^32; without it 0.
fn window_in(options: &mut Options) -> Option<u32> {
    let Some(window) = options.remove(&WINDOW) else {
        return Some(0);
    };
    if !window.iter().all(|digit| digit.is_ascii_digit()) {
        return None;
    }
    str::from_utf8(&window).ok()?.parse::<u32>().ok()
}
