// The calls of `exports` as C functions, whose header is bindings/yolqushek.h. A slice passes as a pointer and a length, a lent array as a pointer. Each call
// does what its namesake in `exports` does, and promises the same.
// Stays: the parameters, the numbers and the one-line bodies are what the C interface is.

#![tactic(auto)]

ghost use Rattle.std.specs.Prelude.{◌≡◌, length};
ghost use Rattle.circuit.specs.Call.{circuit_call};
ghost use Rattle.derivation.specs.Call.{derivation_call, derivation_marks};
ghost use Rattle.pair.specs.Call.{pair_call};
ghost use Rattle.records.specs.Call.{watch_call, watch_output};
ghost use Rattle.renewal.specs.Call.{renewal_call, renewal_output};
ghost use Rattle.runs.specs.Call.{first_call, next_call, left_by};
ghost use Rattle.solver.specs.Call.{solver_call, solver_output};
ghost use Rattle.exports.specs.Answers.{read_returned, read_answer, pair_returned, mark_returned, mark_answer, solve_returned, solve_answer};
ghost use Rattle.exports.specs.Answers.{renew_returned, run_returned, watch_returned, watch_answer};

// Reads a circuit. `answer`: p, n, i, o and m.
#[unsafe(no_mangle)]
pub extern "C" fn yolqushek_read(circuit: &[u8], answer: &mut [u64; 5]) -> u64
    ensures returned { result ≡ read_returned (circuit_call circuit.now) }
    ensures answered { answer.new ≡ read_answer (circuit_call circuit.now) answer.old }
{
    exports::yolqushek_read(circuit, answer)
}

// Judges a pair of runs with a sheet, and returns the signal q.
#[unsafe(no_mangle)]
pub extern "C" fn yolqushek_pair(circuit: &[u8], sheet: &[u8], pair: &[u8]) -> u64
    ensures { result ≡ pair_returned (pair_call circuit.now sheet.now pair.now) }
{
    exports::yolqushek_pair(circuit, sheet, pair)
}

// Judges a derivation with a sheet. `answer`: how many signals are marked, 1 for fixed and 0 for open, how many tags are shown, and the first that isn't.
// The marks go to `marks`.
#[unsafe(no_mangle)]
pub extern "C" fn yolqushek_mark(
    circuit: &[u8],
    sheet: &[u8],
    derivation: &[u8],
    marks: &mut [u8],
    answer: &mut [u64; 4],
) -> u64
    ensures returned { result
        ≡ mark_returned (derivation_call circuit.now sheet.now derivation.now (length marks.old)) }
    ensures answered { answer.new
        ≡ mark_answer (derivation_call circuit.now sheet.now derivation.now (length marks.old)) answer.old }
    ensures written { marks.new
        ≡ derivation_marks circuit.now sheet.now derivation.now marks.old }
{
    exports::yolqushek_mark(circuit, sheet, derivation, marks, answer)
}

// Solves a circuit with a sheet. `answer`: the same four numbers as of a derivation, and the derivation's length. The derivation goes to `output`.
#[unsafe(no_mangle)]
pub extern "C" fn yolqushek_solve(
    circuit: &[u8],
    sheet: &[u8],
    output: &mut [u8],
    answer: &mut [u64; 5],
) -> u64
    ensures returned { result ≡ solve_returned (solver_call circuit.now sheet.now (length output.old)) }
    ensures answered { answer.new
        ≡ solve_answer (solver_call circuit.now sheet.now (length output.old)) answer.old }
    ensures written { output.new ≡ solver_output circuit.now sheet.now output.old }
{
    exports::yolqushek_solve(circuit, sheet, output, answer)
}

// Renews a derivation with a sheet, and returns its new length. The renewed derivation goes to `output`.
#[unsafe(no_mangle)]
pub extern "C" fn yolqushek_renew(
    circuit: &[u8],
    sheet: &[u8],
    derivation: &[u8],
    output: &mut [u8],
) -> u64
    ensures returned { result
        ≡ renew_returned (renewal_call circuit.now sheet.now derivation.now (length output.old)) }
    ensures written { output.new
        ≡ renewal_output circuit.now sheet.now derivation.now output.old }
{
    exports::yolqushek_renew(circuit, sheet, derivation, output)
}

// Writes the first satisfying run of a small circuit to `answer`, and returns 1; 0 where there is none.
#[unsafe(no_mangle)]
pub extern "C" fn yolqushek_first_run(circuit: &[u8], answer: &mut [u32]) -> u64
    ensures returned { result ≡ run_returned (first_call circuit.now (length answer.old)) }
    ensures written { answer.new ≡ left_by (first_call circuit.now (length answer.old)) answer.old }
{
    exports::yolqushek_first_run(circuit, answer)
}

// The same of the satisfying runs that the one in `given` comes before.
#[unsafe(no_mangle)]
pub extern "C" fn yolqushek_next_run(circuit: &[u8], given: &[u32], answer: &mut [u32]) -> u64
    ensures returned { result ≡ run_returned (next_call circuit.now given.now (length answer.old)) }
    ensures written { answer.new
        ≡ left_by (next_call circuit.now given.now (length answer.old)) answer.old }
{
    exports::yolqushek_next_run(circuit, given, answer)
}

// Watches recorded runs for a pair, and returns its signal q; 0 where there is none. `answer`: the numbers of the two records, the earlier and the later. The
// pair file goes to `output`.
#[unsafe(no_mangle)]
pub extern "C" fn yolqushek_watch(
    circuit: &[u8],
    records: &[u8],
    window: u32,
    output: &mut [u8],
    answer: &mut [u64; 2],
) -> u64
    ensures returned { result
        ≡ watch_returned (watch_call circuit.now records.now window (length output.old)) }
    ensures answered { answer.new
        ≡ watch_answer (watch_call circuit.now records.now window (length output.old)) answer.old }
    ensures written { output.new ≡ watch_output circuit.now records.now window output.old }
{
    exports::yolqushek_watch(circuit, records, window, output, answer)
}
