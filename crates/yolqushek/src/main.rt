// The program for teachers: solves a circuit, marks hand-ins, renews derivations, lists runs and watches recorded ones. It moves bytes and prints; what is
// right is in the libraries. It always ends with status 0; the script bin/yolqushek sets one from what was printed.

#![tactic(auto)]

mod arguments;
mod commands;
mod every_run;
mod failure;
mod files;
mod listing;
mod text;
mod watching;

fn main(rt: HostRuntime) {
    let command = match arguments::asked(rt) {
        Ok(command) => command,
        Err(failure) => return failure.tell(rt),
    };
    if let Err(failure) = commands::run(rt, &command) {
        failure.tell(rt);
    }
}

const USAGE: &str =
    "usage: yolqushek < CIRCUIT                      solve the circuit and list the derivation
       yolqushek solve CIRCUIT OUT              the same, and write the derivation to OUT
       yolqushek mark CIRCUIT HANDIN            judge a derivation or a pair of runs
       yolqushek renew CIRCUIT DERIVATION OUT   write the derivation without its idle steps to OUT, and list it
       yolqushek runs CIRCUIT                   list every satisfying run of a small circuit, and how many there are
       yolqushek watch CIRCUIT RECORDS OUT      look for a pair among recorded runs, and write it to OUT
       yolqushek --help
solve, mark and renew also take --tags SHEET    with the tags of a sheet; tells how many are shown, and the first that isn't
watch also takes --window W                     a pair's records are fewer than W places apart, 2 to 256 (64 if W is 0 or not given)
";
