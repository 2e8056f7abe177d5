#![tactic(auto)]
// Plays the event lines of standard input, to its end or for 99,999 lines, and writes their answers to standard output.
// There is no exit status: an error of the system is told in one line on standard error.
use reports::Task;

fn main(rt: HostRuntime) {
    let task = Task::rows();
    stream::run(
        &mut rt.stdin(),
        &mut rt.stdout(),
        &mut rt.stderr(),
        task,
        b"rsmrun: standard input",
        b"rsmrun: standard output",
    );
}
