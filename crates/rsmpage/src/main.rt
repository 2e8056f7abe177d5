#![tactic(auto)]
// Plays the event lines of standard input as `rsmrun` does, and writes a page for the service book to standard output:
// a line for each decided commit, up to 9,999, and the total line. An error of the system is told in one line on
// standard error, and then there is no total line.
use reports::Task;

fn main(rt: HostRuntime) {
    let task = Task::page();
    stream::run(
        &mut rt.stdin(),
        &mut rt.stdout(),
        &mut rt.stderr(),
        task,
        b"rsmpage: standard input",
        b"rsmpage: standard output",
    );
}
