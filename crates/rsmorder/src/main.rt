#![tactic(auto)]
// Plays the event lines of standard input as `rsmrun` does, without printing, and then writes to standard output in
// which order the boards shall commit: a line for each strongly connected component, or the number of the refusal. An
// error of the system is told in one line on standard error; after one of reading there is no order.
use reports::Task;

fn main(rt: HostRuntime) {
    let task = Task::order();
    stream::run(
        &mut rt.stdin(),
        &mut rt.stdout(),
        &mut rt.stderr(),
        task,
        b"rsmorder: standard input",
        b"rsmorder: standard output",
    );
}
